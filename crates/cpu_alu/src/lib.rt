// The arithmetic and logic unit: what an instruction computes of bytes and flags. Pure functions, one equation each.
#![tactic(auto)]

ghost use Rattle.std.specs.Prelude.{◌≡◌};
ghost use Rattle.cpu_alu.specs.Status.{packed, unpacked, pushed, with_nz, with_v, with_d, with_i, with_c, computed};

use bits::{bit8, one_where};

pub mod arithmetic; // arithmetic.rt: ADC, SBC and the compares
pub mod logic; // logic.rt: AND, ORA, EOR and BIT
pub mod shift; // shift.rt: shifts, counts by one, single bits

// The flags: negative, overflow, decimal, interrupt disable, zero, carry.
#[derive(Clone, Copy)]
pub struct Status {
    pub n: bool,
    pub v: bool,
    pub d: bool,
    pub i: bool,
    pub z: bool,
    pub c: bool,
}

// A byte, and the status after it was computed.
#[derive(Clone, Copy)]
pub struct Computed {
    pub value: u8,
    pub status: Status,
}

// The byte P of the machine's state.
impl From<Status> for u8 {
    ghost from_gives = { λ status p. p ≡ packed status };

    fn from(status: Status) -> u8 {
        one_where(status.n) * 128
            + one_where(status.v) * 64
            + one_where(status.d) * 8
            + one_where(status.i) * 4
            + one_where(status.z) * 2
            + one_where(status.c)
    }
}

// The flags of a byte that was pulled, or of P.
impl From<u8> for Status {
    ghost from_gives = { λ p status. status ≡ unpacked p };

    fn from(p: u8) -> Status {
        Status {
            n: bit8(p, 7),
            v: bit8(p, 6),
            d: bit8(p, 3),
            i: bit8(p, 2),
            z: bit8(p, 1),
            c: bit8(p, 0),
        }
    }
}

impl Status {
    // The byte that is pushed: by PHP and BRK, or by an interrupt.
    pub fn pushed(self, brk: bool) -> u8
        ensures { result ≡ pushed self brk }
    {
        u8::from(self) + 32 + one_where(brk) * 16
    }

    // N and Z of a value: loads, transfers and pulls.
    pub fn with_nz(self, value: u8) -> Status
        ensures { result ≡ with_nz value self }
    {
        Status {
            n: bit8(value, 7),
            z: value == 0,
            ..self
        }
    }

    // One flag as given, the others kept.
    pub fn with_v(mut self, on: bool) -> Status
        ensures { result ≡ with_v on self }
    {
        self.v = on;
        self
    }

    pub fn with_d(mut self, on: bool) -> Status
        ensures { result ≡ with_d on self }
    {
        self.d = on;
        self
    }

    pub fn with_i(mut self, on: bool) -> Status
        ensures { result ≡ with_i on self }
    {
        self.i = on;
        self
    }

    pub fn with_c(mut self, on: bool) -> Status
        ensures { result ≡ with_c on self }
    {
        self.c = on;
        self
    }
}

// A value with N and Z of it; the other flags are those given.
fn resulting(value: u8, status: Status) -> Computed
    ensures { result ≡ computed value status }
{
    Computed {
        value,
        status: status.with_nz(value),
    }
}
