// The transmitter.
#![tactic(auto)]

ghost use Rattle.std.specs.Prelude.{◌≡◌};
ghost use Rattle.serial_transmitter.specs.Transmitter.{idle_transmitter, framed, taken, idle_tick, frame_end, next_phase, ticked};
ghost use Rattle.serial_transmitter.specs.Transmitter.{bit_tick, send_tick, transmitter_clock, line, shift_clock};
ghost use Rattle.serial_transmitter.specs.Transmitter.{transmitter_with_sccr};
ghost use Rattle.serial_format.specs.Format.{pace};

use bits::{bit8, with_bit};
use counters::time::Ticks;
use serial_format::scsr::{TRANSMITTER_EMPTY, UNDERRUN};
use serial_format::{
    ends_bit, frame, frame_length, keeps_transmitter, transmitter_on, transmitter_shifts,
};

// The place of the line's bit, by weight.
const LINE: u16 = 1;

// The bits left to send, the phase, and the bits themselves, the present one lowest.
#[repr(C)]
#[derive(Clone, Copy, PartialEq, Eq)]
pub struct Transmitter {
    pub left: u8,
    pub phase: u8,
    pub register: u16,
}

// The transmitter and the status register after a clock. The methods that make it have both as parameters: as methods
// of this struct they took a fifth more host instructions a clock.
#[derive(Clone, Copy)]
pub struct Sending {
    pub transmitter: Transmitter,
    pub scsr: u8,
}

// The transmitter with no progress.
pub fn idle_transmitter() -> Transmitter
    ensures { result ≡ idle_transmitter }
{
    Transmitter {
        left: 0,
        phase: 0,
        register: 0,
    }
}

// A frame begun: in shift-register mode the byte alone.
fn framed(sccr: u8, byte: u8) -> Transmitter
    ensures { result ≡ framed sccr byte }
{
    if transmitter_shifts(sccr) {
        return Transmitter {
            left: 8,
            phase: 0,
            register: byte as u16,
        };
    }
    Transmitter {
        left: frame_length(sccr, byte),
        phase: 0,
        register: frame(sccr, byte),
    }
}

// The data taken: the data register is empty again, and an under-run is over.
fn take(sccr: u8, scsr: u8, byte: u8) -> Sending
    ensures { result ≡ taken sccr scsr byte }
{
    let status = with_bit(with_bit(scsr, TRANSMITTER_EMPTY, true), UNDERRUN, false);
    Sending {
        transmitter: framed(sccr, byte),
        scsr: status,
    }
}

// The phase that a tick makes.
fn next_phase(phase: u8) -> u8
    ensures { result ≡ next_phase phase }
{
    if phase < 15 {
        return phase + 1;
    }
    0
}

impl Transmitter {
    // A tick with no bits left.
    fn idle_tick(self, sccr: u8, scsr: u8, byte: u8) -> Sending
        ensures { result ≡ idle_tick self sccr scsr byte }
    {
        if bit8(scsr, TRANSMITTER_EMPTY) {
            return Sending {
                transmitter: self,
                scsr,
            };
        }
        take(sccr, scsr, byte)
    }

    // The tick that ends a frame: the next data, or an under-run.
    fn frame_end(self, sccr: u8, scsr: u8, byte: u8) -> Sending
        ensures { result ≡ frame_end self sccr scsr byte }
    {
        if bit8(scsr, TRANSMITTER_EMPTY) {
            let status = with_bit(scsr, UNDERRUN, true);
            return Sending {
                transmitter: self,
                scsr: status,
            };
        }
        take(sccr, scsr, byte)
    }

    // The phase raised, and at the end of a bit the next one on the line.
    fn advance_phase(mut self, sccr: u8) -> Transmitter
        ensures { result ≡ ticked (pace sccr) self }
    {
        let phase = next_phase(self.phase);
        self.phase = phase;
        if ends_bit(sccr, phase) {
            self.register = self.register / 2;
            self.left = self.left.saturating_sub(1);
            return self;
        }
        self
    }

    // A tick with bits left.
    fn bit_tick(self, sccr: u8, scsr: u8, byte: u8) -> Sending
        ensures { result ≡ bit_tick self sccr scsr byte }
    {
        let next = self.advance_phase(sccr);
        if next.left == 0 {
            return next.frame_end(sccr, scsr, byte);
        }
        Sending {
            transmitter: next,
            scsr,
        }
    }

    // One tick of a transmitter that is on.
    fn tick(self, sccr: u8, scsr: u8, byte: u8) -> Sending
        ensures { result ≡ send_tick self sccr scsr byte }
    {
        if self.left == 0 {
            return self.idle_tick(sccr, scsr, byte);
        }
        self.bit_tick(sccr, scsr, byte)
    }

    // The transmitter after a clock with these ticks.
    pub fn clock(mut self, ticks: Ticks, sccr: u8, scsr: u8, byte: u8) -> Sending
        ensures { result ≡ transmitter_clock self ticks sccr scsr byte }
    {
        let moves = (ticks.0 != 0) & transmitter_on(sccr);
        if moves {
            return self.tick(sccr, scsr, byte);
        }
        Sending {
            transmitter: self,
            scsr,
        }
    }

    // The level of its line, high when idle.
    pub fn line_level(self) -> bool
        ensures { result ≡ line self }
    {
        (self.left == 0) | (self.register / LINE % 2 == 1)
    }

    // The level of its shift clock, high when idle.
    pub fn shift_clock(self) -> bool
        ensures { result ≡ shift_clock self }
    {
        (self.left == 0) | (self.phase % 2 == 1)
    }

    // Its progress after a write of SCCR over an old value.
    // Rule and idle value are each half's own, so that this is not one with the receiver's.
    pub fn with_sccr(self, old: u8, sccr: u8) -> Transmitter
        ensures { result ≡ transmitter_with_sccr old sccr self }
    {
        if keeps_transmitter(old, sccr) {
            return self;
        }
        idle_transmitter()
    }
}
