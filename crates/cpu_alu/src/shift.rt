// Shifts, counts by one, single bits: what read-modify-write instructions do with a byte.
ghost use Rattle.std.specs.Prelude.{◌≡◌};
ghost use Rattle.cpu_alu.specs.Shift.{asl_of, lsr_of, rol_of, ror_of, increment_of, decrement_of, reset_bit_of, set_bit_of};

use crate::{Computed, Status, resulting};
use bits::{bit8, one_where, with_bit};

pub fn asl(x: u8, status: Status) -> Computed
    ensures { result ≡ asl_of x status }
{
    resulting(x << 1, status.with_c(bit8(x, 7)))
}

pub fn lsr(x: u8, status: Status) -> Computed
    ensures { result ≡ lsr_of x status }
{
    resulting(x / 2, status.with_c(bit8(x, 0)))
}

pub fn rol(x: u8, status: Status) -> Computed
    ensures { result ≡ rol_of x status }
{
    let value = (x << 1) + one_where(status.c);
    resulting(value, status.with_c(bit8(x, 7)))
}

pub fn ror(x: u8, status: Status) -> Computed
    ensures { result ≡ ror_of x status }
{
    let value = x / 2 + one_where(status.c) * 128;
    resulting(value, status.with_c(bit8(x, 0)))
}

// INC, INX, INY.
pub fn increment(x: u8, status: Status) -> Computed
    ensures { result ≡ increment_of x status }
{
    resulting(x.wrapping_add(1), status)
}

// DEC, DEX, DEY.
pub fn decrement(x: u8, status: Status) -> Computed
    ensures { result ≡ decrement_of x status }
{
    resulting(x.wrapping_sub(1), status)
}

// RMB m: no flag changes.
pub fn reset_bit(x: u8, m: u8) -> u8
    ensures { result ≡ reset_bit_of x m }
{
    with_bit(x, m % 8, false)
}

// SMB m: no flag changes.
pub fn set_bit(x: u8, m: u8) -> u8
    ensures { result ≡ set_bit_of x m }
{
    with_bit(x, m % 8, true)
}
