// ADC and SBC, binary and decimal, and the compares.
ghost use Rattle.std.specs.Prelude.{◌≡◌, ◌<◌};
ghost use Rattle.std.proofs.Math.IntN.{sub_ℕ};
ghost use Rattle.cpu_alu.specs.Arithmetic.{overflow, add_binary, low_sum, corrected, add_decimal, adc_of};
ghost use Rattle.cpu_alu.specs.Arithmetic.{low_difference, borrowed, decimal_difference, sbc_of, compare_of};

use crate::{Computed, Status};
use bits::{bit8, one_where};

// V: operands of one sign and a result of the other.
fn overflow(a: u8, m: u8, res: u8) -> bool
    ensures { result ≡ overflow a m res }
{
    let x = bit8(a, 7);
    let y = bit8(m, 7);
    let z = bit8(res, 7);
    (x == y) & (x != z)
}

fn add_binary(a: u8, m: u8, status: Status) -> Computed
    ensures { result ≡ add_binary a m status }
{
    let sum = a as u16 + m as u16 + one_where(status.c) as u16;
    let value = (sum % 256) as u8;
    let v = overflow(a, m, value);
    Computed {
        value,
        status: Status {
            n: bit8(value, 7),
            v,
            z: value == 0,
            c: 256 <= sum,
            ..status
        },
    }
}

// The sum of the low digits and C, with 16 for a carry.
fn low_sum(a: u8, m: u8, c: bool) -> u8
    ensures { result ≡ low_sum a m c }
{
    let sum = a % 16 + m % 16 + one_where(c);
    if 10 <= sum { (sum + 6) % 16 + 16 } else { sum }
}

// A sum of digits with the high one brought below 10.
fn corrected(sum: u16) -> u16
    requires { sum < 1024 }
    ensures { result ≡ corrected sum }
{
    if 0xA0 <= sum { sum + 0x60 } else { sum }
}

fn add_decimal(a: u8, m: u8, status: Status) -> Computed
    ensures { result ≡ add_decimal a m status }
{
    let sum = low_sum(a, m, status.c) as u16 + (a / 16 * 16) as u16 + (m / 16 * 16) as u16;
    let seen = (sum % 256) as u8;
    let v = overflow(a, m, seen);
    let z = (a as u16 + m as u16 + one_where(status.c) as u16) % 256 == 0;
    let total = corrected(sum);
    Computed {
        value: (total % 256) as u8,
        status: Status {
            n: bit8(seen, 7),
            v,
            z,
            c: 0x100 <= total,
            ..status
        },
    }
}

pub fn adc(a: u8, m: u8, status: Status) -> Computed
    ensures { result ≡ adc_of a m status }
{
    if status.d {
        add_decimal(a, m, status)
    } else {
        add_binary(a, m, status)
    }
}

// The difference of the low digits less borrow, with 16 taken for a borrow; all of it plus 16, so that it is never
// negative.
fn low_difference(a: u8, m: u8, c: bool) -> u8
    ensures { (result < 32) × (sub_ℕ result 16 ≡ borrowed (low_difference a m c)) }
{
    let difference = a % 16 + 15 + one_where(c) - m % 16;
    if difference < 16 {
        (difference + 10) % 16
    } else {
        difference
    }
}

fn subtract_decimal(a: u8, m: u8, c: bool) -> u8
    ensures { result ≡ decimal_difference a m c }
{
    // the difference of the digits, plus 256
    let difference = low_difference(a, m, c) as u16 + 240 + (a / 16 * 16) as u16
        - (m / 16 * 16) as u16;
    if difference < 256 {
        ((difference + 160) % 256) as u8
    } else {
        (difference % 256) as u8
    }
}

pub fn sbc(a: u8, m: u8, status: Status) -> Computed
    ensures { result ≡ sbc_of a m status }
{
    let binary = add_binary(a, 255 - m, status);
    if status.d {
        Computed {
            value: subtract_decimal(a, m, status.c),
            ..binary
        }
    } else {
        binary
    }
}

// CMP, CPX, CPY.
pub fn compare(register: u8, m: u8, status: Status) -> Status
    ensures { result ≡ compare_of register m status }
{
    let difference = register.wrapping_sub(m);
    Status {
        n: bit8(difference, 7),
        z: difference == 0,
        c: m <= register,
        ..status
    }
}
