// AND, ORA, EOR and BIT.
ghost use Rattle.std.specs.Prelude.{◌≡◌};
ghost use Rattle.cpu_alu.specs.Logic.{and_of, ora_of, eor_of, bit_of};

use crate::{Computed, Status, resulting};
use bits::bit8;

pub fn and(a: u8, m: u8, status: Status) -> Computed
    ensures { result ≡ and_of a m status }
{
    resulting(a & m, status)
}

pub fn ora(a: u8, m: u8, status: Status) -> Computed
    ensures { result ≡ ora_of a m status }
{
    resulting(a | m, status)
}

pub fn eor(a: u8, m: u8, status: Status) -> Computed
    ensures { result ≡ eor_of a m status }
{
    resulting(a ^ m, status)
}

// BIT: N and V are bits of memory itself.
pub fn bit_test(a: u8, m: u8, status: Status) -> Status
    ensures { result ≡ bit_of a m status }
{
    Status {
        n: bit8(m, 7),
        v: bit8(m, 6),
        z: a & m == 0,
        ..status
    }
}
