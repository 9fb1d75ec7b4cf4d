// The operand of an instruction.
ghost use Rattle.std.specs.Prelude.{◌≤◌};

use cpu_access::Bus;

// Its byte is read where the operation reads one; of a branch the address is the target.
// `length` is the instruction's, with no clock for a crossing or a branch.
#[derive(Clone, Copy)]
pub struct Operand {
    pub address: u16,
    pub value: u8,
    pub crossed: bool,
    pub accumulator: bool,
    pub length: u8,
    pub bus: Bus,
    ghost short: { length ≤ 7 },
}
