// The opcodes of the enhanced R6502: which operation, addressing mode and length each of the 256 has, if any.
#![tactic(auto)]

ghost use Rattle.std.specs.Prelude.{◌≡◌};
ghost use Rattle.cpu_opcodes.specs.Decode.{decode_of};

use operation::Operation;

pub mod operation; // operation.rt: the operations, by kind
mod table; // table.rt: the table of opcodes

// Where an instruction finds its operand.
#[derive(Clone, Copy)]
pub enum Mode {
    Implied,
    Accumulator,
    Immediate,
    ZeroPage,
    ZeroPageX,
    ZeroPageY,
    Absolute,
    AbsoluteX,
    AbsoluteY,
    IndexedIndirect,
    IndirectIndexed,
    Indirect,
    Relative,
    ZeroPageRelative,
}

// What the table says of a defined opcode. The length is in clocks, without those that a page crossing or a taken
// branch adds.
#[derive(Clone, Copy)]
pub struct Entry {
    pub operation: Operation,
    pub mode: Mode,
    pub length: u8,
}

// What an opcode means; None where it is undefined.
pub fn decode(opcode: u8) -> Option<Entry>
    ensures { result ≡ decode_of opcode }
{
    table::TABLE[opcode as usize]
}
