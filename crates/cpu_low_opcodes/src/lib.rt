// The opcodes 00h to 7Fh by the rows of the code matrix (source document 001, A.3): an opcode's high digit chooses its
// row, 2 that of `opcodes_20`. Each defined opcode but BRK is tried; any other is left as it was.
// Rows with the same columns are not folded, and each stays a match, as in the matrix. What stands in memory at PC is
// about two parameters; as a fact of a type of both it would be no plainer.
// Memory and page sums are lent as two slices: one behind a field of a lent struct is known no more once it has been
// lent to be read, and an instruction reads before it writes.
#![tactic(auto)]

ghost use Rattle.std.specs.Prelude.{◌≡◌};
ghost use Rattle.page_sums.specs.PageSums.{sums_after};
ghost use Rattle.cpu_access.specs.Bus.{memory_byte};
ghost use Rattle.cpu_attempts.specs.Attempts.{Tries};

use cpu::work::Work;
use cpu_attempts::Start;
use cpu_mnemonics::flow::{
    bit_branch, branch, jsr, jump, pull, push, return_from_interrupt, return_from_subroutine,
};
use cpu_mnemonics::reads::read;
use cpu_mnemonics::registers::flag;
use cpu_opcodes::Mode::{
    Absolute, AbsoluteX, AbsoluteY, Immediate, IndexedIndirect, Indirect, IndirectIndexed,
    ZeroPage, ZeroPageX,
};
use cpu_opcodes::operation::BitBranchOperation::Bbr;
use cpu_opcodes::operation::BranchOperation::{Bmi, Bpl, Bvc, Bvs};
use cpu_opcodes::operation::FlagOperation::{Clc, Cli, Sec, Sei};
use cpu_opcodes::operation::ModifyOperation::{Asl, Lsr, Rmb, Rol, Ror};
use cpu_opcodes::operation::PullOperation::{Pla, Plp};
use cpu_opcodes::operation::PushOperation::{Pha, Php};
use cpu_opcodes::operation::ReadOperation::{Adc, And, Bit, Eor, Ora};
use cpu_stores::{change, change_accumulator};

#[tactic(auto, using(cpu_attempts::proofs::Tried::laws), unfolding(cpu_opcodes::specs::Decode::decode_of))]
pub fn opcodes_00(start: Start, memory: &mut [u8], sums: &mut [u16], opcode: u8) -> Option<Work>
    requires { memory_byte memory.old start.work.registers.pc ≡ opcode }
    ensures tries { Tries start.halt start.span.0 start.work memory.old result memory.new }
    ensures sums_after { sums.new ≡ sums_after sums.old memory.old memory.new }
{
    match opcode {
        0x01 => read(start, memory, Ora, IndexedIndirect, 6),
        0x05 => read(start, memory, Ora, ZeroPage, 3),
        0x06 => change(start, memory, sums, Asl, ZeroPage, 5),
        0x07 => change(start, memory, sums, Rmb(0), ZeroPage, 5),
        0x08 => push(start, memory, sums, Php, 3),
        0x09 => read(start, memory, Ora, Immediate, 2),
        0x0A => change_accumulator(start, Asl, 2),
        0x0D => read(start, memory, Ora, Absolute, 4),
        0x0E => change(start, memory, sums, Asl, Absolute, 6),
        0x0F => bit_branch(start, memory, Bbr(0), 5),
        _ => None,
    }
}

#[tactic(auto, using(cpu_attempts::proofs::Tried::laws), unfolding(cpu_opcodes::specs::Decode::decode_of))]
pub fn opcodes_10(start: Start, memory: &mut [u8], sums: &mut [u16], opcode: u8) -> Option<Work>
    requires { memory_byte memory.old start.work.registers.pc ≡ opcode }
    ensures tries { Tries start.halt start.span.0 start.work memory.old result memory.new }
    ensures sums_after { sums.new ≡ sums_after sums.old memory.old memory.new }
{
    match opcode {
        0x10 => branch(start, memory, Bpl, 2),
        0x11 => read(start, memory, Ora, IndirectIndexed, 5),
        0x15 => read(start, memory, Ora, ZeroPageX, 4),
        0x16 => change(start, memory, sums, Asl, ZeroPageX, 6),
        0x17 => change(start, memory, sums, Rmb(1), ZeroPage, 5),
        0x18 => flag(start, Clc, 2),
        0x19 => read(start, memory, Ora, AbsoluteY, 4),
        0x1D => read(start, memory, Ora, AbsoluteX, 4),
        0x1E => change(start, memory, sums, Asl, AbsoluteX, 7),
        0x1F => bit_branch(start, memory, Bbr(1), 5),
        _ => None,
    }
}

#[tactic(auto, using(cpu_attempts::proofs::Tried::laws), unfolding(cpu_opcodes::specs::Decode::decode_of))]
pub fn opcodes_20(start: Start, memory: &mut [u8], sums: &mut [u16], opcode: u8) -> Option<Work>
    requires { memory_byte memory.old start.work.registers.pc ≡ opcode }
    ensures tries { Tries start.halt start.span.0 start.work memory.old result memory.new }
    ensures sums_after { sums.new ≡ sums_after sums.old memory.old memory.new }
{
    match opcode {
        0x20 => jsr(start, memory, sums, 6),
        0x21 => read(start, memory, And, IndexedIndirect, 6),
        0x24 => read(start, memory, Bit, ZeroPage, 3),
        0x25 => read(start, memory, And, ZeroPage, 3),
        0x26 => change(start, memory, sums, Rol, ZeroPage, 5),
        0x27 => change(start, memory, sums, Rmb(2), ZeroPage, 5),
        0x28 => pull(start, memory, Plp, 4),
        0x29 => read(start, memory, And, Immediate, 2),
        0x2A => change_accumulator(start, Rol, 2),
        0x2C => read(start, memory, Bit, Absolute, 4),
        0x2D => read(start, memory, And, Absolute, 4),
        0x2E => change(start, memory, sums, Rol, Absolute, 6),
        0x2F => bit_branch(start, memory, Bbr(2), 5),
        _ => None,
    }
}

#[tactic(auto, using(cpu_attempts::proofs::Tried::laws), unfolding(cpu_opcodes::specs::Decode::decode_of))]
pub fn opcodes_30(start: Start, memory: &mut [u8], sums: &mut [u16], opcode: u8) -> Option<Work>
    requires { memory_byte memory.old start.work.registers.pc ≡ opcode }
    ensures tries { Tries start.halt start.span.0 start.work memory.old result memory.new }
    ensures sums_after { sums.new ≡ sums_after sums.old memory.old memory.new }
{
    match opcode {
        0x30 => branch(start, memory, Bmi, 2),
        0x31 => read(start, memory, And, IndirectIndexed, 5),
        0x35 => read(start, memory, And, ZeroPageX, 4),
        0x36 => change(start, memory, sums, Rol, ZeroPageX, 6),
        0x37 => change(start, memory, sums, Rmb(3), ZeroPage, 5),
        0x38 => flag(start, Sec, 2),
        0x39 => read(start, memory, And, AbsoluteY, 4),
        0x3D => read(start, memory, And, AbsoluteX, 4),
        0x3E => change(start, memory, sums, Rol, AbsoluteX, 7),
        0x3F => bit_branch(start, memory, Bbr(3), 5),
        _ => None,
    }
}

#[tactic(auto, using(cpu_attempts::proofs::Tried::laws), unfolding(cpu_opcodes::specs::Decode::decode_of))]
pub fn opcodes_40(start: Start, memory: &mut [u8], sums: &mut [u16], opcode: u8) -> Option<Work>
    requires { memory_byte memory.old start.work.registers.pc ≡ opcode }
    ensures tries { Tries start.halt start.span.0 start.work memory.old result memory.new }
    ensures sums_after { sums.new ≡ sums_after sums.old memory.old memory.new }
{
    match opcode {
        0x40 => return_from_interrupt(start, memory, 6),
        0x41 => read(start, memory, Eor, IndexedIndirect, 6),
        0x45 => read(start, memory, Eor, ZeroPage, 3),
        0x46 => change(start, memory, sums, Lsr, ZeroPage, 5),
        0x47 => change(start, memory, sums, Rmb(4), ZeroPage, 5),
        0x48 => push(start, memory, sums, Pha, 3),
        0x49 => read(start, memory, Eor, Immediate, 2),
        0x4A => change_accumulator(start, Lsr, 2),
        0x4C => jump(start, memory, Absolute, 3),
        0x4D => read(start, memory, Eor, Absolute, 4),
        0x4E => change(start, memory, sums, Lsr, Absolute, 6),
        0x4F => bit_branch(start, memory, Bbr(4), 5),
        _ => None,
    }
}

#[tactic(auto, using(cpu_attempts::proofs::Tried::laws), unfolding(cpu_opcodes::specs::Decode::decode_of))]
pub fn opcodes_50(start: Start, memory: &mut [u8], sums: &mut [u16], opcode: u8) -> Option<Work>
    requires { memory_byte memory.old start.work.registers.pc ≡ opcode }
    ensures tries { Tries start.halt start.span.0 start.work memory.old result memory.new }
    ensures sums_after { sums.new ≡ sums_after sums.old memory.old memory.new }
{
    match opcode {
        0x50 => branch(start, memory, Bvc, 2),
        0x51 => read(start, memory, Eor, IndirectIndexed, 5),
        0x55 => read(start, memory, Eor, ZeroPageX, 4),
        0x56 => change(start, memory, sums, Lsr, ZeroPageX, 6),
        0x57 => change(start, memory, sums, Rmb(5), ZeroPage, 5),
        0x58 => flag(start, Cli, 2),
        0x59 => read(start, memory, Eor, AbsoluteY, 4),
        0x5D => read(start, memory, Eor, AbsoluteX, 4),
        0x5E => change(start, memory, sums, Lsr, AbsoluteX, 7),
        0x5F => bit_branch(start, memory, Bbr(5), 5),
        _ => None,
    }
}

#[tactic(auto, using(cpu_attempts::proofs::Tried::laws), unfolding(cpu_opcodes::specs::Decode::decode_of))]
pub fn opcodes_60(start: Start, memory: &mut [u8], sums: &mut [u16], opcode: u8) -> Option<Work>
    requires { memory_byte memory.old start.work.registers.pc ≡ opcode }
    ensures tries { Tries start.halt start.span.0 start.work memory.old result memory.new }
    ensures sums_after { sums.new ≡ sums_after sums.old memory.old memory.new }
{
    match opcode {
        0x60 => return_from_subroutine(start, memory, 6),
        0x61 => read(start, memory, Adc, IndexedIndirect, 6),
        0x65 => read(start, memory, Adc, ZeroPage, 3),
        0x66 => change(start, memory, sums, Ror, ZeroPage, 5),
        0x67 => change(start, memory, sums, Rmb(6), ZeroPage, 5),
        0x68 => pull(start, memory, Pla, 4),
        0x69 => read(start, memory, Adc, Immediate, 2),
        0x6A => change_accumulator(start, Ror, 2),
        0x6C => jump(start, memory, Indirect, 5),
        0x6D => read(start, memory, Adc, Absolute, 4),
        0x6E => change(start, memory, sums, Ror, Absolute, 6),
        0x6F => bit_branch(start, memory, Bbr(6), 5),
        _ => None,
    }
}

#[tactic(auto, using(cpu_attempts::proofs::Tried::laws), unfolding(cpu_opcodes::specs::Decode::decode_of))]
pub fn opcodes_70(start: Start, memory: &mut [u8], sums: &mut [u16], opcode: u8) -> Option<Work>
    requires { memory_byte memory.old start.work.registers.pc ≡ opcode }
    ensures tries { Tries start.halt start.span.0 start.work memory.old result memory.new }
    ensures sums_after { sums.new ≡ sums_after sums.old memory.old memory.new }
{
    match opcode {
        0x70 => branch(start, memory, Bvs, 2),
        0x71 => read(start, memory, Adc, IndirectIndexed, 5),
        0x75 => read(start, memory, Adc, ZeroPageX, 4),
        0x76 => change(start, memory, sums, Ror, ZeroPageX, 6),
        0x77 => change(start, memory, sums, Rmb(7), ZeroPage, 5),
        0x78 => flag(start, Sei, 2),
        0x79 => read(start, memory, Adc, AbsoluteY, 4),
        0x7D => read(start, memory, Adc, AbsoluteX, 4),
        0x7E => change(start, memory, sums, Ror, AbsoluteX, 7),
        0x7F => bit_branch(start, memory, Bbr(7), 5),
        _ => None,
    }
}
