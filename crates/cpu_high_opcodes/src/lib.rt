// The opcodes 80h to FFh by the rows of the code matrix (source document 001, A.3): an opcode's high digit chooses its
// row, A that of `opcodes_a0`. Each defined opcode but BRK is tried; any other is left as it was.
// Rows with the same columns are not folded, and each stays a match, as in the matrix. What stands in memory at PC is
// about two parameters; as a fact of a type of both it would be no plainer.
// Memory and page sums are lent as two slices: one behind a field of a lent struct is known no more once it has been
// lent to be read, and an instruction reads before it writes.
#![tactic(auto)]

ghost use Rattle.std.specs.Prelude.{◌≡◌};
ghost use Rattle.page_sums.specs.PageSums.{sums_after};
ghost use Rattle.cpu_access.specs.Bus.{memory_byte};
ghost use Rattle.cpu_attempts.specs.Attempts.{Tries};

use cpu::work::Work;
use cpu_attempts::Start;
use cpu_mnemonics::flow::{bit_branch, branch};
use cpu_mnemonics::reads::read;
use cpu_mnemonics::registers::{flag, no_operation, register};
use cpu_opcodes::Mode::{
    Absolute, AbsoluteX, AbsoluteY, Immediate, IndexedIndirect, IndirectIndexed, ZeroPage,
    ZeroPageX, ZeroPageY,
};
use cpu_opcodes::operation::BitBranchOperation::Bbs;
use cpu_opcodes::operation::BranchOperation::{Bcc, Bcs, Beq, Bne};
use cpu_opcodes::operation::FlagOperation::{Cld, Clv, Sed};
use cpu_opcodes::operation::ModifyOperation::{Dec, Inc, Smb};
use cpu_opcodes::operation::ReadOperation::{Cmp, Cpx, Cpy, Lda, Ldx, Ldy, Sbc};
use cpu_opcodes::operation::RegisterOperation::{Dex, Dey, Inx, Iny, Tax, Tay, Tsx, Txa, Txs, Tya};
use cpu_opcodes::operation::StoreOperation::{Sta, Stx, Sty};
use cpu_stores::{change, save};

#[tactic(auto, using(cpu_attempts::proofs::Tried::laws), unfolding(cpu_opcodes::specs::Decode::decode_of))]
pub fn opcodes_80(start: Start, memory: &mut [u8], sums: &mut [u16], opcode: u8) -> Option<Work>
    requires { memory_byte memory.old start.work.registers.pc ≡ opcode }
    ensures tries { Tries start.halt start.span.0 start.work memory.old result memory.new }
    ensures sums_after { sums.new ≡ sums_after sums.old memory.old memory.new }
{
    match opcode {
        0x81 => save(start, memory, sums, Sta, IndexedIndirect, 6),
        0x84 => save(start, memory, sums, Sty, ZeroPage, 3),
        0x85 => save(start, memory, sums, Sta, ZeroPage, 3),
        0x86 => save(start, memory, sums, Stx, ZeroPage, 3),
        0x87 => change(start, memory, sums, Smb(0), ZeroPage, 5),
        0x88 => register(start, Dey, 2),
        0x8A => register(start, Txa, 2),
        0x8C => save(start, memory, sums, Sty, Absolute, 4),
        0x8D => save(start, memory, sums, Sta, Absolute, 4),
        0x8E => save(start, memory, sums, Stx, Absolute, 4),
        0x8F => bit_branch(start, memory, Bbs(0), 5),
        _ => None,
    }
}

#[tactic(auto, using(cpu_attempts::proofs::Tried::laws), unfolding(cpu_opcodes::specs::Decode::decode_of))]
pub fn opcodes_90(start: Start, memory: &mut [u8], sums: &mut [u16], opcode: u8) -> Option<Work>
    requires { memory_byte memory.old start.work.registers.pc ≡ opcode }
    ensures tries { Tries start.halt start.span.0 start.work memory.old result memory.new }
    ensures sums_after { sums.new ≡ sums_after sums.old memory.old memory.new }
{
    match opcode {
        0x90 => branch(start, memory, Bcc, 2),
        0x91 => save(start, memory, sums, Sta, IndirectIndexed, 6),
        0x94 => save(start, memory, sums, Sty, ZeroPageX, 4),
        0x95 => save(start, memory, sums, Sta, ZeroPageX, 4),
        0x96 => save(start, memory, sums, Stx, ZeroPageY, 4),
        0x97 => change(start, memory, sums, Smb(1), ZeroPage, 5),
        0x98 => register(start, Tya, 2),
        0x99 => save(start, memory, sums, Sta, AbsoluteY, 5),
        0x9A => register(start, Txs, 2),
        0x9D => save(start, memory, sums, Sta, AbsoluteX, 5),
        0x9F => bit_branch(start, memory, Bbs(1), 5),
        _ => None,
    }
}

#[tactic(auto, using(cpu_attempts::proofs::Tried::laws), unfolding(cpu_opcodes::specs::Decode::decode_of))]
pub fn opcodes_a0(start: Start, memory: &mut [u8], sums: &mut [u16], opcode: u8) -> Option<Work>
    requires { memory_byte memory.old start.work.registers.pc ≡ opcode }
    ensures tries { Tries start.halt start.span.0 start.work memory.old result memory.new }
    ensures sums_after { sums.new ≡ sums_after sums.old memory.old memory.new }
{
    match opcode {
        0xA0 => read(start, memory, Ldy, Immediate, 2),
        0xA1 => read(start, memory, Lda, IndexedIndirect, 6),
        0xA2 => read(start, memory, Ldx, Immediate, 2),
        0xA4 => read(start, memory, Ldy, ZeroPage, 3),
        0xA5 => read(start, memory, Lda, ZeroPage, 3),
        0xA6 => read(start, memory, Ldx, ZeroPage, 3),
        0xA7 => change(start, memory, sums, Smb(2), ZeroPage, 5),
        0xA8 => register(start, Tay, 2),
        0xA9 => read(start, memory, Lda, Immediate, 2),
        0xAA => register(start, Tax, 2),
        0xAC => read(start, memory, Ldy, Absolute, 4),
        0xAD => read(start, memory, Lda, Absolute, 4),
        0xAE => read(start, memory, Ldx, Absolute, 4),
        0xAF => bit_branch(start, memory, Bbs(2), 5),
        _ => None,
    }
}

#[tactic(auto, using(cpu_attempts::proofs::Tried::laws), unfolding(cpu_opcodes::specs::Decode::decode_of))]
pub fn opcodes_b0(start: Start, memory: &mut [u8], sums: &mut [u16], opcode: u8) -> Option<Work>
    requires { memory_byte memory.old start.work.registers.pc ≡ opcode }
    ensures tries { Tries start.halt start.span.0 start.work memory.old result memory.new }
    ensures sums_after { sums.new ≡ sums_after sums.old memory.old memory.new }
{
    match opcode {
        0xB0 => branch(start, memory, Bcs, 2),
        0xB1 => read(start, memory, Lda, IndirectIndexed, 5),
        0xB4 => read(start, memory, Ldy, ZeroPageX, 4),
        0xB5 => read(start, memory, Lda, ZeroPageX, 4),
        0xB6 => read(start, memory, Ldx, ZeroPageY, 4),
        0xB7 => change(start, memory, sums, Smb(3), ZeroPage, 5),
        0xB8 => flag(start, Clv, 2),
        0xB9 => read(start, memory, Lda, AbsoluteY, 4),
        0xBA => register(start, Tsx, 2),
        0xBC => read(start, memory, Ldy, AbsoluteX, 4),
        0xBD => read(start, memory, Lda, AbsoluteX, 4),
        0xBE => read(start, memory, Ldx, AbsoluteY, 4),
        0xBF => bit_branch(start, memory, Bbs(3), 5),
        _ => None,
    }
}

#[tactic(auto, using(cpu_attempts::proofs::Tried::laws), unfolding(cpu_opcodes::specs::Decode::decode_of))]
pub fn opcodes_c0(start: Start, memory: &mut [u8], sums: &mut [u16], opcode: u8) -> Option<Work>
    requires { memory_byte memory.old start.work.registers.pc ≡ opcode }
    ensures tries { Tries start.halt start.span.0 start.work memory.old result memory.new }
    ensures sums_after { sums.new ≡ sums_after sums.old memory.old memory.new }
{
    match opcode {
        0xC0 => read(start, memory, Cpy, Immediate, 2),
        0xC1 => read(start, memory, Cmp, IndexedIndirect, 6),
        0xC4 => read(start, memory, Cpy, ZeroPage, 3),
        0xC5 => read(start, memory, Cmp, ZeroPage, 3),
        0xC6 => change(start, memory, sums, Dec, ZeroPage, 5),
        0xC7 => change(start, memory, sums, Smb(4), ZeroPage, 5),
        0xC8 => register(start, Iny, 2),
        0xC9 => read(start, memory, Cmp, Immediate, 2),
        0xCA => register(start, Dex, 2),
        0xCC => read(start, memory, Cpy, Absolute, 4),
        0xCD => read(start, memory, Cmp, Absolute, 4),
        0xCE => change(start, memory, sums, Dec, Absolute, 6),
        0xCF => bit_branch(start, memory, Bbs(4), 5),
        _ => None,
    }
}

#[tactic(auto, using(cpu_attempts::proofs::Tried::laws), unfolding(cpu_opcodes::specs::Decode::decode_of))]
pub fn opcodes_d0(start: Start, memory: &mut [u8], sums: &mut [u16], opcode: u8) -> Option<Work>
    requires { memory_byte memory.old start.work.registers.pc ≡ opcode }
    ensures tries { Tries start.halt start.span.0 start.work memory.old result memory.new }
    ensures sums_after { sums.new ≡ sums_after sums.old memory.old memory.new }
{
    match opcode {
        0xD0 => branch(start, memory, Bne, 2),
        0xD1 => read(start, memory, Cmp, IndirectIndexed, 5),
        0xD5 => read(start, memory, Cmp, ZeroPageX, 4),
        0xD6 => change(start, memory, sums, Dec, ZeroPageX, 6),
        0xD7 => change(start, memory, sums, Smb(5), ZeroPage, 5),
        0xD8 => flag(start, Cld, 2),
        0xD9 => read(start, memory, Cmp, AbsoluteY, 4),
        0xDD => read(start, memory, Cmp, AbsoluteX, 4),
        0xDE => change(start, memory, sums, Dec, AbsoluteX, 7),
        0xDF => bit_branch(start, memory, Bbs(5), 5),
        _ => None,
    }
}

#[tactic(auto, using(cpu_attempts::proofs::Tried::laws), unfolding(cpu_opcodes::specs::Decode::decode_of))]
pub fn opcodes_e0(start: Start, memory: &mut [u8], sums: &mut [u16], opcode: u8) -> Option<Work>
    requires { memory_byte memory.old start.work.registers.pc ≡ opcode }
    ensures tries { Tries start.halt start.span.0 start.work memory.old result memory.new }
    ensures sums_after { sums.new ≡ sums_after sums.old memory.old memory.new }
{
    match opcode {
        0xE0 => read(start, memory, Cpx, Immediate, 2),
        0xE1 => read(start, memory, Sbc, IndexedIndirect, 6),
        0xE4 => read(start, memory, Cpx, ZeroPage, 3),
        0xE5 => read(start, memory, Sbc, ZeroPage, 3),
        0xE6 => change(start, memory, sums, Inc, ZeroPage, 5),
        0xE7 => change(start, memory, sums, Smb(6), ZeroPage, 5),
        0xE8 => register(start, Inx, 2),
        0xE9 => read(start, memory, Sbc, Immediate, 2),
        0xEA => no_operation(start, 2),
        0xEC => read(start, memory, Cpx, Absolute, 4),
        0xED => read(start, memory, Sbc, Absolute, 4),
        0xEE => change(start, memory, sums, Inc, Absolute, 6),
        0xEF => bit_branch(start, memory, Bbs(6), 5),
        _ => None,
    }
}

#[tactic(auto, using(cpu_attempts::proofs::Tried::laws), unfolding(cpu_opcodes::specs::Decode::decode_of))]
pub fn opcodes_f0(start: Start, memory: &mut [u8], sums: &mut [u16], opcode: u8) -> Option<Work>
    requires { memory_byte memory.old start.work.registers.pc ≡ opcode }
    ensures tries { Tries start.halt start.span.0 start.work memory.old result memory.new }
    ensures sums_after { sums.new ≡ sums_after sums.old memory.old memory.new }
{
    match opcode {
        0xF0 => branch(start, memory, Beq, 2),
        0xF1 => read(start, memory, Sbc, IndirectIndexed, 5),
        0xF5 => read(start, memory, Sbc, ZeroPageX, 4),
        0xF6 => change(start, memory, sums, Inc, ZeroPageX, 6),
        0xF7 => change(start, memory, sums, Smb(7), ZeroPage, 5),
        0xF8 => flag(start, Sed, 2),
        0xF9 => read(start, memory, Sbc, AbsoluteY, 4),
        0xFD => read(start, memory, Sbc, AbsoluteX, 4),
        0xFE => change(start, memory, sums, Inc, AbsoluteX, 7),
        0xFF => bit_branch(start, memory, Bbs(7), 5),
        _ => None,
    }
}
