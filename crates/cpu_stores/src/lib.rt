// Operations that store a byte, or change one: the byte is put on the last clock, which must lie within the span.
// Those that change A put none.
// Memory and page sums are lent as two slices: one behind a field of a lent struct is known no more once it has been
// lent to be read, and an instruction reads before it writes.
#![tactic(auto)]

ghost use Rattle.std.specs.Prelude.{◌≡◌, ◌≤◌};
ghost use Rattle.page_sums.specs.PageSums.{sums_after};
ghost use Rattle.cpu_access.specs.Bus.{next_address};
ghost use Rattle.cpu_access.specs.Stack.{write_at};
ghost use Rattle.cpu_attempts.specs.Attempts.{place_of, store_tried, store_memory, change_tried, change_memory};
ghost use Rattle.cpu_attempts.specs.Attempts.{save_tried, save_memory, accumulator_tried};

use cpu::work::Work;
use cpu_access::halt::ends_span;
use cpu_access::stack::{Write, one_write};
use cpu_access::{CpuRegisters, memory_byte};
use cpu_attempts::{Start, asks_for};
use cpu_kinds::kinds::{byte_to_store, changed};
use cpu_kinds::updates::{into_a, with_pc, with_status};
use cpu_opcodes::Mode;
use cpu_opcodes::operation::{ModifyOperation, StoreOperation};
use memory_writes::put_write;

// A byte stored, by an instruction that leaves these registers.
#[tactic(auto, using(page_sums::proofs::Sums::sums_kept, cpu_attempts::proofs::Commits::committed_one), unfolding(cpu_attempts::specs::Attempts::store_tried, cpu_attempts::specs::Attempts::store_memory))]
fn store(
    start: Start,
    memory: &mut [u8],
    sums: &mut [u16],
    registers: CpuRegisters,
    x: Write,
    length: u8,
) -> Option<Work>
    requires { 2 ≤ length }
    ensures value { result ≡ store_tried start.halt start.span.0 start.work registers x length }
    ensures memory_after { memory.new ≡ store_memory start.halt start.span.0 start.work x length memory.old }
    ensures sums_after { sums.new ≡ sums_after sums.old memory.old memory.new }
{
    let w = start.work;
    let ends = ends_span(one_write(x.address, x.value), start.halt);
    let behind = start.span.0 - w.gone.0 < w.wait as u32 + length as u32;
    if ends | behind {
        return None;
    }
    put_write(memory, sums, x);
    start.stored(registers, length)
}

// An operation that changes a byte in memory. It and the mode are constants at each call, so that inlined no match on
// them is left.
#[tactic(auto, using(page_sums::proofs::Sums::sums_kept), unfolding(cpu_attempts::specs::Attempts::change_tried, cpu_attempts::specs::Attempts::change_memory))]
#[inline(always)]
pub fn change(
    start: Start,
    memory: &mut [u8],
    sums: &mut [u16],
    operation: ModifyOperation,
    mode: Mode,
    length: u8,
) -> Option<Work>
    requires { 2 ≤ length }
    ensures value { result ≡ change_tried start.halt start.span.0 operation start.work memory.old
        (place_of start.work memory.old mode) length }
    ensures memory_after { memory.new ≡ change_memory start.halt start.span.0 operation start.work memory.old
        (place_of start.work memory.old mode) length }
    ensures sums_after { sums.new ≡ sums_after sums.old memory.old memory.new }
{
    let p = start.place(memory, mode);
    if asks_for(p) {
        return None;
    }
    let registers = start.work.registers;
    let after = changed(operation, memory_byte(memory, p.address), registers.status);
    let x = Write {
        address: p.address,
        value: after.value,
    };
    let left = with_status(with_pc(registers, p.pc), after.status);
    store(start, memory, sums, left, x, length)
}

// The same of A.
#[tactic(auto, unfolding(cpu_attempts::specs::Attempts::accumulator_tried))]
#[inline(always)]
pub fn change_accumulator(start: Start, operation: ModifyOperation, length: u8) -> Option<Work>
    ensures { result ≡ accumulator_tried operation start.work (next_address start.work.registers.pc) length }
{
    let registers = start.work.registers;
    let after = changed(operation, registers.a, registers.status);
    start.next(into_a(start.behind_opcode(), after), length)
}

// STA, STX and STY.
#[tactic(auto, using(page_sums::proofs::Sums::sums_kept), unfolding(cpu_attempts::specs::Attempts::save_tried, cpu_attempts::specs::Attempts::save_memory))]
#[inline(always)]
pub fn save(
    start: Start,
    memory: &mut [u8],
    sums: &mut [u16],
    operation: StoreOperation,
    mode: Mode,
    length: u8,
) -> Option<Work>
    requires { 2 ≤ length }
    ensures value { result ≡ save_tried start.halt start.span.0 operation start.work
        (place_of start.work memory.old mode) length }
    ensures memory_after { memory.new ≡ save_memory start.halt start.span.0 operation start.work
        (place_of start.work memory.old mode) length memory.old }
    ensures sums_after { sums.new ≡ sums_after sums.old memory.old memory.new }
{
    let p = start.place(memory, mode);
    if asks_for(p) {
        return None;
    }
    let registers = start.work.registers;
    let x = Write {
        address: p.address,
        value: byte_to_store(operation, registers),
    };
    store(start, memory, sums, with_pc(registers, p.pc), x, length)
}
