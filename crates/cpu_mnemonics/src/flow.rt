// Branches, jumps, the stack, calls and returns.
ghost use Rattle.std.specs.Prelude.{◌≡◌, ◌≤◌};
ghost use Rattle.page_sums.specs.PageSums.{sums_after};
ghost use Rattle.cpu_opcodes.specs.declared.Mode.TheVariants.{Relative, ZeroPageRelative};
ghost use Rattle.cpu_access.specs.Bus.{next_address};
ghost use Rattle.cpu_kinds.specs.Kinds.{branch_taken, byte_to_push};
ghost use Rattle.cpu_attempts.specs.Attempts.{place_of, branch_tried, bit_branch_tried, jump_tried, push_tried};
ghost use Rattle.cpu_attempts.specs.Attempts.{push_memory, pull_tried, jsr_tried, jsr_memory, return_tried};
ghost use Rattle.cpu_attempts.specs.Attempts.{interrupt_return_tried};

use bits::{one_where, word16};
use cpu::work::Work;
use cpu_access::halt::ends_span;
use cpu_access::stack::{down, one_write, push_address};
use cpu_access::{Bus, memory_byte, next_address};
use cpu_alu::Status;
use cpu_attempts::{Start, asks_for};
use cpu_kinds::kinds::{bit_branch_taken, branch_taken, byte_to_push, with_pulled};
use cpu_kinds::updates::{with_pc, with_sp, with_status};
use cpu_modes::{Place, relative};
use cpu_opcodes::Mode;
use cpu_opcodes::operation::{BitBranchOperation, BranchOperation, PullOperation, PushOperation};
use memory_writes::{commit, put_write};

// One clock more where a branch is taken, two where its target lies in another page.
#[tactic(auto, unfolding(cpu_attempts::specs::Attempts::branch_tried))]
fn branch_to(start: Start, taken: bool, p: Place, length: u8) -> Option<Work>
    requires { length ≤ 7 }
    ensures { result ≡ branch_tried taken start.work p length }
{
    if p.bus.missing {
        return None;
    }
    let registers = start.work.registers;
    if taken {
        let clocks = length + 1 + one_where(p.crossed);
        return start.next(with_pc(registers, p.address), clocks);
    }
    start.next(with_pc(registers, p.pc), length)
}

#[inline(always)]
pub fn branch(start: Start, memory: &[u8], operation: BranchOperation, length: u8) -> Option<Work>
    requires { length ≤ 7 }
    ensures { result ≡ branch_tried (branch_taken operation start.work.registers.status) start.work
        (place_of start.work memory.now Relative) length }
{
    let taken = branch_taken(operation, start.work.registers.status);
    branch_to(start, taken, start.place(memory, Mode::Relative), length)
}

#[tactic(auto, unfolding(cpu_attempts::specs::Attempts::bit_branch_tried))]
#[inline(always)]
pub fn bit_branch(
    start: Start,
    memory: &[u8],
    operation: BitBranchOperation,
    length: u8,
) -> Option<Work>
    requires { length ≤ 7 }
    ensures { result ≡ bit_branch_tried operation start.work memory.now
        (place_of start.work memory.now ZeroPageRelative) length }
{
    let p = start.place(memory, Mode::ZeroPageRelative);
    if asks_for(p) {
        return None;
    }
    let none = [0u8; 0];
    let bus = p.bus;
    let taken = bit_branch_taken(operation, memory_byte(memory, p.address));
    branch_to(
        start,
        taken,
        relative(bus.fetch(&none, memory, p.pc)),
        length,
    )
}

#[tactic(auto, unfolding(cpu_attempts::specs::Attempts::jump_tried))]
#[inline(always)]
pub fn jump(start: Start, memory: &[u8], mode: Mode, length: u8) -> Option<Work>
    ensures { result ≡ jump_tried start.work (place_of start.work memory.now mode) length }
{
    let p = start.place(memory, mode);
    if p.bus.missing {
        return None;
    }
    start.next(with_pc(start.work.registers, p.address), length)
}

#[tactic(auto, using(page_sums::proofs::Sums::sums_kept, cpu_attempts::proofs::Commits::committed_one), unfolding(cpu_attempts::specs::Attempts::push_tried, cpu_attempts::specs::Attempts::push_memory))]
#[inline(always)]
pub fn push(
    start: Start,
    memory: &mut [u8],
    sums: &mut [u16],
    operation: PushOperation,
    length: u8,
) -> Option<Work>
    ensures value { result ≡ push_tried start.halt start.work (byte_to_push operation start.work.registers)
        (next_address start.work.registers.pc) length }
    ensures memory_after { memory.new
        ≡ push_memory start.halt start.work (byte_to_push operation start.work.registers) memory.old }
    ensures sums_after { sums.new ≡ sums_after sums.old memory.old memory.new }
{
    let registers = start.work.registers;
    let x = cpu_access::stack::push(registers.sp, byte_to_push(operation, registers));
    if ends_span(one_write(x.address, x.value), start.halt) {
        return None;
    }
    put_write(memory, sums, x);
    start.next(with_sp(start.behind_opcode(), down(registers.sp)), length)
}

#[tactic(auto, unfolding(cpu_attempts::specs::Attempts::pull_tried))]
#[inline(always)]
pub fn pull(start: Start, memory: &[u8], operation: PullOperation, length: u8) -> Option<Work>
    ensures { result ≡ pull_tried operation start.work memory.now (next_address start.work.registers.pc) length }
{
    let none = [0u8; 0];
    let pulled = Bus::unasked().pull(&none, memory, start.work.registers.sp);
    if pulled.bus.missing {
        return None;
    }
    let stacked = with_sp(start.behind_opcode(), pulled.sp);
    start.next(with_pulled(operation, stacked, pulled.value), length)
}

// JSR.
#[tactic(auto, using(page_sums::proofs::Sums::sums_kept), unfolding(cpu_attempts::specs::Attempts::jsr_tried, cpu_attempts::specs::Attempts::jsr_memory))]
pub fn jsr(start: Start, memory: &mut [u8], sums: &mut [u16], length: u8) -> Option<Work>
    ensures value { result
        ≡ jsr_tried start.halt start.work memory.old (next_address start.work.registers.pc) length }
    ensures memory_after { memory.new
        ≡ jsr_memory start.halt start.work memory.old (next_address start.work.registers.pc) }
    ensures sums_after { sums.new ≡ sums_after sums.old memory.old memory.new }
{
    let none = [0u8; 0];
    let registers = start.work.registers;
    let sp = registers.sp;
    let lower = Bus::unasked().fetch(&none, memory, next_address(registers.pc));
    let between = lower.bus;
    let writes = push_address(sp, lower.pc);
    let upper = between.read_after(&none, memory, writes, lower.pc);
    let ends = ends_span(writes, start.halt);
    if upper.bus.missing | ends {
        return None;
    }
    commit(memory, sums, writes);
    let target = word16(upper.value, lower.value);
    start.next(with_pc(with_sp(registers, down(down(sp))), target), length)
}

// RTS.
#[tactic(auto, unfolding(cpu_attempts::specs::Attempts::return_tried))]
pub fn return_from_subroutine(start: Start, memory: &[u8], length: u8) -> Option<Work>
    ensures { result ≡ return_tried start.work memory.now length }
{
    let none = [0u8; 0];
    let registers = start.work.registers;
    let pulled = Bus::unasked().pull_address(&none, memory, registers.sp);
    if pulled.bus.missing {
        return None;
    }
    let stacked = with_sp(registers, pulled.sp);
    start.next(with_pc(stacked, next_address(pulled.value)), length)
}

// RTI.
#[tactic(auto, unfolding(cpu_attempts::specs::Attempts::interrupt_return_tried))]
pub fn return_from_interrupt(start: Start, memory: &[u8], length: u8) -> Option<Work>
    ensures { result ≡ interrupt_return_tried start.work memory.now length }
{
    let none = [0u8; 0];
    let registers = start.work.registers;
    let p = Bus::unasked().pull(&none, memory, registers.sp);
    let between = p.bus;
    let pulled = between.pull_address(&none, memory, p.sp);
    if pulled.bus.missing {
        return None;
    }
    let status = Status::from(p.value);
    let back = with_status(with_sp(registers, pulled.sp), status);
    start.next(with_pc(back, pulled.value), length)
}
