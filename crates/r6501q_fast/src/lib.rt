// Instructions of a span one after the other, by their opcodes.
// Memory and page sums are lent as two slices: one behind a field of a lent struct is known no more once it has been
// lent to be read, and an instruction reads before it writes.
#![tactic(auto)]

ghost use Rattle.std.specs.Prelude.{◌≡◌, ◌+◌, ◌≤◌, ◌<◌};
ghost use Rattle.page_sums.specs.PageSums.{sums_after};
ghost use Rattle.cpu.specs.Work.{WithinSpan};
ghost use Rattle.cpu_attempts.specs.Attempts.{Tries};
ghost use Rattle.r6501q_fast.specs.Instructions.{ByInstructions, RunsOn, shared_by};

use bits::one_where;
use counters::time::Clocks;
use cpu::work::Work;
use cpu_access::memory_byte;
use cpu_attempts::Start;
use memory::{MEMORY_LENGTH, is_register};
use r6501q_spans::{Working, none_waiting};
use r6501q_unseen::{Ticking, on_tick};

// The work after some instructions, and how many of the clocks that they acted on had a tick too.
#[derive(Clone, Copy)]
pub struct Ran {
    pub work: Work,
    pub shared: u32,
}

// The same with the byte that waits, after instructions and after any step of the CPU.
#[derive(Clone, Copy)]
pub struct RanOn {
    pub working: Working,
    pub shared: u32,
}

// PC above this may have operand bytes at the registers' addresses, past FFFFh.
const LAST_WHOLE: u16 = 0xFFFD;

// The clock that the next instruction starts on, the span's first being clock 1.
fn next_start(w: Work) -> u32
    requires { w.gone.0 + w.wait + 1 ≤ 4294967295 }
    ensures { result ≡ w.gone.0 + w.wait + 1 }
{
    w.gone.0 + w.wait as u32 + 1
}

// Of the clocks that one instruction acts on, its start and, behind it, the clock of a store's byte, those with a tick.
fn shared_by(ticking: Ticking, start: u32, gone: u32) -> u32
    requires { 0 < ticking.period }
    ensures { result ≡ shared_by ticking start gone }
{
    let first = one_where(on_tick(ticking, start)) as u32;
    if gone == start {
        return first;
    }
    first + one_where(on_tick(ticking, gone)) as u32
}

// An instruction by its opcode's row. Built into the loop below, so that the work stays in the host's registers.
#[inline(always)]
fn tried(start: Start, memory: &mut [u8], sums: &mut [u16]) -> Option<Work>
    ensures tries { Tries start.halt start.span.0 start.work memory.old result memory.new }
    ensures sums_after { sums.new ≡ sums_after sums.old memory.old memory.new }
{
    let opcode = memory_byte(memory, start.work.registers.pc);
    match opcode / 16 {
        0 => cpu_low_opcodes::opcodes_00(start, memory, sums, opcode),
        1 => cpu_low_opcodes::opcodes_10(start, memory, sums, opcode),
        2 => cpu_low_opcodes::opcodes_20(start, memory, sums, opcode),
        3 => cpu_low_opcodes::opcodes_30(start, memory, sums, opcode),
        4 => cpu_low_opcodes::opcodes_40(start, memory, sums, opcode),
        5 => cpu_low_opcodes::opcodes_50(start, memory, sums, opcode),
        6 => cpu_low_opcodes::opcodes_60(start, memory, sums, opcode),
        7 => cpu_low_opcodes::opcodes_70(start, memory, sums, opcode),
        8 => cpu_high_opcodes::opcodes_80(start, memory, sums, opcode),
        9 => cpu_high_opcodes::opcodes_90(start, memory, sums, opcode),
        10 => cpu_high_opcodes::opcodes_a0(start, memory, sums, opcode),
        11 => cpu_high_opcodes::opcodes_b0(start, memory, sums, opcode),
        12 => cpu_high_opcodes::opcodes_c0(start, memory, sums, opcode),
        13 => cpu_high_opcodes::opcodes_d0(start, memory, sums, opcode),
        14 => cpu_high_opcodes::opcodes_e0(start, memory, sums, opcode),
        _ => cpu_high_opcodes::opcodes_f0(start, memory, sums, opcode),
    }
}

// The instructions that start in a span, one after the other, up to the first that is left to `work_once`: one that
// reads a register, writes to one or at the halt address, BRK, an undefined opcode, a store whose last clock lies
// behind the span, or one whose bytes may be at a register's address. The memory's length is looked at before the loop,
// so that no access within asks again.
#[tactic(auto, using(page_sums::proofs::Sums::sums_kept))]
pub fn run_opcodes(
    start: Work,
    span: Clocks,
    ticking: Ticking,
    memory: &mut [u8],
    sums: &mut [u16],
    halt: Option<u16>,
) -> Ran
    requires within_span { WithinSpan start span.0 }
    requires span_bound { (span.0 ≤ 2147483647) × (0 < ticking.period) }
    ensures by_instructions { ByInstructions halt span.0 ticking start memory.old result.work memory.new
        result.shared }
    ensures within_span_2 { WithinSpan result.work span.0 }
    ensures sums_after { sums.new ≡ sums_after sums.old memory.old memory.new }
{
    let mut w = start;
    let mut shared = 0u32;
    if memory.len() != MEMORY_LENGTH {
        return Ran {
            work: w,
            shared: shared,
        };
    }
    while (w.wait as u32) < span.0 - w.gone.0 {
        let pc = w.registers.pc;
        if is_register(pc) | (LAST_WHOLE < pc) {
            break;
        }
        let from = Start {
            work: w,
            span: span,
            halt: halt,
        };
        let Some(next) = tried(from, memory, sums) else {
            break;
        };
        shared += shared_by(ticking, next_start(w), next.gone.0);
        w = next;
    }
    Ran {
        work: w,
        shared: shared,
    }
}

// The instructions of a span by their opcodes, where no byte waits; else nothing.
#[tactic(auto, using(page_sums::proofs::Sums::sums_kept, crate::proofs::Instructions::shared_most))]
pub fn run_working(
    v: Working,
    span: Clocks,
    ticking: Ticking,
    memory: &mut [u8],
    sums: &mut [u16],
    halt: Option<u16>,
) -> RanOn
    requires within_span { WithinSpan v.work span.0 }
    requires span_bound { (span.0 ≤ 2147483647) × (0 < ticking.period) }
    ensures runs_on { RunsOn halt span.0 ticking v.work v.waiting memory.old result
        memory.new }
    ensures within_span_2 { WithinSpan result.working.work span.0 × (result.shared ≤ result.working.work.gone.0) }
    ensures sums_after { sums.new ≡ sums_after sums.old memory.old memory.new }
{
    match v.waiting {
        None => {
            let ran = run_opcodes(v.work, span, ticking, memory, sums, halt);
            RanOn {
                working: none_waiting(ran.work),
                shared: ran.shared,
            }
        }
        Some(_) => RanOn {
            working: v,
            shared: 0,
        },
    }
}
