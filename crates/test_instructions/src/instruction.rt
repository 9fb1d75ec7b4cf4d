// One instruction by a run for all its clocks: what a case starts from, and what it has to come to.
ghost use Rattle.std.specs.Prelude.{◌≡◌, true, [], ◌∷◌};
ghost use Rattle.r6501q_state.specs.Inputs.{res_high};
ghost use Rattle.r6501q_clock.specs.Clock.{clock_of};
ghost use Rattle.r6501q_step.specs.Calls.{result_from};
ghost use Rattle.test_instructions.specs.Instruction.{prepared, later, run_alone, done_with, writes_with, writes_in};

use cpu_access::stack::{Writes, no_writes, one_write};
use r6501q_clock::{Ended, clock};
use r6501q_state::inputs::RES_HIGH;
use r6501q_state::state::{Cpu, State, fresh_state};
use r6501q_step::CallResult;
use stops::Stop;

// The leaps of an instruction: one through its first clock, and one through its last.
const LEAPS: u32 = 2;

// A chip about to start an instruction: as fresh but that no reset is due, with these registers.
fn prepared(cpu: Cpu) -> State
    ensures { result ≡ prepared cpu }
{
    let mut state = fresh_state();
    state.cpu = cpu;
    state.due.reset = false;
    state
}

// The same chip so many clocks later: RES is high, both counters have counted each of them, and nothing else has moved.
fn later(cpu: Cpu, clocks: u8) -> State
    ensures { result ≡ later clocks cpu }
{
    let mut state = prepared(cpu);
    let count = 0xFFFF - clocks as u16;
    state.peripherals.countera.count = count;
    state.peripherals.counterb.count = count;
    state.external.res = true;
    state.last.res = true;
    state.clock = clocks as u32;
    state
}

// The run for so many clocks with RES high as its input on clock 1, one free output entry and no halt address.
pub(crate) fn run_alone(cpu: Cpu, clocks: u8, memory: &mut [u8]) -> CallResult
    ensures memory_value { (run_alone cpu clocks memory.old).result ≡ result_from result }
    ensures memory_value_2 { (run_alone cpu clocks memory.old).memory ≡ memory.new }
{
    let inputclocks = [1u32; 1];
    let inputcodes = [RES_HIGH; 1];
    let mut times = [0u32; 1];
    let mut words = [0u32; 1];
    r6501q_run::run(
        prepared(cpu),
        memory,
        &inputclocks,
        &inputcodes,
        &mut times,
        &mut words,
        clocks as u32,
        None,
    )
}

// Whether a call did its clocks, with no record, and left these registers, and all else as it has to be.
pub(crate) fn done_with(res: CallResult, clocks: u8, cpu: Cpu) -> bool
    ensures { result ≡ true → result_from res ≡ done_with clocks cpu }
{
    let state = res.state == later(cpu, clocks);
    (res.number == 0) & state & (res.leaps == LEAPS) & (res.read == 1) & (res.written == 0)
}

// What the first clock of an instruction comes to, which holds its pushes in order and the byte that waits.
fn clock_alone(cpu: Cpu, memory: &[u8]) -> Result<Ended, Stop>
    ensures { result ≡ clock_of (prepared cpu) (res_high ∷ []) memory.now true }
{
    let codes = [RES_HIGH; 1];
    clock(prepared(cpu), &codes, memory, true)
}

// What an instruction with this first clock writes, in order: its pushes, or the byte that waits.
fn writes_with(ended: Ended) -> Writes
    ensures { result ≡ writes_with ended.writes ended.state.cpu.waiting }
{
    match ended.state.cpu.waiting {
        None => ended.writes,
        Some(w) => one_write(w.address, w.value),
    }
}

// What an instruction writes, in order; nothing where its first clock stops.
pub(crate) fn instruction_writes(cpu: Cpu, memory: &[u8]) -> Writes
    ensures { result ≡ writes_in (clock_of (prepared cpu) (res_high ∷ []) memory.now true) }
{
    let clocked = clock_alone(cpu, memory);
    match clocked {
        Err(_) => no_writes(),
        Ok(ended) => writes_with(ended),
    }
}
