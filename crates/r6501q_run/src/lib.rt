// The leaping run: from event clock to event clock.
#![tactic(auto)]

ghost use Rattle.std.specs.Prelude.{◌≡◌, ◌+◌, ◌≤◌};
ghost use Rattle.page_sums.specs.PageSums.{sums_after};
ghost use Rattle.leaps.specs.CallLists.{run_of, plain_run_of};
ghost use Rattle.leaps.specs.Lent.{at_entry};
ghost use Rattle.leaps.specs.Summed.{with_sums};
ghost use Rattle.r6501q_chip.specs.R6501q.{machine};
ghost use Rattle.r6501q_step.specs.Calls.{at_exit};
ghost use Rattle.r6501q_leap.specs.RunInCode.{goes_on, run_from, run_ended, begin_run, LeapingOn};
ghost use Rattle.r6501q_advance.specs.World.{Summed, SameOutputs};

use counters::time::Clocks;
use page_sums::page_list_refused;
use r6501q_advance::lent::{LentLists, SummedMemory};
use r6501q_leap::{Leaped, leap_once};
use r6501q_span_leaps::leap_span;
use r6501q_state::state::State;
use r6501q_step::{CallResult, begin, check_call, refused, result_of};
use refusals::Refusal;

// Whether another leap is to be made.
fn goes_on(at: Leaped) -> bool
    ensures { result ≡ goes_on at }
{
    (0 < at.left.0) & at.progress.stop.is_none()
}

// Leaps, until no clock is left or one stops. Each is lent the inputs from the first unread entry on, and its inputs
// read are counted from there; in the end those count that the rest lacks.
fn leap_on(
    start: Leaped,
    memory: &mut SummedMemory,
    lists: &mut LentLists,
    halt: Option<u16>,
) -> Leaped
    requires leaping { LeapingOn start.progress start.left.0 lists.old }
    requires left_bound { start.leaps + start.left.0 ≤ 4294967295 }
    ensures run { run_ended result memory.new.bytes.now lists.old.inputclocks.now lists.old.inputcodes.now
        lists.new.outputclocks.now lists.new.outputwords.now
        ≡ run_from halt start memory.old.bytes.now lists.old.inputclocks.now lists.old.inputcodes.now
        lists.old.outputclocks.now lists.old.outputwords.now }
    ensures summed { Summed memory.old memory.new }
    ensures outputs { SameOutputs lists.old lists.new }
{
    let given = lists.inputclocks.len();
    let mut at = start;
    while goes_on(at) {
        at = leap_once(at, memory, lists, halt);
        let from = at.progress.read;
        lists.inputclocks = &lists.inputclocks[from..];
        lists.inputcodes = &lists.inputcodes[from..];
        at.progress.read = 0;
        at = leap_span(at, memory.bytes, memory.sums, lists.inputclocks, halt);
    }
    let read = given - lists.inputclocks.len() + at.progress.read;
    at.progress.read = read;
    at
}

// A run that has just begun.
fn begin_run(state: State, n: u32) -> Leaped
    ensures { result ≡ begin_run state n }
{
    Leaped {
        progress: begin(state),
        left: Clocks(n),
        leaps: 0,
    }
}

// n clocks of memory and its page sums, however many sums are lent.
fn run_into(
    state: State,
    memory: &mut [u8],
    sums: &mut [u16],
    inputclocks: &[u32],
    inputcodes: &[u8],
    outputclocks: &mut [u32],
    outputwords: &mut [u32],
    n: u32,
    halt: Option<u16>,
) -> CallResult
    ensures outputwords_value { at_exit result memory outputclocks outputwords
        ≡ run_of (machine halt) n (at_entry state memory inputclocks inputcodes outputclocks outputwords) }
    ensures outputwords_value_2 { at_exit result memory outputclocks outputwords
        ≡ plain_run_of (machine halt) n (at_entry state memory inputclocks inputcodes outputclocks outputwords) }
    ensures sums_after { sums.new ≡ sums_after sums.old memory.old memory.new }
{
    let checked = check_call(
        state,
        memory.len(),
        inputclocks,
        inputcodes,
        outputclocks.len(),
        outputwords.len(),
        n,
    );
    if let Err(refusal) = checked {
        return refused(refusal.into(), state);
    }
    let mut memory = SummedMemory {
        bytes: memory,
        sums,
    };
    let mut lists = LentLists {
        inputclocks,
        inputcodes,
        outputclocks,
        outputwords,
    };
    let end = leap_on(begin_run(state, n), &mut memory, &mut lists, halt);
    result_of(end.leaps, end.progress)
}

// The call for n clocks, which halts after a clock that writes the halt address.
pub fn run(
    state: State,
    memory: &mut [u8],
    inputclocks: &[u32],
    inputcodes: &[u8],
    outputclocks: &mut [u32],
    outputwords: &mut [u32],
    n: u32,
    halt: Option<u16>,
) -> CallResult
    ensures outputwords_value { at_exit result memory outputclocks outputwords
        ≡ run_of (machine halt) n (at_entry state memory inputclocks inputcodes outputclocks outputwords) }
    ensures outputwords_value_2 { at_exit result memory outputclocks outputwords
        ≡ plain_run_of (machine halt) n (at_entry state memory inputclocks inputcodes outputclocks outputwords) }
{
    let mut none = [0u16; 0];
    run_into(
        state,
        memory,
        &mut none,
        inputclocks,
        inputcodes,
        outputclocks,
        outputwords,
        n,
        halt,
    )
}

// The call for n clocks of a memory with its 256 page sums; the list of sums is looked at behind the memory.
pub fn run_with_sums(
    state: State,
    memory: &mut [u8],
    sums: &mut [u16],
    inputclocks: &[u32],
    inputcodes: &[u8],
    outputclocks: &mut [u32],
    outputwords: &mut [u32],
    n: u32,
    halt: Option<u16>,
) -> CallResult
    ensures outputwords_value { at_exit result memory outputclocks outputwords
        ≡ with_sums sums.old (run_of (machine halt) n)
        (at_entry state memory inputclocks inputcodes outputclocks outputwords) }
    ensures outputwords_value_2 { at_exit result memory outputclocks outputwords
        ≡ with_sums sums.old (plain_run_of (machine halt) n)
        (at_entry state memory inputclocks inputcodes outputclocks outputwords) }
    ensures sums_after { sums.new ≡ sums_after sums.old memory.old memory.new }
{
    if page_list_refused(memory.len(), sums.len()) {
        return refused(Refusal::PageList.into(), state);
    }
    run_into(
        state,
        memory,
        sums,
        inputclocks,
        inputcodes,
        outputclocks,
        outputwords,
        n,
        halt,
    )
}
