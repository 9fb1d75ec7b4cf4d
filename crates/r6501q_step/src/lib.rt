// The single-clock call, and what every call begins and ends with.
#![tactic(auto)]

ghost use Rattle.std.specs.Prelude.{◌≡◌};
ghost use Rattle.page_sums.specs.PageSums.{sums_after};
ghost use Rattle.refusals.specs.Refusals.{number_of, number_in, refusal_of};
ghost use Rattle.leaps.specs.CallLists.{step_of};
ghost use Rattle.leaps.specs.Lent.{at_entry};
ghost use Rattle.leaps.specs.Summed.{with_sums};
ghost use Rattle.r6501q_state.specs.State.{well_formed};
ghost use Rattle.r6501q_chip.specs.R6501q.{r6501q_limits, machine};
ghost use Rattle.r6501q_step.specs.Calls.{begin, refusal_result, progress_result, leaps_from, at_exit};

use memory::MEMORY_LENGTH;
use page_sums::page_list_refused;
use r6501q_advance::lent::{LentLists, SummedMemory};
use r6501q_advance::{Progress, advance};
use r6501q_state::inputs::LAST_PIN;
use r6501q_state::state::{State, well_formed};
use refusals::{Limits, Refusal, check};
use stops::number_of;

// What a call hands back beside the lent lists: document 01's number, the state, the leaps, the inputs read and the
// records written.
#[repr(C)]
#[derive(Clone, Copy)]
pub struct CallResult {
    pub number: u8,
    pub state: State,
    pub leaps: u32,
    pub read: usize,
    pub written: usize,
}

// The bytes of a memory, and the last pin.
pub fn limits() -> Limits
    ensures { result ≡ r6501q_limits }
{
    Limits {
        memory: MEMORY_LENGTH,
        pin: LAST_PIN,
    }
}

// The first check that fails of a call for n clocks.
pub fn check_call(
    state: State,
    bytes: usize,
    inputclocks: &[u32],
    inputcodes: &[u8],
    outputclocks: usize,
    outputwords: usize,
    n: u32,
) -> Result<(), Refusal>
    ensures { number_in result ≡ refusal_of r6501q_limits (well_formed state) state.clock bytes inputclocks.now
        inputcodes.now outputclocks outputwords n }
{
    check(
        limits(),
        well_formed(state),
        state.clock,
        bytes,
        inputclocks,
        inputcodes,
        outputclocks,
        outputwords,
        n,
    )
}

// The result of a refused call.
pub fn refused(number: u8, state: State) -> CallResult
    ensures { result ≡ refusal_result number state }
{
    CallResult {
        number: number,
        state: state,
        leaps: 0,
        read: 0,
        written: 0,
    }
}

// The result of a call that was not refused.
pub fn result_of(leaps: u32, p: Progress) -> CallResult
    ensures { result ≡ progress_result leaps p }
{
    let state = p.state;
    CallResult {
        number: number_of(p.stop),
        state: state,
        leaps: leaps,
        read: p.read,
        written: p.written,
    }
}

// The leap of a single clock: one where the clock moved.
pub fn leaps_from(before: u32, after: u32) -> u32
    ensures { result ≡ leaps_from before after }
{
    if before < after { 1 } else { 0 }
}

// A call that has just begun.
pub fn begin(state: State) -> Progress
    ensures { result ≡ begin state }
{
    Progress {
        state: state,
        read: 0,
        written: 0,
        stop: None,
    }
}

// One clock of memory and its page sums, however many sums are lent.
fn step_into(
    state: State,
    memory: &mut [u8],
    sums: &mut [u16],
    inputclocks: &[u32],
    inputcodes: &[u8],
    outputclocks: &mut [u32],
    outputwords: &mut [u32],
    halt: Option<u16>,
) -> CallResult
    ensures outputwords_value { at_exit result memory outputclocks outputwords
        ≡ step_of (machine halt) (at_entry state memory inputclocks inputcodes outputclocks outputwords) }
    ensures sums_after { sums.new ≡ sums_after sums.old memory.old memory.new }
{
    let checked = check_call(
        state,
        memory.len(),
        inputclocks,
        inputcodes,
        outputclocks.len(),
        outputwords.len(),
        1,
    );
    if let Err(refusal) = checked {
        return refused(refusal.into(), state);
    }
    let mut memory = SummedMemory {
        bytes: memory,
        sums,
    };
    let mut lists = LentLists {
        inputclocks,
        inputcodes,
        outputclocks,
        outputwords,
    };
    let end = advance(begin(state), &mut memory, &mut lists, halt);
    let leaps = leaps_from(state.clock, end.state.clock);
    result_of(leaps, end)
}

// The single-clock call, which says so where its clock writes the halt address.
pub fn step(
    state: State,
    memory: &mut [u8],
    inputclocks: &[u32],
    inputcodes: &[u8],
    outputclocks: &mut [u32],
    outputwords: &mut [u32],
    halt: Option<u16>,
) -> CallResult
    ensures { at_exit result memory outputclocks outputwords
        ≡ step_of (machine halt) (at_entry state memory inputclocks inputcodes outputclocks outputwords) }
{
    let mut none = [0u16; 0];
    step_into(
        state,
        memory,
        &mut none,
        inputclocks,
        inputcodes,
        outputclocks,
        outputwords,
        halt,
    )
}

// The single-clock call of a memory with its 256 page sums; the list of sums is looked at behind the memory.
pub fn step_with_sums(
    state: State,
    memory: &mut [u8],
    sums: &mut [u16],
    inputclocks: &[u32],
    inputcodes: &[u8],
    outputclocks: &mut [u32],
    outputwords: &mut [u32],
    halt: Option<u16>,
) -> CallResult
    ensures outputwords_value { at_exit result memory outputclocks outputwords
        ≡ with_sums sums.old (step_of (machine halt))
        (at_entry state memory inputclocks inputcodes outputclocks outputwords) }
    ensures sums_after { sums.new ≡ sums_after sums.old memory.old memory.new }
{
    if page_list_refused(memory.len(), sums.len()) {
        return refused(Refusal::PageList.into(), state);
    }
    step_into(
        state,
        memory,
        sums,
        inputclocks,
        inputcodes,
        outputclocks,
        outputwords,
        halt,
    )
}
