// One leap of a run: the gap, the gap passed, and the event clock.
#![tactic(auto)]

ghost use Rattle.std.specs.Prelude.{◌≡◌, None, ◌+◌, ◌-◌, ◌≤◌, ◌<◌, length, drop};
ghost use Rattle.leaps.specs.Leaps.{leap_of, left_after};
ghost use Rattle.r6501q_events.specs.Gaps.{gap_of, clocks_of};
ghost use Rattle.r6501q_chip.specs.R6501q.{system};
ghost use Rattle.r6501q_advance.specs.World.{Summed, StillLent, world_of};
ghost use Rattle.r6501q_step.specs.Calls.{leaps_from};
ghost use Rattle.r6501q_leap.specs.RunInCode.{passed_by, LeapingOn};

use counters::time::Clocks;
use r6501q_advance::lent::{LentLists, SummedMemory};
use r6501q_advance::{Progress, advance};
use r6501q_step::leaps_from;

// How far a run has come: the clocks left, and the leaps done.
#[derive(Clone, Copy)]
pub struct Leaped {
    pub progress: Progress,
    pub left: Clocks,
    pub leaps: u32,
}

// The gap before the next event clock of a call.
fn gap_from(p: Progress, left: Clocks, inputclocks: &[u32]) -> Clocks
    requires { p.read ≤ length inputclocks.now }
    ensures { result ≡ gap_of left.0 p.state (drop p.read inputclocks.now) }
{
    let from = p.read;
    r6501q_gaps::gap(p.state, left, &inputclocks[from..])
}

// The gap passed.
pub fn pass_progress(p: Progress, gap: Clocks) -> Progress
    requires { p.state.clock + gap.0 ≤ 4294967295 }
    ensures { result ≡ passed_by gap p }
{
    let state = r6501q_gaps::pass(p.state, gap);
    Progress {
        state: state,
        read: p.read,
        written: p.written,
        stop: p.stop,
    }
}

// The clocks left after a gap and its event clock.
fn left_after(left: Clocks, gap: Clocks) -> Clocks
    ensures { result ≡ clocks_of (left.0 - (gap.0 + 1)) }
{
    if left.0 <= gap.0 {
        return Clocks(0);
    }
    Clocks(left.0 - gap.0 - 1)
}

// One leap: the gap, the gap passed, then the event clock, if it is reached.
fn leap(
    p: Progress,
    left: Clocks,
    gap: Clocks,
    memory: &mut SummedMemory,
    lists: &mut LentLists,
    halt: Option<u16>,
) -> Progress
    requires leaping { LeapingOn p left.0 lists.old }
    requires stop_value { p.stop ≡ None }
    requires gap_value { gap ≡ gap_of left.0 p.state (drop p.read lists.old.inputclocks.now) }
    ensures world { world_of result memory.new lists.new
        ≡ leap_of (system halt) left.0 (world_of p memory.old lists.old) }
    ensures summed { Summed memory.old memory.new }
    ensures still_lent { StillLent lists.old lists.new }
{
    let passed = pass_progress(p, gap);
    if gap.0 < left.0 {
        return advance(passed, memory, lists, halt);
    }
    passed
}

// One leap more of a run.
pub fn leap_once(
    at: Leaped,
    memory: &mut SummedMemory,
    lists: &mut LentLists,
    halt: Option<u16>,
) -> Leaped
    requires leaping { LeapingOn at.progress at.left.0 lists.old }
    requires left_nonzero { (0 < at.left.0) × (at.progress.stop ≡ None) }
    requires left_bound { at.leaps + at.left.0 ≤ 4294967295 }
    ensures world { world_of result.progress memory.new lists.new
        ≡ leap_of (system halt) at.left.0 (world_of at.progress memory.old lists.old) }
    ensures left_value { result.left
        ≡ clocks_of (left_after (system halt) at.left.0 (world_of at.progress memory.old lists.old)) }
    ensures leaps_value { result.leaps ≡ at.leaps + leaps_from at.progress.state.clock result.progress.state.clock }
    ensures summed { Summed memory.old memory.new }
    ensures still_lent { StillLent lists.old lists.new }
{
    let p = at.progress;
    let left = at.left;
    let gap = gap_from(p, left, lists.inputclocks);
    let q = leap(p, left, gap, memory, lists, halt);
    let moved = leaps_from(p.state.clock, q.state.clock);
    Leaped {
        progress: q,
        left: left_after(left, gap),
        leaps: at.leaps + moved,
    }
}
