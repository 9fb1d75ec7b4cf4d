// The leaps of a span, made one after the other on a small record.
// Memory and page sums are lent as two slices: one behind a field of a lent struct is known no more once it has been
// lent to be read, and an instruction reads before it writes.
#![tactic(auto)]

ghost use Rattle.std.specs.Prelude.{◌≡◌, ◌+◌, ◌≤◌, ◌<◌, length};
ghost use Rattle.page_sums.specs.PageSums.{sums_after};
ghost use Rattle.cpu.specs.Work.{WithinSpan};
ghost use Rattle.r6501q_span_leaps.specs.Spanned.{Spanned};
ghost use Rattle.r6501q_span_leaps.specs.Ticked.{SpanBegun, shared_in, ticked_to, EndFits, StepsOn};

use counters::time::Clocks;
use r6501q_advance::Progress;
use r6501q_fast::{RanOn, run_working};
use r6501q_leap::Leaped;
use r6501q_span_work::work_once;
use r6501q_spans::{Working, begin_work};
use r6501q_state::state::State;
use r6501q_unseen::{Ticking, on_tick, ticking_of, ticks_in};

// The clocks in which nothing but the CPU does what can be seen; none where no clock is left or the run has stopped. Any
// smaller number, none too, would meet the contract. No clock left is looked at first, for calls of few clocks.
fn span_from(at: Leaped, inputclocks: &[u32]) -> Clocks
    requires { at.progress.read ≤ length inputclocks.now }
    ensures { 0 < result.0 → SpanBegun at inputclocks.now result.0 }
{
    if at.left.0 == 0 {
        return Clocks(0);
    }
    if at.progress.stop.is_some() {
        return Clocks(0);
    }
    let from = at.progress.read;
    r6501q_spans::span(at.progress.state, at.left, &inputclocks[from..])
}

// The CPU's event clocks from one state of it to the next, none or one, that are ticks too.
fn shared_in(ticking: Ticking, v: Working, next: Working) -> u32
    requires { 0 < ticking.period }
    ensures { result ≡ shared_in ticking v next }
{
    if v.work.gone.0 < next.work.gone.0 {
        if on_tick(ticking, next.work.gone.0) {
            return 1;
        }
    }
    0
}

// The leaps of a span further on: instructions by their opcodes, as many as there are, then one more step of the CPU.
// The span began with the state s.
fn steps_on(
    s: State,
    v: Working,
    span: Clocks,
    ticking: Ticking,
    memory: &mut [u8],
    sums: &mut [u16],
    halt: Option<u16>,
) -> RanOn
    requires within_span { WithinSpan v.work span.0 }
    requires span_bound { (span.0 ≤ 2147483647) × (0 < ticking.period) }
    ensures steps_on { StepsOn halt s span.0 ticking v memory.old result memory.new }
    ensures sums_after { sums.new ≡ sums_after sums.old memory.old memory.new }
{
    let ran = run_working(v, span, ticking, memory, sums, halt);
    let between = ran.working;
    let next = work_once(s, between, span, memory, sums, halt);
    RanOn {
        working: next,
        shared: ran.shared + shared_in(ticking, between, next),
    }
}

// A run after the leaps of a span.
fn spanned_to(at: Leaped, v: Working, shared: u32) -> Leaped
    requires { EndFits at v shared }
    ensures { result ≡ ticked_to at v shared }
{
    let before = at.progress.state;
    let ticks = ticks_in(before.peripherals, before.last.ports, v.work.gone);
    let state = r6501q_spans::working_state(before, v);
    let progress = Progress {
        state: state,
        read: at.progress.read,
        written: at.progress.written,
        stop: at.progress.stop,
    };
    Leaped {
        progress: progress,
        left: Clocks(at.left.0 - v.work.gone.0),
        leaps: at.leaps + (v.work.leaps + ticks - shared),
    }
}

// The leaps of a span, one for each instruction that starts in it, for each byte that is put in it and for each tick
// before, up to the first that is not the CPU's alone.
fn leap_within(
    at: Leaped,
    span: Clocks,
    memory: &mut [u8],
    sums: &mut [u16],
    inputclocks: &[u32],
    halt: Option<u16>,
) -> Leaped
    requires left_bound { (at.progress.state.clock + at.left.0 ≤ 4294967295) × (at.leaps + at.left.0 ≤ 4294967295) }
    requires span_begun { SpanBegun at inputclocks.now span.0 }
    ensures spanned { Spanned halt at memory.old result memory.new inputclocks.now }
    ensures sums_after { sums.new ≡ sums_after sums.old memory.old memory.new }
{
    let before = at.progress.state;
    let ticking = ticking_of(before.peripherals, before.last.ports);
    let mut v = begin_work(before);
    let mut shared = 0u32;
    let mut on = true;
    while on {
        let stepped = steps_on(before, v, span, ticking, memory, sums, halt);
        let next = stepped.working;
        on = v.work.gone.0 < next.work.gone.0;
        shared = shared + stepped.shared;
        v = next;
    }
    spanned_to(at, v, shared)
}

// The leaps of a span, if there is one.
pub fn leap_span(
    at: Leaped,
    memory: &mut [u8],
    sums: &mut [u16],
    inputclocks: &[u32],
    halt: Option<u16>,
) -> Leaped
    requires left_bound { (at.progress.state.clock + at.left.0 ≤ 4294967295) × (at.leaps + at.left.0 ≤ 4294967295) }
    requires read_in_bounds { at.progress.read ≤ length inputclocks.now }
    ensures spanned { Spanned halt at memory.old result memory.new inputclocks.now }
    ensures sums_after { sums.new ≡ sums_after sums.old memory.old memory.new }
{
    let span = span_from(at, inputclocks);
    if span.0 == 0 {
        return at;
    }
    leap_within(at, span, memory, sums, inputclocks, halt)
}
