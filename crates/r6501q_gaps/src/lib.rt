// The gap before the next event clock, and the gap passed (document 01, "Run and leaps"). Neither is lent memory or
// output space.
#![tactic(auto)]

// Events that the next clock brings.
pub mod events;

// The clocks before the next event clock of each kind.
pub mod distances;

ghost use Rattle.std.specs.Prelude.{◌≡◌, ◌+◌, ◌≤◌, min};
ghost use Rattle.r6501q_events.specs.Gaps.{clocks_of, gap_of, wait_after, pass_counters, pass_of};

use counters::time::Clocks;
use distances::{
    counting_a, counting_b, to_change, to_cpu, to_input, to_reset, to_underflow_a, to_underflow_b,
};
use r6501q_state::state::{Peripherals, State};

// The lesser of two distances.
pub fn nearer(a: Clocks, b: Clocks) -> Clocks
    ensures { result ≡ clocks_of (min a.0 b.0) }
{
    if a.0 <= b.0 {
        return a;
    }
    b
}

// The clocks before the next event clock, at most those left. `clocks` are those of the rest of the input list. The CPU
// comes first: where it starts or puts a byte on the next clock, there is no gap, and no other distance is worked out.
pub fn gap(state: State, left: Clocks, clocks: &[u32]) -> Clocks
    ensures { result ≡ gap_of left.0 state clocks.now }
{
    let cpu = to_cpu(left, state);
    if cpu.0 == 0 {
        return Clocks(0);
    }
    let reset = nearer(to_reset(left, state), cpu);
    let underflow_b = nearer(to_underflow_b(left, state), reset);
    let underflow_a = nearer(to_underflow_a(left, state), underflow_b);
    let change = nearer(to_change(left, state), underflow_a);
    let input = nearer(to_input(left, state.clock, clocks), change);
    nearer(left, input)
}

// The CPU's wait after a gap: it goes down where RES is high.
fn wait_after(wait: u8, high: bool, gap: Clocks) -> u8
    ensures { result ≡ wait_after wait high gap }
{
    if !high {
        return wait;
    }
    if gap.0 < wait as u32 {
        return wait - gap.0 as u8;
    }
    0
}

// The counters that run, after a gap without an underflow.
fn pass_counters(mut p: Peripherals, ports: u32, gap: Clocks) -> Peripherals
    ensures { result ≡ pass_counters p ports gap }
{
    let counter_a = p.countera.pass(counting_a(p.control, ports), gap);
    let counter_b = p.counterb.pass(counting_b(p.control), gap);
    p.countera = counter_a;
    p.counterb = counter_b;
    p
}

// The gap passed: the clock, the counters that run, and the wait. The clock must have room for it.
pub fn pass(mut state: State, gap: Clocks) -> State
    requires { state.clock + gap.0 ≤ 4294967295 }
    ensures { result ≡ pass_of state gap }
{
    let clock = state.clock + gap.0;
    let wait = wait_after(state.cpu.wait, state.last.res, gap);
    let peripherals = pass_counters(state.peripherals, state.last.ports, gap);
    state.clock = clock;
    state.cpu.wait = wait;
    state.peripherals = peripherals;
    state
}
