// The clocks before the next event clock of each kind, where there is one to be seen, else the clocks left.
ghost use Rattle.std.specs.Prelude.{cond, ◌≡◌};
ghost use Rattle.r6501q_events.specs.Gaps.{clocks_of, counting_a, counting_b, to_input, to_change, to_underflow_a};
ghost use Rattle.r6501q_events.specs.Gaps.{to_underflow_b, to_reset, until_cpu, to_cpu};

use crate::events::{levels_change, reset_changes};
use counters::time::Clocks;
use r6501q_state::state::{Control, Cpu, State};

// Whether counter A counts in every clock of a gap, given the port levels.
pub fn counting_a(c: Control, ports: u32) -> bool
    ensures { result ≡ counting_a c ports }
{
    counters::a::counts_through(c.mode_a(), !bits::bit32(ports, 4))
}

// Whether counter B does.
pub fn counting_b(c: Control) -> bool
    ensures { result ≡ counting_b c }
{
    counters::b::counts_through(c.mode_b())
}

// An input: the first entry of the rest of the input list.
pub fn to_input(left: Clocks, clock: u32, clocks: &[u32]) -> Clocks
    ensures { result ≡ clocks_of (to_input left.0 clock clocks.now) }
{
    if clocks.len() == 0 {
        return left;
    }
    let next = clocks[0];
    if next <= clock {
        return Clocks(0);
    }
    Clocks(next - clock - 1)
}

// A distance where there is such an event to be seen, else the clocks left.
fn where_seen(seen: bool, distance: Clocks, left: Clocks) -> Clocks
    ensures { result ≡ clocks_of (cond seen distance.0 left.0) }
{
    if seen {
        return distance;
    }
    left
}

// Pin levels unlike the last ones.
pub fn to_change(left: Clocks, s: State) -> Clocks
    ensures { result ≡ clocks_of (to_change left.0 s) }
{
    where_seen(levels_change(s), Clocks(0), left)
}

// An underflow of counter A.
pub fn to_underflow_a(left: Clocks, s: State) -> Clocks
    ensures { result ≡ clocks_of (to_underflow_a left.0 s) }
{
    let counting = counting_a(s.peripherals.control, s.last.ports);
    where_seen(counting, Clocks(s.peripherals.countera.count as u32), left)
}

// An underflow of counter B.
pub fn to_underflow_b(left: Clocks, s: State) -> Clocks
    ensures { result ≡ clocks_of (to_underflow_b left.0 s) }
{
    let counting = counting_b(s.peripherals.control);
    where_seen(counting, Clocks(s.peripherals.counterb.count as u32), left)
}

// RES low that changes a field.
pub fn to_reset(left: Clocks, s: State) -> Clocks
    ensures { result ≡ clocks_of (to_reset left.0 s) }
{
    where_seen(reset_changes(s), Clocks(0), left)
}

// The clocks before the CPU acts: it starts, or puts the byte that waits.
fn until_cpu(c: Cpu) -> u8
    ensures { result ≡ until_cpu c }
{
    if c.waiting.is_some() {
        return c.wait.saturating_sub(1);
    }
    c.wait
}

// The CPU.
pub fn to_cpu(left: Clocks, s: State) -> Clocks
    ensures { result ≡ clocks_of (to_cpu left.0 s) }
{
    let until = until_cpu(s.cpu);
    where_seen(s.last.res, Clocks(until as u32), left)
}
