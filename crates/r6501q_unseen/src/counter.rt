// Counter A over clocks in all of which it counts.
ghost use Rattle.std.specs.Prelude.{◌≡◌, ◌+◌, ◌*◌, ◌≤◌};
ghost use Rattle.r6501q_unseen.specs.Ticks.{most_ticks, underflows_in, counter_after};

use counters::a::CounterA;
use counters::time::Clocks;

// The clocks that have no more than some underflows: all before the next one.
pub fn clocks_before(c: CounterA, underflows: u32) -> Clocks
    requires { underflows ≤ most_ticks }
    ensures { result.0 ≡ c.count + underflows * (c.latch + 1) }
{
    let period = c.latch as u32 + 1;
    Clocks(c.count as u32 + underflows * period)
}

// The underflows in some clocks.
pub fn underflows_in(c: CounterA, n: Clocks) -> u32
    ensures { result ≡ underflows_in n.0 c }
{
    let count = c.count as u32;
    if n.0 <= count {
        return 0;
    }
    let period = c.latch as u32 + 1;
    (n.0 - count - 1) / period + 1
}

// The counter after some clocks, in all of which it counts or in none.
pub fn counter_after(mut c: CounterA, counting: bool, n: Clocks) -> CounterA
    ensures { result ≡ counter_after n.0 counting c }
{
    if !counting {
        return c;
    }
    let count = c.count as u32;
    if n.0 <= count {
        c.count = (count - n.0) as u16;
        return c;
    }
    let period = c.latch as u32 + 1;
    let passed = (n.0 - count - 1) % period;
    c.count = (c.latch as u32 - passed) as u16;
    c
}
