// Clocks of which nothing can be seen but what counts: how many there are, the counters and the serial channel after
// them, and the ticks in them. Between these clocks no port level changes.
#![tactic(auto)]

mod counter; // counter.rt: counter A over clocks
mod receiver; // receiver.rt: the receiver over ticks
mod transmitter; // transmitter.rt: the transmitter over ticks

ghost use Rattle.std.specs.Prelude.{◌≡◌, true, ◌≤◌, ◌<◌};
ghost use Rattle.r6501q_events.specs.Gaps.{counting_b};
ghost use Rattle.r6501q_unseen.specs.Ticks.{most_ticks, underflow_unseen, unseen_ticks};
ghost use Rattle.r6501q_unseen.specs.Unseen.{peripherals_clocks, ticks_in, Unseen, ticking_of, on_tick};

use counter::{clocks_before, counter_after, underflows_in};
use counters::time::Clocks;
use r6501q_gaps::distances::{counting_a, counting_b};
use r6501q_gaps::nearer;
use r6501q_state::state::{Control, Peripherals};
use receiver::{heard_after, unseen_listens};
use transmitter::{sent_after, unseen_sends};

// Counter A's mode in which an underflow inverts PA4's latch.
const PULSE: u8 = 1;

// The most clocks that are passed together.
const MOST_CLOCKS: u32 = 2147483647;

// A first tick that no clock passed together with others reaches.
const NO_TICK: u32 = 4294967295;

// The clocks, the next one being clock 1, on which counter A underflows: the first, and then one in each period.
#[derive(Clone, Copy)]
pub struct Ticking {
    pub first: u32,
    pub period: u32,
}

// Whether an underflow of counter A changes neither a flag nor a latch.
fn underflow_unseen(c: Control) -> bool
    ensures { result ≡ underflow_unseen c }
{
    bits::bit8(c.ifr, 4) & (c.mode_a() != PULSE)
}

// Ticks that cannot be seen.
fn unseen_ticks(p: Peripherals, ports: u32) -> u32
    ensures { (result ≡ unseen_ticks ports p) × (result ≤ most_ticks) }
{
    if !underflow_unseen(p.control) {
        return 0;
    }
    let sends = unseen_sends(p.transmitter, p.control.sccr, p.control.scsr);
    let listens = unseen_listens(p.receiver, p.control.sccr, bits::bit32(ports, 7));
    if sends <= listens {
        return sends;
    }
    listens
}

// The clocks before an underflow of counter B, at most some.
fn before_b(p: Peripherals, room: Clocks) -> Clocks
    ensures { (result.0 ≤ room.0) × (counting_b p.control ≡ true → result.0 ≤ p.counterb.count) }
{
    if counting_b(p.control) {
        return nearer(room, Clocks(p.counterb.count as u32));
    }
    room
}

// How many of the next clocks are unseen, at most some. Any number of which that holds would be right: this one ends
// before an underflow of B, before a tick that sets IFR4 or inverts PA4's latch, and before one at which a bit that is
// sent, a start or a frame that is received ends, data is taken to be sent, or a bit is shifted.
pub fn unseen_clocks(p: Peripherals, ports: u32, room: Clocks) -> Clocks
    ensures { (result.0 ≤ room.0) × (result.0 ≤ 2147483647) × Unseen result.0 ports p }
{
    let b = before_b(p, nearer(room, Clocks(MOST_CLOCKS)));
    if !counting_a(p.control, ports) {
        return b;
    }
    nearer(b, clocks_before(p.countera, unseen_ticks(p, ports)))
}

// The ticks in the next clocks.
pub fn ticks_in(p: Peripherals, ports: u32, n: Clocks) -> u32
    ensures { result ≡ ticks_in n.0 ports p }
{
    if counting_a(p.control, ports) {
        return underflows_in(p.countera, n);
    }
    0
}

// Steps 2 and 3 of unseen clocks, all at once.
pub fn pass_unseen(mut p: Peripherals, ports: u32, n: Clocks) -> Peripherals
    requires { Unseen n.0 ports p }
    ensures { result ≡ peripherals_clocks n.0 ports p }
{
    let sccr = p.control.sccr;
    let ticks = ticks_in(p, ports, n);
    let counter_a = counter_after(p.countera, counting_a(p.control, ports), n);
    let counter_b = p.counterb.pass(counting_b(p.control), n);
    let transmitter = sent_after(p.transmitter, sccr, ticks);
    let receiver = heard_after(p.receiver, sccr, bits::bit32(ports, 7), ticks);
    p.countera = counter_a;
    p.counterb = counter_b;
    p.transmitter = transmitter;
    p.receiver = receiver;
    p
}

// The clocks with a tick.
pub fn ticking_of(p: Peripherals, ports: u32) -> Ticking
    ensures { result ≡ ticking_of ports p }
{
    if counting_a(p.control, ports) {
        return Ticking {
            first: p.countera.count as u32 + 1,
            period: p.countera.latch as u32 + 1,
        };
    }
    Ticking {
        first: NO_TICK,
        period: 1,
    }
}

// Whether a clock has one.
pub fn on_tick(t: Ticking, clock: u32) -> bool
    requires { 0 < t.period }
    ensures { result ≡ on_tick t clock }
{
    if clock < t.first {
        return false;
    }
    (clock - t.first) % t.period == 0
}
