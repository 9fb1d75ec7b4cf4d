// The receiver over ticks that cannot be seen.
ghost use Rattle.std.specs.Prelude.{◌≡◌, true, false, ◌+◌, ◌-◌, ◌*◌, ◌≤◌, ◌<◌};
ghost use Rattle.r6501q_unseen.specs.Ticks.{most_ticks, most_looks, unseen_looks, unseen_listens, with_levels};
ghost use Rattle.r6501q_unseen.specs.Ticks.{waited_for, taken_for, heard_after};

use serial_format::receiver_asynchronous;
use serial_receiver::{Receiver, with_level};

// The most ticks that are passed together, and the looks in them.
pub const MOST_TICKS: u32 = 32767;

const MOST_LOOKS: u32 = 16383;

// Looks that cannot be seen: before a start, or before the last bit of a frame ends.
fn unseen_looks(r: Receiver, high: bool) -> u32
    requires { r.subinterval ≤ 7 }
    ensures { (result ≡ unseen_looks r high) × (result ≤ most_looks) }
{
    let passed = r.subinterval as u32;
    if r.left != 0 {
        return r.left as u32 * 8 - passed - 1;
    }
    if high {
        return MOST_LOOKS;
    }
    if passed < 3 {
        return 3 - passed;
    }
    0
}

// Ticks that cannot be seen: a look is at every second one.
pub fn unseen_listens(r: Receiver, sccr: u8, high: bool) -> u32
    ensures { (result ≡ unseen_listens r sccr high) × (result ≤ most_ticks) }
{
    if !receiver_asynchronous(sccr) {
        return MOST_TICKS;
    }
    if 7 < r.subinterval {
        return 0;
    }
    let looks = unseen_looks(r, high);
    if r.half {
        return 2 * looks;
    }
    2 * looks + 1
}

// The register after some bits of one level.
fn with_levels(mut register: u16, high: bool, bits: u32) -> u16
    ensures { result ≡ with_levels bits register high }
{
    for _ in 0..bits {
        register = with_level(register, high);
    }
    register
}

// Looks with no bits left: a high zeroes the sub-interval, and lows count.
fn waited_for(mut r: Receiver, looks: u32, half: bool, high: bool) -> Receiver
    requires { high ≡ false → r.subinterval + looks ≤ 7 }
    ensures { result ≡ waited_for looks half r high }
{
    r.half = half;
    if !high {
        r.subinterval = (r.subinterval as u32 + looks) as u8;
        return r;
    }
    if looks == 0 {
        return r;
    }
    r.subinterval = 0;
    r
}

// Looks in a frame, of which each eighth ends a bit.
fn taken_for(mut r: Receiver, looks: u32, half: bool, high: bool) -> Receiver
    requires { r.subinterval + looks < r.left * 8 }
    ensures { result ≡ taken_for looks half r high }
{
    let all = r.subinterval as u32 + looks;
    let ended = all / 8;
    let register = with_levels(r.register, high, ended);
    let left = (r.left as u32 - ended) as u8;
    r.subinterval = (all % 8) as u8;
    r.half = half;
    r.left = left;
    r.register = register;
    r
}

// The receiver after ticks that cannot be seen.
pub fn heard_after(r: Receiver, sccr: u8, high: bool, ticks: u32) -> Receiver
    requires ticks_bound { ticks ≤ unseen_listens r sccr high }
    requires ticks_le_most_ticks { ticks ≤ most_ticks }
    ensures { result ≡ heard_after ticks r sccr high }
{
    let listens = receiver_asynchronous(sccr) & (r.subinterval <= 7);
    if !listens {
        return r;
    }
    let since = ticks + bits::one_where(r.half) as u32;
    let looks = since / 2;
    let half = since % 2 == 1;
    if r.left == 0 {
        return waited_for(r, looks, half, high);
    }
    taken_for(r, looks, half, high)
}
