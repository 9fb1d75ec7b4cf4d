// The 16-bit counters and the two units of time. No register address stands here: a chip decides where its latches are
// written.
#![tactic(auto)]

// Distances in time.
pub mod time;

// A counter with one latch.
pub mod a;

// A counter with two latches.
pub mod b;

// A counter after one clock, and whether it underflowed.
#[derive(Clone, Copy)]
pub struct Counted<C> {
    pub counter: C,
    pub underflow: bool,
}
