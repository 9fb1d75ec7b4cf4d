// A counter with one latch: counter A.
ghost use Rattle.std.specs.Prelude.{◌≡◌};
ghost use Rattle.counters.specs.Counters.{down_a, counts_a, clock_a, counts_through_a, pass_a, lower_a, upper_a};
ghost use Rattle.counters.specs.Counters.{load_counter_a};

use crate::Counted;
use crate::time::{Clocks, count_after_gap};

// The counter and its latch.
#[repr(C)]
#[derive(Clone, Copy, PartialEq, Eq)]
pub struct CounterA {
    pub count: u16,
    pub latch: u16,
}

// Whether it counts on this clock: each clock in modes 00 and 01, at a rise in 10, with its pin low in 11.
pub fn counts(mode: u8, rise: bool, low: bool) -> bool
    ensures { result ≡ counts_a mode rise low }
{
    if mode < 2 {
        return true;
    }
    if mode == 2 {
        return rise;
    }
    low
}

// Whether it counts in every clock of a gap, where no pin changes.
pub fn counts_through(mode: u8, low: bool) -> bool
    ensures { result ≡ counts_through_a mode low }
{
    counts(mode, false, low)
}

impl CounterA {
    // Down by one; from 0000h an underflow, with a reload from the latch.
    pub fn down(mut self) -> Counted<CounterA>
        ensures { result ≡ down_a self }
    {
        if self.count == 0 {
            self.count = self.latch;
            return Counted {
                counter: self,
                underflow: true,
            };
        }
        self.count -= 1;
        Counted {
            counter: self,
            underflow: false,
        }
    }

    // One clock, given the mode in force and its pin's rise and level.
    pub fn clock(mut self, mode: u8, rise: bool, low: bool) -> Counted<CounterA>
        ensures { result ≡ clock_a self mode rise low }
    {
        if counts(mode, rise, low) {
            return self.down();
        }
        Counted {
            counter: self,
            underflow: false,
        }
    }

    // A gap without an underflow, in all of which it counts or in none.
    // Each counter has this for itself: a trait over both would ask for as many accessors as there are lines here.
    pub fn pass(mut self, counting: bool, gap: Clocks) -> CounterA
        ensures { result ≡ pass_a self counting gap }
    {
        if counting {
            self.count = count_after_gap(self.count, gap);
            return self;
        }
        self
    }

    // The lower byte of the latch written.
    pub fn with_lower(mut self, value: u8) -> CounterA
        ensures { result ≡ lower_a self value }
    {
        self.latch = bits::word16(bits::high_byte(self.latch), value);
        self
    }

    // The upper byte of the latch written.
    pub fn with_upper(mut self, value: u8) -> CounterA
        ensures { result ≡ upper_a self value }
    {
        self.latch = bits::word16(value, bits::low_byte(self.latch));
        self
    }

    // The counter loaded from the latch.
    pub fn load(mut self) -> CounterA
        ensures { result ≡ load_counter_a self }
    {
        self.count = self.latch;
        self
    }
}
