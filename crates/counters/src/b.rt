// A counter with two latches: counter B with latches B and C.
ghost use Rattle.std.specs.Prelude.{◌≡◌};
ghost use Rattle.counters.specs.Counters.{reload_b, down_b, clock_b, counts_through_b, pass_b, lower_b, upper_b, copy_b};
ghost use Rattle.counters.specs.Counters.{load_counter_b, turn_to_c};

use crate::Counted;
use crate::time::{Clocks, count_after_gap};

// The counter, latches B and C, and whether the next reload in mode 01 takes latch C.
#[repr(C)]
#[derive(Clone, Copy, PartialEq, Eq)]
pub struct CounterB {
    pub count: u16,
    pub latchb: u16,
    pub latchc: u16,
    pub turnc: bool,
}

// Whether it counts in every clock of a gap, where no pin changes: in all modes but 10.
pub fn counts_through(mode: u8) -> bool
    ensures { result ≡ counts_through_b mode }
{
    mode != 2
}

impl CounterB {
    // A reload: from latches C and B by turns in mode 01, else from latch B.
    pub fn reload(mut self, mode: u8) -> CounterB
        ensures { result ≡ reload_b self mode }
    {
        if mode == 1 {
            if self.turnc {
                self.count = self.latchc;
                self.turnc = false;
                return self;
            }
            self.count = self.latchb;
            self.turnc = true;
            return self;
        }
        self.count = self.latchb;
        self
    }

    // Down by one; from 0000h an underflow, with a reload.
    pub fn down(mut self, mode: u8) -> Counted<CounterB>
        ensures { result ≡ down_b self mode }
    {
        if self.count == 0 {
            let counter = self.reload(mode);
            return Counted {
                counter,
                underflow: true,
            };
        }
        self.count -= 1;
        Counted {
            counter: self,
            underflow: false,
        }
    }

    // One clock: it counts in modes 00 and 01, at a rise in 10; in 11 a rise reloads it and it does not count.
    pub fn clock(mut self, mode: u8, rise: bool) -> Counted<CounterB>
        ensures { result ≡ clock_b self mode rise }
    {
        if mode < 2 {
            return self.down(mode);
        }
        if mode == 2 {
            if rise {
                return self.down(mode);
            }
            return Counted {
                counter: self,
                underflow: false,
            };
        }
        if rise {
            let counter = self.reload(mode);
            return Counted {
                counter,
                underflow: false,
            };
        }
        self.down(mode)
    }

    // A gap without an underflow, in all of which it counts or in none.
    // As counter A's; see there why each has it for itself.
    pub fn pass(mut self, counting: bool, gap: Clocks) -> CounterB
        ensures { result ≡ pass_b self counting gap }
    {
        if counting {
            self.count = count_after_gap(self.count, gap);
            return self;
        }
        self
    }

    // The lower byte of latch B written.
    pub fn with_lower(mut self, value: u8) -> CounterB
        ensures { result ≡ lower_b self value }
    {
        self.latchb = bits::word16(bits::high_byte(self.latchb), value);
        self
    }

    // The upper byte of latch B written.
    pub fn with_upper(mut self, value: u8) -> CounterB
        ensures { result ≡ upper_b self value }
    {
        self.latchb = bits::word16(value, bits::low_byte(self.latchb));
        self
    }

    // Latch B copied to latch C.
    pub fn copy_latch(mut self) -> CounterB
        ensures { result ≡ copy_b self }
    {
        self.latchc = self.latchb;
        self
    }

    // The counter loaded from latch B.
    pub fn load(mut self) -> CounterB
        ensures { result ≡ load_counter_b self }
    {
        self.count = self.latchb;
        self
    }

    // The next reload in mode 01 takes latch C.
    pub fn turn_to_c(mut self) -> CounterB
        ensures { result ≡ turn_to_c self }
    {
        self.turnc = true;
        self
    }
}
