// The two units of time, which never serve for each other.
ghost use Rattle.std.specs.Prelude.{◌≡◌, ◌-◌};
ghost use Rattle.counters.specs.Counters.{ticks_of, toggles, in_force};

// A number of clocks.
#[derive(Clone, Copy)]
pub struct Clocks(pub u32);

// A number of serial ticks, each an underflow of counter A.
#[derive(Clone, Copy)]
pub struct Ticks(pub u32);

// The ticks of a clock: one where counter A underflows.
pub fn ticks_of(underflow: bool) -> Ticks
    ensures { result ≡ ticks_of underflow }
{
    if underflow { Ticks(1) } else { Ticks(0) }
}

// The mode in force: a held counter is in mode 00.
pub fn in_force(held: bool, mode: u8) -> u8
    ensures { result ≡ in_force held mode }
{
    if held { 0 } else { mode }
}

// Whether an underflow inverts the counter's output: in mode 01.
pub fn toggles_output(mode: u8, underflow: bool) -> bool
    ensures { result ≡ toggles mode underflow }
{
    underflow & (mode == 1)
}

// A count after a gap in which each clock counts and none underflows.
pub fn count_after_gap(count: u16, gap: Clocks) -> u16
    ensures { result ≡ count - gap.0 }
{
    if gap.0 < count as u32 {
        count - gap.0 as u16
    } else {
        0
    }
}
