// What ends a call before all its clocks are done (document 01, "What is handed back", 6 and 7; document 02, U4, 12), of
// any chip.
#![tactic(auto)]

ghost use Rattle.std.specs.Prelude.{◌≡◌};
ghost use Rattle.stops.specs.Stops.{stop_number, number_of};

#[derive(Clone, Copy, Debug, PartialEq, Eq)]
pub enum Stop {
    // The next clock would start an undefined opcode.
    Undefined,
    // The next clock needs a record, and no entry is free.
    Full,
    // The clock that was done wrote the halt address.
    Halted,
}

// The number that a document gives the stop.
impl From<Stop> for u8 {
    ghost from_gives = { λ stop number. number ≡ stop_number stop };

    fn from(stop: Stop) -> u8 {
        match stop {
            Stop::Undefined => 6,
            Stop::Full => 7,
            Stop::Halted => 12,
        }
    }
}

// The number that is handed back: that of the stop, or 0.
pub fn number_of(stop: Option<Stop>) -> u8
    ensures { result ≡ number_of stop }
{
    stop.map_or(0, u8::from)
}
