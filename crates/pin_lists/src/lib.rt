// Pin lists: their codes, their rule, and the inputs of one clock.
#![tactic(auto)]

ghost use Rattle.std.specs.Prelude.{◌≡◌};
ghost use Rattle.pin_lists.specs.PinLists.{code_right, entry_right, pins_right, input_count};

// Whether a code is one of a pin list.
fn is_code(lastpin: u8, code: u8) -> bool
    ensures { result ≡ code_right lastpin code }
{
    (code < 128) & (code % 64 <= lastpin)
}

// Whether an entry may stand behind one of this clock and pin.
fn entry_right(lastpin: u8, clock: u32, pin: u8, time: u32, code: u8) -> bool
    ensures { result ≡ entry_right lastpin clock pin time code }
{
    is_code(lastpin, code) & ((clock < time) | ((clock == time) & (pin < code % 64)))
}

// Whether a pin list keeps its rule for a state of this clock. No pin is above the last, so the first entry is as one
// behind the last pin's input of the state's clock.
pub fn pins_right(lastpin: u8, clock: u32, clocks: &[u32], codes: &[u8]) -> bool
    ensures { result ≡ pins_right lastpin clock clocks.now codes.now }
{
    if clocks.len() != codes.len() {
        return false;
    }
    let mut last = clock;
    let mut pin = lastpin;
    for (&time, &code) in clocks.iter().zip(codes) {
        if !entry_right(lastpin, last, pin, time, code) {
            return false;
        }
        last = time;
        pin = code % 64;
    }
    true
}

// How many entries at the front of the list are inputs of this clock.
pub fn input_count(clock: u32, clocks: &[u32]) -> usize
    ensures { result ≡ input_count clock clocks.now }
{
    clocks.iter().take_while(|&&time| time == clock).count()
}
