// What a call checks before anything else (document 01, "What is handed back", 1 to 5), of any chip.
#![tactic(auto)]

ghost use Rattle.std.specs.Prelude.{◌≡◌, ◌+◌, ltb};
ghost use Rattle.refusals.specs.Refusals.{last_clock, number_of, number_in, refusal_of};

use pin_lists::pins_right;

// What chips differ in: the bytes of a memory, and the last pin.
#[derive(Clone, Copy)]
pub struct Limits {
    pub memory: usize,
    pub pin: u8,
}

// Why a call is refused.
#[derive(Clone, Copy, PartialEq, Eq, Debug)]
pub enum Refusal {
    MemoryLength,
    MalformedState,
    UnpairedLists,
    PastLastClock,
    BrokenPinList,
    PageList,
}

// Its number.
impl From<Refusal> for u8 {
    ghost from_gives = { λ refusal number. number ≡ number_of refusal };

    fn from(refusal: Refusal) -> u8 {
        match refusal {
            Refusal::MemoryLength => 1,
            Refusal::MalformedState => 2,
            Refusal::UnpairedLists => 3,
            Refusal::PastLastClock => 4,
            Refusal::BrokenPinList => 5,
            Refusal::PageList => 13,
        }
    }
}

// The last clock.
const LAST_CLOCK: u32 = 4294967295;

// Whether n more clocks would pass the last one.
fn passes_last(clock: u32, n: u32) -> bool
    ensures { result ≡ ltb last_clock (clock + n) }
{
    LAST_CLOCK - clock < n
}

// The first check that fails: of a state that is well-formed or not and is at this clock, a memory of `bytes` bytes, the
// input lists, output lists of `times` and `words` entries, and n clocks.
pub fn check(
    limits: Limits,
    formed: bool,
    clock: u32,
    bytes: usize,
    clocks: &[u32],
    codes: &[u8],
    times: usize,
    words: usize,
    n: u32,
) -> Result<(), Refusal>
    ensures { number_in result ≡ refusal_of limits formed clock bytes clocks.now codes.now times words n }
{
    let unpaired = (clocks.len() != codes.len()) | (times != words);
    if bytes != limits.memory {
        return Err(Refusal::MemoryLength);
    }
    if !formed {
        return Err(Refusal::MalformedState);
    }
    if unpaired {
        return Err(Refusal::UnpairedLists);
    }
    if passes_last(clock, n) {
        return Err(Refusal::PastLastClock);
    }
    if !pins_right(limits.pin, clock, clocks, codes) {
        return Err(Refusal::BrokenPinList);
    }
    Ok(())
}
