// The smallest latch value of counter A for a wanted bit rate (document 02, U2 and U9), of asynchronous frames: a bit
// takes 16 underflows, and counter A underflows each N + 1 clocks where its latch is N.
#![tactic(auto)]

ghost use Rattle.std.specs.Prelude.{◌≡◌};
ghost use Rattle.bit_rate.specs.BitRate.{out_of_limits, latch_for};

// A rate is 0, or a figure is above its limit.
#[derive(Clone, Copy, PartialEq, Eq, Debug)]
pub struct OutOfLimits;

// Its number.
impl From<OutOfLimits> for u8 {
    ghost from_gives = { λ _ number. number ≡ 11 };

    fn from(_: OutOfLimits) -> u8 {
        11
    }
}

// The highest clock rate and bit rate, and the highest tolerance.
const HIGHEST_RATE: u32 = 10000000;

const HIGHEST_TOLERANCE: u32 = 1000;

// The clocks of an underflow with the highest latch value, 65,535.
const MOST_CLOCKS: u64 = 65536;

// Whether a rate is 0, or a figure above its limit.
fn out_of_limits(clockrate: u32, bitrate: u32, tolerance: u32) -> bool
    ensures { result ≡ out_of_limits clockrate bitrate tolerance }
{
    (clockrate == 0)
        | (bitrate == 0)
        | (HIGHEST_RATE < clockrate)
        | (HIGHEST_RATE < bitrate)
        | (HIGHEST_TOLERANCE < tolerance)
}

// The smallest latch value for a clock rate, a bit rate and a tolerance in thousandths, or none. A value N fits where
// its N + 1 clocks are enough, which holds from some count upward, and not too many, which holds downward: the least
// count that is enough decides. Rates are taken in thousandths.
pub fn latch(clockrate: u32, bitrate: u32, tolerance: u32) -> Result<Option<u16>, OutOfLimits>
    ensures { result ≡ latch_for clockrate bitrate tolerance }
{
    if out_of_limits(clockrate, bitrate, tolerance) {
        return Err(OutOfLimits);
    }
    let rate = 1000 * (clockrate as u64);
    let underflows = 16 * (bitrate as u64);
    let fastest = (1000 + (tolerance as u64)) * underflows;
    let slowest = (1000 - (tolerance as u64)) * underflows;
    let clocks = (rate + fastest - 1) / fastest;
    if MOST_CLOCKS < clocks {
        return Ok(None);
    }
    if rate < slowest * clocks {
        return Ok(None);
    }
    Ok(Some((clocks - 1) as u16))
}
