// The transmitter over ticks that cannot be seen.
ghost use Rattle.std.specs.Prelude.{◌≡◌, true, ◌-◌, ◌≤◌};
ghost use Rattle.r6501q_unseen.specs.Ticks.{most_ticks, unseen_sends, sends, sent_after};

use crate::receiver::MOST_TICKS;
use serial_format::scsr::TRANSMITTER_EMPTY;
use serial_format::{transmitter_on, transmitter_shifts};
use serial_transmitter::Transmitter;

// Ticks that cannot be seen: before a bit ends, or all where no bit is left and no data waits.
pub fn unseen_sends(t: Transmitter, sccr: u8, scsr: u8) -> u32
    ensures { (result ≡ unseen_sends t sccr scsr) × (result ≤ most_ticks) }
{
    if !transmitter_on(sccr) {
        return MOST_TICKS;
    }
    if t.left == 0 {
        if bits::bit8(scsr, TRANSMITTER_EMPTY) {
            return MOST_TICKS;
        }
        return 0;
    }
    if transmitter_shifts(sccr) {
        return 0;
    }
    if t.phase < 15 {
        return 15 - t.phase as u32;
    }
    0
}

// The transmitter after such ticks.
pub fn sent_after(mut t: Transmitter, sccr: u8, ticks: u32) -> Transmitter
    requires { sends t sccr ≡ true → ticks ≤ 15 - t.phase }
    ensures { result ≡ sent_after ticks t sccr }
{
    let sends = transmitter_on(sccr) & (t.left != 0);
    if sends {
        t.phase = (t.phase as u32 + ticks) as u8;
        return t;
    }
    t
}
