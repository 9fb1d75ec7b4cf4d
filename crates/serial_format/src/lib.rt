// What the serial control register (SCCR) says, and what is sent of a byte.
#![tactic(auto)]

ghost use Rattle.std.specs.Prelude.{◌≡◌, ℕ, ◌^◌, ◌%◌, ◌-◌, eqb, length};
ghost use Rattle.bits.specs.Bits.{bit, one_where};
ghost use Rattle.bits.specs.Lists.{bits_of, odd_ones, number_of_bits};
ghost use Rattle.serial_format.specs.Format.{transmitter_shifts, receiver_shifts, receiver_asynchronous};
ghost use Rattle.serial_format.specs.Format.{receiver_shifting};
ghost use Rattle.serial_format.specs.Format.{holds_a, keeps_transmitter, keeps_receiver, width, has_parity};
ghost use Rattle.serial_format.specs.Format.{parity_bit};
ghost use Rattle.serial_format.specs.Format.{parity_and_stops, frame_bits, pace};

use bits::{bit8, one_where};

// What SCSR says: its bits.
pub mod scsr;

// The bits of SCCR, by number.
const TRANSMITTER_ON: u8 = 7;

const RECEIVER_ON: u8 = 6;

const TRANSMITTER_SHIFTS: u8 = 5;

const RECEIVER_SHIFTS: u8 = 4;

const PARITY: u8 = 1;

const EVEN: u8 = 0;

// Whether SCCR7 is set: the transmitter is on, and PA6 is its line.
pub fn transmitter_on(sccr: u8) -> bool
    ensures { result ≡ bit 7 sccr }
{
    bit8(sccr, TRANSMITTER_ON)
}

// Whether the transmitter, on or off, is in shift-register mode.
pub fn transmitter_shifts(sccr: u8) -> bool
    ensures { result ≡ transmitter_shifts sccr }
{
    bit8(sccr, TRANSMITTER_SHIFTS)
}

// Whether the receiver, on or off, is in shift-register mode.
fn receiver_shifts(sccr: u8) -> bool
    ensures { result ≡ receiver_shifts sccr }
{
    !bit8(sccr, TRANSMITTER_SHIFTS) & bit8(sccr, RECEIVER_SHIFTS)
}

// Whether the receiver is on and asynchronous.
pub fn receiver_asynchronous(sccr: u8) -> bool
    ensures { result ≡ receiver_asynchronous sccr }
{
    bit8(sccr, RECEIVER_ON) & !receiver_shifts(sccr)
}

// Whether the receiver is on and in shift-register mode.
pub fn receiver_shifting(sccr: u8) -> bool
    ensures { result ≡ receiver_shifting sccr }
{
    bit8(sccr, RECEIVER_ON) & receiver_shifts(sccr)
}

// Whether a write of SCCR over an old value keeps the transmitter's progress.
pub fn keeps_transmitter(old: u8, sccr: u8) -> bool
    ensures { result ≡ keeps_transmitter old sccr }
{
    transmitter_on(sccr) & !transmitter_shifts(sccr) & !transmitter_shifts(old)
}

// Whether a write of SCCR over an old value keeps the receiver's progress.
pub fn keeps_receiver(old: u8, sccr: u8) -> bool
    ensures { result ≡ keeps_receiver old sccr }
{
    receiver_asynchronous(sccr) & !receiver_shifts(old)
}

// Whether counter A is held to mode 00.
pub fn holds_counter(sccr: u8) -> bool
    ensures { result ≡ holds_a sccr }
{
    transmitter_on(sccr) | receiver_asynchronous(sccr)
}

// The number of data bits.
pub fn data_width(sccr: u8) -> u8
    ensures { result ≡ width sccr }
{
    8 - sccr / 4 % 4
}

// 2 to the number of data bits.
pub fn data_values(sccr: u8) -> u16
    ensures { result ≡ 2 ^ width sccr }
{
    1 << data_width(sccr)
}

// Whether a frame has a parity bit.
pub fn has_parity(sccr: u8) -> bool
    ensures { result ≡ has_parity sccr }
{
    bit8(sccr, PARITY)
}

// 1 where a frame has a parity bit.
pub fn parity_size(sccr: u8) -> u8
    ensures { result ≡ one_where (has_parity sccr) }
{
    one_where(has_parity(sccr))
}

// Whether a byte has an odd number of ones.
pub fn odd_ones(x: u8) -> bool
    ensures { result ≡ odd_ones (bits_of 8 x) }
{
    let nibble = (x / 16) ^ (x % 16);
    let pair = (nibble / 4) ^ (nibble % 4);
    ((pair / 2) ^ (pair % 2)) == 1
}

// The parity bit of a byte.
pub fn parity_bit(sccr: u8, byte: u8) -> bool
    ensures { result ≡ parity_bit sccr (bits_of 8 byte) }
{
    let odd = odd_ones(byte);
    if bit8(sccr, EVEN) { odd } else { !odd }
}

// What follows the data bits, as a number: parity and one stop, or two stops.
pub fn frame_ending(sccr: u8, byte: u8) -> u16
    ensures { result ≡ number_of_bits (parity_and_stops sccr (bits_of 8 byte)) }
{
    if has_parity(sccr) {
        return one_where(parity_bit(sccr, byte)) as u16 + 2;
    }
    3
}

// The frame of a byte, as a number: its first bit lowest.
pub fn frame(sccr: u8, byte: u8) -> u16
    ensures { result ≡ number_of_bits (frame_bits sccr byte) }
{
    let values = data_values(sccr);
    let data = byte as u16 % values;
    let ending = frame_ending(sccr, data as u8);
    (data + values * ending) * 2
}

// The number of bits of a frame: start, data, and two more.
pub fn frame_length(sccr: u8, byte: u8) -> u8
    ensures { result ≡ length (frame_bits sccr byte) }
{
    data_width(sccr) + 3
}

// Whether a tick that makes this phase is the last of a bit.
pub fn ends_bit(sccr: u8, phase: u8) -> bool
    ensures { result ≡ eqb (phase % pace sccr) 0 }
{
    if transmitter_shifts(sccr) {
        return phase % 2 == 0;
    }
    phase % 16 == 0
}
