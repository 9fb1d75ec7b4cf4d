// What the control registers say: the interrupt flags as read, and the counters' modes.
ghost use Rattle.std.specs.Prelude.{◌≡◌};
ghost use Rattle.r6501q_state.specs.Control.{receiver_flag, transmitter_flag, flags_of, pending, mode_in_force, mode_b};

use crate::state::Control;
use bits::bit8;
use counters::time::in_force;
use serial_format::holds_counter;
use serial_format::scsr::{
    END_OF_TRANSMISSION, FRAMING_ERROR, OVERRUN, PARITY_ERROR, RECEIVER_FULL, TRANSMITTER_EMPTY,
    UNDERRUN,
};

// IFR6.
fn receiver_flag(scsr: u8) -> bool
    ensures { result ≡ receiver_flag scsr }
{
    bit8(scsr, RECEIVER_FULL)
        | bit8(scsr, OVERRUN)
        | bit8(scsr, PARITY_ERROR)
        | bit8(scsr, FRAMING_ERROR)
}

// IFR7.
fn transmitter_flag(scsr: u8) -> bool
    ensures { result ≡ transmitter_flag scsr }
{
    bit8(scsr, TRANSMITTER_EMPTY) & (!bit8(scsr, END_OF_TRANSMISSION) | bit8(scsr, UNDERRUN))
}

impl Control {
    // The interrupt flags, with those of the serial channel.
    pub fn flags(self) -> u8
        ensures { result ≡ flags_of self }
    {
        let receiver = receiver_flag(self.scsr);
        let transmitter = transmitter_flag(self.scsr);
        bits::with_bit(bits::with_bit(self.ifr, 6, receiver), 7, transmitter)
    }

    // Whether a flag that is enabled is set.
    pub fn pending(self) -> bool
        ensures { result ≡ pending self }
    {
        self.flags() & self.ier != 0
    }

    // Counter A's mode in force.
    pub fn mode_a(self) -> u8
        ensures { result ≡ mode_in_force self }
    {
        in_force(holds_counter(self.sccr), self.mcr % 4)
    }

    // Counter B's mode.
    pub fn mode_b(self) -> u8
        ensures { result ≡ mode_b self.mcr }
    {
        self.mcr / 4 % 4
    }
}
