// The bits of the status register SCSR (source document 001, 5.3), by number.
pub const RECEIVER_FULL: u8 = 0;

pub const OVERRUN: u8 = 1;

pub const PARITY_ERROR: u8 = 2;

pub const FRAMING_ERROR: u8 = 3;

pub const END_OF_TRANSMISSION: u8 = 5;

pub const TRANSMITTER_EMPTY: u8 = 6;

pub const UNDERRUN: u8 = 7;
