// The addresses of the registers (source document 001, C.1).

pub const PORT_A: u16 = 0x00;

pub const PORT_B: u16 = 0x01;

pub const PORT_C: u16 = 0x02;

pub const PORT_D: u16 = 0x03;

// "Clear Int Flag (Bits 0-3 only ..)".
pub const FLAG_CLEAR: u16 = 0x10;

pub const INTERRUPT_FLAGS: u16 = 0x11;

pub const INTERRUPT_ENABLE: u16 = 0x12;

pub const MODE_CONTROL: u16 = 0x14;

pub const SERIAL_CONTROL: u16 = 0x15;

pub const SERIAL_STATUS: u16 = 0x16;

// Data received, data to be sent.
pub const SERIAL_DATA: u16 = 0x17;

// The lower byte of counter A, or of its latch.
pub const LOWER_A: u16 = 0x18;

// The upper byte.
pub const UPPER_A: u16 = 0x19;

// The upper latch, and the counter from its latch.
pub const START_A: u16 = 0x1A;

// The lower byte of counter B, or of latch B.
pub const LOWER_B: u16 = 0x1C;

// The upper byte, and latch C from latch B.
pub const UPPER_B: u16 = 0x1D;

// The upper latch, and the counter from its latch.
pub const START_B: u16 = 0x1E;
