// Reads of the registers at 00h to 3Fh.
ghost use Rattle.std.specs.Prelude.{◌≡◌};
ghost use Rattle.r6501q_registers.specs.Read.{port_value, register_value, received_read, after_read};

use crate::addresses::{
    FLAG_CLEAR, INTERRUPT_ENABLE, INTERRUPT_FLAGS, LOWER_A, LOWER_B, MODE_CONTROL, PORT_A, PORT_B,
    PORT_C, PORT_D, SERIAL_CONTROL, SERIAL_DATA, SERIAL_STATUS, START_A, START_B, UPPER_A, UPPER_B,
};
use r6501q_state::state::Peripherals;

// The value read, and what the read leaves.
#[derive(Clone, Copy)]
pub struct Reading {
    pub value: u8,
    pub peripherals: Peripherals,
}

// What a port reads as: its latch for a read-modify-write instruction, else its pins, the lowest byte of `levels`.
fn port_value(modify: bool, latched: u8, levels: u32) -> u8
    ensures { result ≡ port_value modify latched levels }
{
    if modify {
        latched
    } else {
        (levels % 256) as u8
    }
}

// What a register reads as, given step 1's levels; `modify` for the read of a read-modify-write instruction.
pub fn value(p: Peripherals, levels: u32, modify: bool, address: u16) -> u8
    ensures { result ≡ register_value p levels modify address }
{
    match address {
        START_B => bits::low_byte(p.counterb.count),
        UPPER_B => bits::high_byte(p.counterb.count),
        LOWER_B => bits::low_byte(p.counterb.count),
        START_A => bits::low_byte(p.countera.count),
        UPPER_A => bits::high_byte(p.countera.count),
        LOWER_A => bits::low_byte(p.countera.count),
        SERIAL_DATA => p.serial.received,
        SERIAL_STATUS => p.control.scsr,
        SERIAL_CONTROL => p.control.sccr,
        MODE_CONTROL => p.control.mcr,
        INTERRUPT_ENABLE => p.control.ier,
        INTERRUPT_FLAGS => p.control.flags(),
        FLAG_CLEAR => 0xFF,
        PORT_D => port_value(modify, p.ports.d, levels / 0x1000000),
        PORT_C => port_value(modify, p.ports.c, levels / 0x10000),
        PORT_B => port_value(modify, p.ports.b, levels / 0x100),
        PORT_A => port_value(modify, p.ports.a, levels),
        _ => 0xFF,
    }
}

// The status once the data received has been read.
fn received_read(scsr: u8) -> u8
    ensures { result ≡ received_read scsr }
{
    let lower = bits::with_bit(bits::with_bit(scsr, 0, false), 1, false);
    bits::with_bit(bits::with_bit(lower, 2, false), 3, false)
}

// The effect of a read: flags cleared.
pub fn after_read(mut p: Peripherals, address: u16) -> Peripherals
    ensures { result ≡ after_read p address }
{
    if address == LOWER_B {
        let flags = bits::with_bit(p.control.ifr, 5, false);
        p.control.ifr = flags;
        return p;
    }
    if address == LOWER_A {
        let flags = bits::with_bit(p.control.ifr, 4, false);
        p.control.ifr = flags;
        return p;
    }
    if address == SERIAL_DATA {
        let status = received_read(p.control.scsr);
        p.control.scsr = status;
        return p;
    }
    p
}
