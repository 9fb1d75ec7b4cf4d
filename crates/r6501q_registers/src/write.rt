// Writes of the registers at 00h to 3Fh.
ghost use Rattle.std.specs.Prelude.{◌≡◌, ◌<◌};
ghost use Rattle.r6501q_registers.specs.Write.{start_b, start_a, write_data, write_scsr, entering, zeroed, write_sccr};
ghost use Rattle.r6501q_registers.specs.Write.{write_mcr, kept_flag, kept_flags, write_of};

use crate::addresses::{
    FLAG_CLEAR, INTERRUPT_ENABLE, LOWER_A, LOWER_B, MODE_CONTROL, PORT_A, PORT_B, PORT_C, PORT_D,
    SERIAL_CONTROL, SERIAL_DATA, SERIAL_STATUS, START_A, START_B, UPPER_A, UPPER_B,
};
use r6501q_state::state::{Control, Peripherals};

// 1Eh: the upper latch, and counter B started.
fn start_b(mut p: Peripherals, value: u8) -> Peripherals
    ensures { result ≡ start_b p value }
{
    let counter = p.counterb.with_upper(value).load();
    let mode = p.control.mode_b();
    let flags = bits::with_bit(p.control.ifr, 5, false);
    p.control.ifr = flags;
    if mode == 1 {
        let turned = counter.turn_to_c();
        let latch = bits::with_bit(p.ports.a, 5, false);
        p.counterb = turned;
        p.ports.a = latch;
        return p;
    }
    p.counterb = counter;
    p
}

// 1Ah: the upper latch, and counter A started.
fn start_a(mut p: Peripherals, value: u8) -> Peripherals
    ensures { result ≡ start_a p value }
{
    let counter = p.countera.with_upper(value).load();
    let mode = p.control.mode_a();
    p.countera = counter;
    let flags = bits::with_bit(p.control.ifr, 4, false);
    let latch = bits::flip_where(p.ports.a, 4, mode == 1);
    p.control.ifr = flags;
    p.ports.a = latch;
    p
}

fn write_data(mut p: Peripherals, value: u8) -> Peripherals
    ensures { result ≡ write_data p value }
{
    let waiting = bits::with_bit(bits::with_bit(p.control.scsr, 5, false), 6, false);
    let status = bits::with_bit(waiting, 7, false);
    p.control.scsr = status;
    p.serial.sent = value;
    p
}

fn write_scsr(mut p: Peripherals, value: u8) -> Peripherals
    ensures { result ≡ write_scsr p value }
{
    let woken = bits::with_bit(p.control.scsr, 4, bits::bit8(value, 4));
    let status = bits::with_bit(woken, 5, bits::bit8(value, 5));
    p.control.scsr = status;
    p
}

// Control registers that may make counter A enter pulse mode, which sets PA4's latch.
fn entering_mode(mut p: Peripherals, control: Control) -> Peripherals
    ensures { result ≡ entering p control }
{
    let before = p.control.mode_a();
    let after = control.mode_a();
    let entered = (after == 1) & (before != 1);
    let latch = bits::set_where(p.ports.a, 4, entered);
    p.ports.a = latch;
    p.control = control;
    p
}

// Progress zeroed in each half that SCCR has off or in shift-register mode, or had in it.
fn zero_progress(mut p: Peripherals, old: u8, sccr: u8) -> Peripherals
    ensures { result ≡ zeroed p old sccr }
{
    let transmitter = p.transmitter.with_sccr(old, sccr);
    let receiver = p.receiver.with_sccr(old, sccr);
    p.transmitter = transmitter;
    p.receiver = receiver;
    p
}

fn write_sccr(p: Peripherals, value: u8) -> Peripherals
    ensures { result ≡ write_sccr p value }
{
    let mut control = p.control;
    control.sccr = value;
    let entered = entering_mode(p, control);
    zero_progress(entered, p.control.sccr, value)
}

fn write_mcr(p: Peripherals, value: u8) -> Peripherals
    ensures { result ≡ write_mcr p value }
{
    let mut control = p.control;
    control.mcr = value;
    entering_mode(p, control)
}

// A flag of the IFR, cleared where a zero is written.
fn kept_flag(k: u8, value: u8, ifr: u8) -> u8
    requires { k < 8 }
    ensures { result ≡ kept_flag k value ifr }
{
    if bits::bit8(value, k) {
        ifr
    } else {
        bits::with_bit(ifr, k, false)
    }
}

fn kept_flags(value: u8, ifr: u8) -> u8
    ensures { result ≡ kept_flags value ifr }
{
    let lower = kept_flag(1, value, kept_flag(0, value, ifr));
    kept_flag(3, value, kept_flag(2, value, lower))
}

// A write of a register.
pub fn write(mut p: Peripherals, address: u16, value: u8) -> Peripherals
    ensures { result ≡ write_of p address value }
{
    match address {
        START_B => start_b(p, value),
        UPPER_B => {
            let counter = p.counterb.with_upper(value).copy_latch();
            p.counterb = counter;
            p
        }
        LOWER_B => {
            let counter = p.counterb.with_lower(value);
            p.counterb = counter;
            p
        }
        START_A => start_a(p, value),
        UPPER_A => {
            let counter = p.countera.with_upper(value);
            p.countera = counter;
            p
        }
        LOWER_A => {
            let counter = p.countera.with_lower(value);
            p.countera = counter;
            p
        }
        SERIAL_DATA => write_data(p, value),
        SERIAL_STATUS => write_scsr(p, value),
        SERIAL_CONTROL => write_sccr(p, value),
        MODE_CONTROL => write_mcr(p, value),
        INTERRUPT_ENABLE => {
            p.control.ier = value;
            p
        }
        FLAG_CLEAR => {
            let flags = kept_flags(value, p.control.ifr);
            p.control.ifr = flags;
            p
        }
        PORT_D => {
            p.ports.d = value;
            p
        }
        PORT_C => {
            p.ports.c = value;
            p
        }
        PORT_B => {
            p.ports.b = value;
            p
        }
        PORT_A => {
            p.ports.a = value;
            p
        }
        _ => p,
    }
}
