// The receiver.
#![tactic(auto)]

ghost use Rattle.std.specs.Prelude.{◌≡◌, ◌-◌};
ghost use Rattle.bits.specs.Bits.{one_where};
ghost use Rattle.serial_format.specs.Format.{width, has_parity};
ghost use Rattle.serial_receiver.specs.Receiver.{idle_receiver, bits_after_start, start_detected, received_byte, wrong_parity};
ghost use Rattle.serial_receiver.specs.Receiver.{scsr_after, with_level, kept_with, frame_ended, look_taken, looked};
ghost use Rattle.serial_receiver.specs.Receiver.{receive_tick, shifted_at_rise, byte_ended, receive_rise, receiver_clock};
ghost use Rattle.serial_receiver.specs.Receiver.{receiver_with_sccr};

use bits::{bit8, set_where};
use counters::time::Ticks;
use serial_format::scsr::{FRAMING_ERROR, OVERRUN, PARITY_ERROR, RECEIVER_FULL};
use serial_format::{
    data_values, data_width, has_parity, keeps_receiver, parity_bit, parity_size,
    receiver_asynchronous, receiver_shifting,
};

// The places of stop and parity in a whole frame, by weight.
const STOP: u16 = 1024;

const PARITY_PLACE: u16 = 512;

// The place of the lowest bit of a byte that came at rises of PA4, by weight.
const BYTE: u16 = 8;

// The sub-interval, whether the next tick makes a look, the bits left to come, and the bits, the last one in bit 10.
#[repr(C)]
#[derive(Clone, Copy, PartialEq, Eq)]
pub struct Receiver {
    pub subinterval: u8,
    pub half: bool,
    pub left: u8,
    pub register: u16,
}

// The receiver, the status register and the data received after a clock. The methods that make it have all three as
// parameters: as methods of this struct they took four parts in a hundred more host instructions a clock.
#[derive(Clone, Copy)]
pub struct Receiving {
    pub receiver: Receiver,
    pub scsr: u8,
    pub received: u8,
}

// The receiver with no progress.
pub fn idle_receiver() -> Receiver
    ensures { result ≡ idle_receiver }
{
    Receiver {
        subinterval: 0,
        half: false,
        left: 0,
        register: 0,
    }
}

// The bits of a frame after its start.
fn bits_after_start(sccr: u8) -> u8
    ensures { result ≡ bits_after_start sccr }
{
    data_width(sccr) + parity_size(sccr) + 1
}

// How many bits stand below the data: those of the register under stop and parity.
fn data_place(sccr: u8) -> u16
    ensures { result ≡ 10 - one_where (has_parity sccr) - width sccr }
{
    (10 - parity_size(sccr) - data_width(sccr)) as u16
}

// The data of a whole frame.
fn byte_of(sccr: u8, register: u16) -> u8
    ensures { result ≡ received_byte sccr register }
{
    let place = data_place(sccr);
    let values = data_values(sccr);
    ((register >> place) % values) as u8
}

// Whether there is a parity bit, and it is wrong.
fn parity_is_wrong(sccr: u8, register: u16) -> bool
    ensures { result ≡ wrong_parity sccr register }
{
    let right = parity_bit(sccr, byte_of(sccr, register));
    let found = register / PARITY_PLACE % 2 == 1;
    has_parity(sccr) & (found != right)
}

// The status register at the end of a frame.
fn scsr_after(scsr: u8, wrong: bool, low: bool) -> u8
    ensures { result ≡ scsr_after scsr wrong low }
{
    if bit8(scsr, RECEIVER_FULL) {
        let overrun = set_where(scsr, OVERRUN, true);
        return set_where(set_where(overrun, PARITY_ERROR, wrong), FRAMING_ERROR, low);
    }
    let full = set_where(scsr, RECEIVER_FULL, !(wrong | low));
    set_where(set_where(full, PARITY_ERROR, wrong), FRAMING_ERROR, low)
}

// The register with a level shifted into bit 10.
pub fn with_level(register: u16, high: bool) -> u16
    ensures { result ≡ with_level register high }
{
    if high {
        register / 2 + STOP
    } else {
        register / 2
    }
}

impl Receiver {
    // A look with no bits left: the lows running, and a start.
    fn detect_start(mut self, sccr: u8, high: bool) -> Receiver
        ensures { result ≡ start_detected self sccr high }
    {
        if high {
            self.subinterval = 0;
            return self;
        }
        if self.subinterval < 3 {
            self.subinterval += 1;
            return self;
        }
        self.subinterval = 0;
        self.left = bits_after_start(sccr);
        self
    }

    // A byte kept where the last one was read.
    fn keep(self, byte: u8, status: u8, scsr: u8, received: u8) -> Receiving
        ensures { result ≡ kept_with byte self status scsr received }
    {
        if bit8(scsr, RECEIVER_FULL) {
            return Receiving {
                receiver: self,
                scsr: status,
                received,
            };
        }
        Receiving {
            receiver: self,
            scsr: status,
            received: byte,
        }
    }

    // The last bit of a frame is in.
    fn end_frame(self, sccr: u8, scsr: u8, received: u8) -> Receiving
        ensures { result ≡ frame_ended self sccr scsr received }
    {
        let wrong = parity_is_wrong(sccr, self.register);
        let status = scsr_after(scsr, wrong, self.register / STOP % 2 != 1);
        let byte = byte_of(sccr, self.register);
        self.keep(byte, status, scsr, received)
    }

    // A look with bits left.
    fn take_look(mut self, sccr: u8, scsr: u8, received: u8, high: bool) -> Receiving
        ensures { result ≡ look_taken self sccr scsr received high }
    {
        if self.subinterval < 7 {
            self.subinterval += 1;
            return Receiving {
                receiver: self,
                scsr,
                received,
            };
        }
        self.subinterval = 0;
        self.register = with_level(self.register, high);
        self.left = self.left.saturating_sub(1);
        if self.left == 0 {
            return self.end_frame(sccr, scsr, received);
        }
        Receiving {
            receiver: self,
            scsr,
            received,
        }
    }

    // A look at PA7.
    fn look(self, sccr: u8, scsr: u8, received: u8, high: bool) -> Receiving
        ensures { result ≡ looked self sccr scsr received high }
    {
        if self.left == 0 {
            return Receiving {
                receiver: self.detect_start(sccr, high),
                scsr,
                received,
            };
        }
        self.take_look(sccr, scsr, received, high)
    }

    // One tick of a receiver that is on: a look at every second one.
    fn tick(mut self, sccr: u8, scsr: u8, received: u8, high: bool) -> Receiving
        ensures { result ≡ receive_tick self sccr scsr received high }
    {
        if self.half {
            self.half = false;
            return self.look(sccr, scsr, received, high);
        }
        self.half = true;
        Receiving {
            receiver: self,
            scsr,
            received,
        }
    }

    // A level shifted in at a rise of PA4, the first of a byte making eight bits left.
    fn shift_at_rise(mut self, high: bool) -> Receiver
        ensures { result ≡ shifted_at_rise self high }
    {
        let register = with_level(self.register, high);
        if self.left == 0 {
            return Receiver {
                left: 7,
                register,
                ..self
            };
        }
        self.left -= 1;
        self.register = register;
        self
    }

    // The last bit of a byte is in.
    fn end_byte(self, scsr: u8, received: u8) -> Receiving
        ensures { result ≡ byte_ended self scsr received }
    {
        let status = scsr_after(scsr, false, false);
        let byte = (self.register / BYTE % 256) as u8;
        self.keep(byte, status, scsr, received)
    }

    // A rise of PA4, in shift-register mode.
    fn rise(self, scsr: u8, received: u8, high: bool) -> Receiving
        ensures { result ≡ receive_rise self scsr received high }
    {
        let next = self.shift_at_rise(high);
        if next.left == 0 {
            return next.end_byte(scsr, received);
        }
        Receiving {
            receiver: next,
            scsr,
            received,
        }
    }

    // The receiver after a clock with these ticks, with a rise of PA4 or none, and this level of PA7.
    pub fn clock(
        mut self,
        ticks: Ticks,
        rise: bool,
        sccr: u8,
        scsr: u8,
        received: u8,
        high: bool,
    ) -> Receiving
        ensures { result ≡ receiver_clock self ticks rise sccr scsr received high }
    {
        let ticked = ticks.0 != 0;
        let asynchronous = ticked & receiver_asynchronous(sccr);
        if asynchronous {
            return self.tick(sccr, scsr, received, high);
        }
        let shifting = rise & receiver_shifting(sccr);
        if shifting {
            return self.rise(scsr, received, high);
        }
        Receiving {
            receiver: self,
            scsr,
            received,
        }
    }

    // Its progress after a write of SCCR over an old value.
    pub fn with_sccr(self, old: u8, sccr: u8) -> Receiver
        ensures { result ≡ receiver_with_sccr old sccr self }
    {
        if keeps_receiver(old, sccr) {
            return self;
        }
        idle_receiver()
    }
}
