// What the chip drives, the pins' levels and their edges, and RES low.
ghost use Rattle.std.specs.Prelude.{◌≡◌, ◌<◌};
ghost use Rattle.r6501q_state.specs.Pins.{drive_a, drive_d, word_of, driven_word, levels_of, rose, fell, edges};
ghost use Rattle.r6501q_state.specs.Pins.{reset_peripherals, reset_of, with_edges, sensed};

use crate::state::{Levels, Peripherals, State, fresh_control, fresh_ports};
use serial_format::{transmitter_on, transmitter_shifts};
use serial_receiver::idle_receiver;
use serial_transmitter::idle_transmitter;

// MCR5, which makes port D an output.
const PORT_D_OUTPUT: u8 = 5;

// Four ports as a word.
fn word_of(a: u8, b: u8, c: u8, d: u8) -> u32
    ensures { result ≡ word_of a b c d }
{
    a as u32 + b as u32 * 0x100 + c as u32 * 0x10000 + d as u32 * 0x1000000
}

impl Peripherals {
    // Port A's drive.
    fn drive_a(self) -> u8
        ensures { result ≡ drive_a self }
    {
        if transmitter_on(self.control.sccr) {
            let driven = bits::with_bit(self.ports.a, 6, self.transmitter.line_level());
            if transmitter_shifts(self.control.sccr) {
                return bits::with_bit(driven, 4, self.transmitter.shift_clock());
            }
            return driven;
        }
        self.ports.a
    }

    // Port D's drive.
    fn drive_d(self) -> u8
        ensures { result ≡ drive_d self }
    {
        if bits::bit8(self.control.mcr, PORT_D_OUTPUT) {
            return self.ports.d;
        }
        255
    }

    // The driven word.
    pub fn driven_word(self) -> u32
        ensures { result ≡ driven_word self }
    {
        let a = self.drive_a();
        let d = self.drive_d();
        word_of(a, self.ports.b, self.ports.c, d)
    }

    // RES low: ports, control registers and serial progress are fresh.
    fn reset(mut self) -> Peripherals
        ensures { result ≡ reset_peripherals self }
    {
        let ports = fresh_ports();
        let control = fresh_control();
        let transmitter = idle_transmitter();
        let receiver = idle_receiver();
        self.ports = ports;
        self.control = control;
        self.transmitter = transmitter;
        self.receiver = receiver;
        self
    }
}

// Whether a port pin rose.
pub fn pin_rose(pin: u32, before: u32, after: u32) -> bool
    requires { pin < 32 }
    ensures { result ≡ rose pin before after }
{
    let was = bits::bit32(before, pin);
    let is = bits::bit32(after, pin);
    !was & is
}

// Whether a port pin fell.
pub fn pin_fell(pin: u32, before: u32, after: u32) -> bool
    requires { pin < 32 }
    ensures { result ≡ fell pin before after }
{
    let was = bits::bit32(before, pin);
    let is = bits::bit32(after, pin);
    was & !is
}

// The interrupt flags with those of the edges of PA0 to PA3 set.
fn flag_edges(ifr: u8, before: u32, after: u32) -> u8
    ensures { result ≡ edges ifr before after }
{
    let first = bits::set_where(ifr, 0, pin_rose(0, before, after));
    let second = bits::set_where(first, 1, pin_rose(1, before, after));
    let third = bits::set_where(second, 2, pin_fell(2, before, after));
    bits::set_where(third, 3, pin_fell(3, before, after))
}

impl State {
    // The pins' levels.
    pub fn levels(self) -> Levels
        ensures { result ≡ levels_of self }
    {
        let driven = self.peripherals.driven_word();
        Levels {
            ports: driven & self.external.ports,
            nmi: self.external.nmi,
            res: self.external.res,
        }
    }

    // The edges recorded, and the levels kept.
    fn record_edges(mut self, now: Levels) -> State
        ensures { result ≡ with_edges self now }
    {
        let ifr = flag_edges(self.peripherals.control.ifr, self.last.ports, now.ports);
        let nmi = self.due.nmi | (self.last.nmi & !now.nmi);
        self.peripherals.control.ifr = ifr;
        self.due.nmi = nmi;
        self.last = now;
        self
    }

    // RES low.
    pub fn reset_low(mut self) -> State
        ensures { result ≡ reset_of self }
    {
        let peripherals = self.peripherals.reset();
        let cpu = self.cpu.waiting_at(0, None);
        self.cpu = cpu;
        self.due.reset = true;
        self.due.nmi = false;
        self.peripherals = peripherals;
        self
    }

    // Step 1 of a clock, once it is counted and its inputs have set the external levels.
    pub fn sense(mut self) -> State
        ensures { result ≡ sensed self }
    {
        let now = self.levels();
        let seen = self.record_edges(now);
        if now.res {
            return seen;
        }
        seen.reset_low()
    }
}
