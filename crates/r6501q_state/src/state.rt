// The machine state (document 01, "Machine state"): nested structs by value.
ghost use Rattle.std.specs.Prelude.{◌≡◌};
ghost use Rattle.r6501q_state.specs.Copies.{waiting_at};
ghost use Rattle.r6501q_state.specs.State.{fresh_cpu, fresh_ports, fresh_control, fresh_peripherals, fresh_levels};
ghost use Rattle.r6501q_state.specs.State.{fresh, well_formed};

use counters::a::CounterA;
use counters::b::CounterB;
use cpu_access::stack::Write;
use serial_receiver::{Receiver, idle_receiver};
use serial_transmitter::{Transmitter, idle_transmitter};

// The CPU's registers, the clocks that the present instruction still takes, and the byte that it puts on the last.
#[derive(Clone, Copy, PartialEq, Eq)]
pub struct Cpu {
    pub a: u8,
    pub x: u8,
    pub y: u8,
    pub sp: u8,
    pub p: u8,
    pub pc: u16,
    pub wait: u8,
    pub waiting: Option<Write>,
}

// The entries that are due.
#[repr(C)]
#[derive(Clone, Copy, PartialEq, Eq)]
pub struct Due {
    pub reset: bool,
    pub nmi: bool,
}

// The port output latches.
#[repr(C)]
#[derive(Clone, Copy, PartialEq, Eq)]
pub struct Ports {
    pub a: u8,
    pub b: u8,
    pub c: u8,
    pub d: u8,
}

// Interrupt flags (bits 0 to 5) and enables, mode control, serial control and status.
#[repr(C)]
#[derive(Clone, Copy, PartialEq, Eq)]
pub struct Control {
    pub ifr: u8,
    pub ier: u8,
    pub mcr: u8,
    pub sccr: u8,
    pub scsr: u8,
}

// The serial data to be sent and the data received.
#[repr(C)]
#[derive(Clone, Copy, PartialEq, Eq)]
pub struct SerialData {
    pub sent: u8,
    pub received: u8,
}

// All that stands behind the registers.
#[repr(C)]
#[derive(Clone, Copy, PartialEq, Eq)]
pub struct Peripherals {
    pub ports: Ports,
    pub countera: CounterA,
    pub counterb: CounterB,
    pub control: Control,
    pub serial: SerialData,
    pub transmitter: Transmitter,
    pub receiver: Receiver,
}

// The levels of the 34 pins: PA0 in bit 0 of ports, PD7 in bit 31.
#[repr(C)]
#[derive(Clone, Copy, PartialEq, Eq)]
pub struct Levels {
    pub ports: u32,
    pub nmi: bool,
    pub res: bool,
}

// The whole chip.
#[derive(Clone, Copy, PartialEq, Eq)]
pub struct State {
    pub cpu: Cpu,
    pub due: Due,
    pub peripherals: Peripherals,
    pub external: Levels,
    pub last: Levels,
    pub clock: u32,
}

fn fresh_cpu() -> Cpu
    ensures { result ≡ fresh_cpu }
{
    Cpu {
        a: 0,
        x: 0,
        y: 0,
        sp: 255,
        p: 4,
        pc: 0,
        wait: 0,
        waiting: None,
    }
}

// The port latches at a reset.
pub fn fresh_ports() -> Ports
    ensures { result ≡ fresh_ports }
{
    Ports {
        a: 255,
        b: 255,
        c: 255,
        d: 255,
    }
}

// The control registers at a reset.
pub fn fresh_control() -> Control
    ensures { result ≡ fresh_control }
{
    Control {
        ifr: 0,
        ier: 0,
        mcr: 0,
        sccr: 0,
        scsr: 64,
    }
}

fn fresh_peripherals() -> Peripherals
    ensures { result ≡ fresh_peripherals }
{
    Peripherals {
        ports: fresh_ports(),
        countera: CounterA {
            count: 65535,
            latch: 65535,
        },
        counterb: CounterB {
            count: 65535,
            latchb: 65535,
            latchc: 65535,
            turnc: true,
        },
        control: fresh_control(),
        serial: SerialData {
            sent: 0,
            received: 0,
        },
        transmitter: idle_transmitter(),
        receiver: idle_receiver(),
    }
}

// All levels high but RES: a fresh chip is held.
fn fresh_levels() -> Levels
    ensures { result ≡ fresh_levels }
{
    Levels {
        ports: 4294967295,
        nmi: true,
        res: false,
    }
}

impl Cpu {
    // With so many clocks to wait, and this byte waiting.
    pub fn waiting_at(self, wait: u8, waiting: Option<Write>) -> Cpu
        ensures { result ≡ waiting_at self wait waiting }
    {
        Cpu {
            a: self.a,
            x: self.x,
            y: self.y,
            sp: self.sp,
            p: self.p,
            pc: self.pc,
            wait: wait,
            waiting: waiting,
        }
    }
}

// A chip that has not run yet. RES is low, and a CPU start waits until an input makes it high.
pub fn fresh_state() -> State
    ensures { result ≡ fresh }
{
    State {
        cpu: fresh_cpu(),
        due: Due {
            reset: true,
            nmi: false,
        },
        peripherals: fresh_peripherals(),
        external: fresh_levels(),
        last: fresh_levels(),
        clock: 0,
    }
}

// Whether every field is within its range, and no byte waits with wait 0. What is not tested here has its range by its
// type.
pub fn well_formed(s: State) -> bool
    ensures { result ≡ well_formed s }
{
    let waits = s.cpu.waiting.is_some();
    (s.cpu.p / 16 % 4 == 0)
        & (s.cpu.wait <= 6)
        & !(waits & (s.cpu.wait == 0))
        & ((s.peripherals.control.ifr < 64)
            & ((s.peripherals.transmitter.left <= 12)
                & (s.peripherals.transmitter.phase <= 15)
                & (s.peripherals.transmitter.register < 4096))
            & ((s.peripherals.receiver.subinterval <= 7)
                & (s.peripherals.receiver.left <= 11)
                & (s.peripherals.receiver.register < 2048)))
}
