// One clock, in document 01's order: inputs and pins, counters, serial channel, CPU, output record (document 01, "One
// clock").
#![tactic(auto)]

ghost use Rattle.std.specs.Prelude.{◌≡◌, ◌<◌};
ghost use Rattle.refusals.specs.Refusals.{last_clock};
ghost use Rattle.r6501q_clock.specs.Clock.{with_inputs, count_a, count_b, sent_by, heard_by, peripherals_clock};
ghost use Rattle.r6501q_clock.specs.Clock.{before_cpu};
ghost use Rattle.r6501q_clock.specs.Clock.{finished, clock_of};

use counters::time::{Ticks, ticks_of, toggles_output};
use cpu_access::stack::Writes;
use r6501q_cpu::Next;
use r6501q_state::pins::pin_rose;
use r6501q_state::state::{Levels, Peripherals, State};
use stops::Stop;

// A clock that is done: the state after it, what it writes, and the driven word where that differs, its output record.
#[derive(Clone, Copy)]
pub struct Ended {
    pub state: State,
    pub writes: Writes,
    pub output: Option<u32>,
}

// The peripherals after counter A, and the clock's ticks.
#[derive(Clone, Copy)]
pub struct Counted {
    pub peripherals: Peripherals,
    pub ticks: Ticks,
}

// The external levels after a clock's inputs.
fn apply_inputs(levels: Levels, codes: &[u8]) -> Levels
    ensures { result ≡ with_inputs levels codes.now }
{
    let mut set = levels;
    for code in codes {
        set = set.input(*code);
    }
    set
}

// Step 2 for counter A.
fn count_a(mut p: Peripherals, before: u32, after: u32) -> Counted
    ensures { result ≡ count_a p before after }
{
    let mode = p.control.mode_a();
    let counted = p
        .countera
        .clock(mode, pin_rose(4, before, after), !bits::bit32(after, 4));
    let flags = bits::set_where(p.control.ifr, 4, counted.underflow);
    let latch = bits::flip_where(p.ports.a, 4, toggles_output(mode, counted.underflow));
    let counter = counted.counter;
    p.countera = counter;
    p.control.ifr = flags;
    p.ports.a = latch;
    Counted {
        peripherals: p,
        ticks: ticks_of(counted.underflow),
    }
}

// Step 2 for counter B.
fn count_b(mut p: Peripherals, before: u32, after: u32) -> Peripherals
    ensures { result ≡ count_b p before after }
{
    let mode = p.control.mode_b();
    let counted = p.counterb.clock(mode, pin_rose(5, before, after));
    let flags = bits::set_where(p.control.ifr, 5, counted.underflow);
    let latch = bits::flip_where(p.ports.a, 5, toggles_output(mode, counted.underflow));
    let counter = counted.counter;
    p.counterb = counter;
    p.control.ifr = flags;
    p.ports.a = latch;
    p
}

// Step 3 for the transmitter.
fn send(mut p: Peripherals, ticks: Ticks) -> Peripherals
    ensures { result ≡ sent_by p ticks }
{
    let sending = p
        .transmitter
        .clock(ticks, p.control.sccr, p.control.scsr, p.serial.sent);
    let transmitter = sending.transmitter;
    let status = sending.scsr;
    p.transmitter = transmitter;
    p.control.scsr = status;
    p
}

// Step 3 for the receiver.
fn receive(mut p: Peripherals, ticks: Ticks, before: u32, after: u32) -> Peripherals
    ensures { result ≡ heard_by p ticks before after }
{
    let rise = pin_rose(4, before, after);
    let high = bits::bit32(after, 7);
    let receiving = p.receiver.clock(
        ticks,
        rise,
        p.control.sccr,
        p.control.scsr,
        p.serial.received,
        high,
    );
    let receiver = receiving.receiver;
    let status = receiving.scsr;
    let received = receiving.received;
    p.receiver = receiver;
    p.control.scsr = status;
    p.serial.received = received;
    p
}

// Steps 2 and 3, given the port levels before step 1 and after it.
fn clock_peripherals(p: Peripherals, before: u32, after: u32) -> Peripherals
    ensures { result ≡ peripherals_clock p before after }
{
    let counted = count_a(p, before, after);
    let ticks = counted.ticks;
    let both = count_b(counted.peripherals, before, after);
    receive(send(both, ticks), ticks, before, after)
}

// Steps 1 to 3 of a clock, given the codes of its inputs.
pub fn before_cpu(s: State, codes: &[u8]) -> State
    requires { s.clock < 4294967295 }
    ensures { result ≡ before_cpu s codes.now }
{
    let before = s.last.ports;
    let external = apply_inputs(s.external, codes);
    let mut begun = s;
    begun.external = external;
    begun.clock += 1;
    let mut sensed = begun.sense();
    let peripherals = clock_peripherals(sensed.peripherals, before, sensed.last.ports);
    sensed.peripherals = peripherals;
    sensed
}

// A record that is needed must find a free entry.
fn finish(next: Next, output: Option<u32>, free: bool) -> Result<Ended, Stop>
    ensures { result ≡ finished next output free }
{
    let full = output.is_some() & !free;
    if full {
        return Err(Stop::Full);
    }
    let state = next.state;
    let writes = next.writes;
    Ok(Ended {
        state: state,
        writes: writes,
        output: output,
    })
}

// Steps 1 to 5 of a clock, given the codes of its inputs and whether an output entry is free.
pub fn clock(s: State, codes: &[u8], memory: &[u8], free: bool) -> Result<Ended, Stop>
    requires { s.clock < last_clock }
    ensures { result ≡ clock_of s codes.now memory.now free }
{
    let before = s.peripherals.driven_word();
    let next = r6501q_process::process(before_cpu(s, codes), memory)?;
    let word = next.state.peripherals.driven_word();
    let output = (word != before).then_some(word);
    finish(next, output, free)
}
