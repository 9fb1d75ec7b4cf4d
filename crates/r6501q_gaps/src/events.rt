// Events that the next clock brings: pin levels unlike the last ones, and RES low where it changes a field.
ghost use Rattle.std.specs.Prelude.{◌≡◌};
ghost use Rattle.r6501q_events.specs.Events.{same_levels, levels_change, ports_fresh, control_fresh, transmitter_idle};
ghost use Rattle.r6501q_events.specs.Events.{receiver_idle, is_reset, reset_changes};

use r6501q_state::state::{Control, Levels, Ports, State, fresh_control, fresh_ports};
use serial_receiver::{Receiver, idle_receiver};
use serial_transmitter::{Transmitter, idle_transmitter};

// Whether two levels of the 34 pins are the same.
fn same_levels(a: Levels, b: Levels) -> bool
    ensures { result ≡ same_levels a b }
{
    a == b
}

// Whether the pins' levels are unlike the last ones.
pub fn levels_change(s: State) -> bool
    ensures { result ≡ levels_change s }
{
    let now = s.levels();
    !same_levels(now, s.last)
}

// Whether the port latches have their fresh values.
fn ports_fresh(p: Ports) -> bool
    ensures { result ≡ ports_fresh p }
{
    p == fresh_ports()
}

// Whether the control registers have their fresh values.
fn control_fresh(c: Control) -> bool
    ensures { result ≡ control_fresh c }
{
    c == fresh_control()
}

// Whether the transmitter's progress is 0.
fn transmitter_idle(t: Transmitter) -> bool
    ensures { result ≡ transmitter_idle t }
{
    t == idle_transmitter()
}

// Whether the receiver's progress is 0.
fn receiver_idle(t: Receiver) -> bool
    ensures { result ≡ receiver_idle t }
{
    t == idle_receiver()
}

// Whether RES low would change no field.
fn is_reset(s: State) -> bool
    ensures { result ≡ is_reset s }
{
    let ports = ports_fresh(s.peripherals.ports);
    let control = control_fresh(s.peripherals.control);
    let transmitter = transmitter_idle(s.peripherals.transmitter);
    let receiver = receiver_idle(s.peripherals.receiver);
    let waits = s.cpu.waiting.is_some();
    (s.cpu.wait == 0) & !waits & s.due.reset & !s.due.nmi & ports & control & transmitter & receiver
}

// Whether RES is low and changes a field.
pub fn reset_changes(s: State) -> bool
    ensures { result ≡ reset_changes s }
{
    if s.last.res {
        return false;
    }
    !is_reset(s)
}
