// Step 4 of a clock: the CPU on the state that steps 1 to 3 leave. Nothing is written to memory here.
#![tactic(auto)]

ghost use Rattle.std.specs.Prelude.{◌≡◌, ◌<◌};
ghost use Rattle.r6501q_cpu.specs.Processor.{irq_due, reset_start, nmi_start, irq_start, start_of, without_writes, wait_less};
ghost use Rattle.r6501q_cpu.specs.Processor.{byte_put, waited_by, processor_of};

use cpu::entries::{interrupt_entry, reset_entry};
use cpu_access::stack::{Write, no_writes, one_write};
use cpu_access::{IRQ_VECTOR, NMI_VECTOR};
use r6501q_cpu::{Next, answered_instruction, next_state, put_register, registers_of};
use r6501q_state::state::{Due, State};
use stops::Stop;

// The interrupt disable bit of P.
const INTERRUPT_DISABLE: u8 = 2;

// Whether an interrupt request is taken.
fn irq_due(s: State) -> bool
    ensures { result ≡ irq_due s }
{
    !bits::bit8(s.cpu.p, INTERRUPT_DISABLE) & s.peripherals.control.pending()
}

fn start_reset(s: State, memory: &[u8]) -> Next
    ensures { result ≡ reset_start s memory.now }
{
    let worked = reset_entry(memory, registers_of(s.cpu));
    let due = Due {
        reset: false,
        nmi: s.due.nmi,
    };
    next_state(s, due, s.peripherals, worked)
}

fn start_nmi(s: State, memory: &[u8]) -> Next
    ensures { result ≡ nmi_start s memory.now }
{
    let worked = interrupt_entry(memory, NMI_VECTOR, registers_of(s.cpu));
    let due = Due {
        reset: s.due.reset,
        nmi: false,
    };
    next_state(s, due, s.peripherals, worked)
}

fn start_irq(s: State, memory: &[u8]) -> Next
    ensures { result ≡ irq_start s memory.now }
{
    let worked = interrupt_entry(memory, IRQ_VECTOR, registers_of(s.cpu));
    next_state(s, s.due, s.peripherals, worked)
}

// What starts: an entry that is due, or one whole instruction.
fn start(s: State, memory: &[u8]) -> Result<Next, Stop>
    ensures { result ≡ start_of s memory.now }
{
    if s.due.reset {
        return Ok(start_reset(s, memory));
    }
    if s.due.nmi {
        return Ok(start_nmi(s, memory));
    }
    if irq_due(s) {
        return Ok(start_irq(s, memory));
    }
    answered_instruction(s, memory)
}

// Nothing is written.
fn without_writes(s: State) -> Result<Next, Stop>
    ensures { result ≡ without_writes s }
{
    let writes = no_writes();
    Ok(Next {
        state: s,
        writes: writes,
    })
}

// A clock less to wait.
fn wait_less(s: State) -> Result<Next, Stop>
    requires { 0 < s.cpu.wait }
    ensures { result ≡ wait_less s }
{
    let mut state = s;
    let wait = s.cpu.wait - 1;
    state.cpu.wait = wait;
    without_writes(state)
}

// The last clock of a store: its byte is put.
fn put_byte(s: State, w: Write) -> Next
    ensures { result ≡ byte_put s w }
{
    let peripherals = put_register(w, s.peripherals);
    let writes = one_write(w.address, w.value);
    let cpu = s.cpu.waiting_at(0, None);
    let mut state = s;
    state.cpu = cpu;
    state.peripherals = peripherals;
    Next {
        state: state,
        writes: writes,
    }
}

// A clock after the first.
fn wait_on(s: State) -> Result<Next, Stop>
    requires { 0 < s.cpu.wait }
    ensures { result ≡ waited_by s s.cpu.waiting }
{
    match s.cpu.waiting {
        Some(w) if s.cpu.wait == 1 => Ok(put_byte(s, w)),
        _ => wait_less(s),
    }
}

// The CPU's part of a clock.
pub fn process(s: State, memory: &[u8]) -> Result<Next, Stop>
    ensures { result ≡ processor_of s memory.now }
{
    if s.last.res {
        if 0 < s.cpu.wait {
            return wait_on(s);
        }
        return start(s, memory);
    }
    without_writes(s)
}
