// Instructions of a span that read a register of the chip: answered at once where a read has no effect, and what it
// reads as stays in the span.
ghost use Rattle.std.specs.Prelude.{◌≡◌};
ghost use Rattle.r6501q_span_reads.specs.Steady.{steady_at, steady_ask, answered_once, outcome_within};
ghost use Rattle.cpu.specs.declared.Outcome.TheVariants.{Asked};

use cpu::{Ask, Outcome, instruction};
use cpu_access::CpuRegisters;
use r6501q_registers::addresses::{SERIAL_DATA, START_B};
use r6501q_registers::read::value;
use r6501q_state::state::State;

// Whether a read of the register has no effect, and its value stays in a span.
pub fn steady_at(address: u16) -> bool
    ensures { result ≡ steady_at address }
{
    (address < SERIAL_DATA) | (START_B < address)
}

// Whether such a register is asked for, before any write.
fn steady_ask(ask: Ask) -> bool
    ensures { result ≡ steady_ask ask }
{
    (ask.writes.count == 0) & steady_at(ask.address)
}

// The instruction with that question answered.
fn answered_once(s: State, ask: Ask, registers: CpuRegisters, memory: &[u8]) -> Outcome
    ensures { result ≡ answered_once s registers memory.now (Asked ask) }
{
    if steady_ask(ask) {
        let answers = [value(s.peripherals, s.last.ports, ask.modify, ask.address)];
        return instruction(registers, &answers, memory);
    }
    Outcome::Asked(ask)
}

// What the next instruction comes to in a span that began with the state s.
pub fn outcome_within(s: State, registers: CpuRegisters, memory: &[u8]) -> Outcome
    ensures { result ≡ outcome_within s registers memory.now }
{
    let answers = [0u8; 0];
    let outcome = instruction(registers, &answers, memory);
    match outcome {
        Outcome::Undefined => Outcome::Undefined,
        Outcome::Asked(ask) => answered_once(s, ask, registers, memory),
        Outcome::Done(worked) => Outcome::Done(worked),
    }
}
