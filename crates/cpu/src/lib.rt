// One whole instruction, over the registers, the answers to what it asks, and the lent memory. It knows no chip: a
// register of the chip is asked for, and the instruction is worked again once the answer is there.
#![tactic(auto)]

ghost use Rattle.std.specs.Prelude.{◌≡◌, ◌≤◌};
ghost use Rattle.cpu_effects.specs.Operand.{operand};
ghost use Rattle.cpu_operations.specs.Operations.{access_of};
ghost use Rattle.cpu.specs.InstructionInCode.{ask_with, outcome_of, operand_byte, operand_of, carried_out};
ghost use Rattle.cpu.specs.InstructionInCode.{writes_asked};
ghost use Rattle.cpu.specs.InstructionInCode.{jsr_outcome, execute_of, instruction_of};

use cpu_access::stack::{Writes, down, no_writes};
use cpu_access::{Bus, CpuRegisters, Got};
use cpu_effects::{Executed, Operand, Worked, Writing, effects};
use cpu_kinds::updates;
use cpu_modes::Place;
use cpu_opcodes::Entry;
use cpu_operations::Access;

pub mod entries; // entries.rt: reset, NMI and IRQ
pub mod work; // work.rt: the CPU at work in a span

// The register that an instruction has to read next; a read-modify-write instruction takes a port's latch. The answer
// is what is there after the writes, which only JSR has.
#[derive(Clone, Copy)]
pub struct Ask {
    pub address: u16,
    pub modify: bool,
    pub writes: Writes,
}

// What an instruction comes to: its opcode is undefined, a question, or its end.
#[derive(Clone, Copy)]
pub enum Outcome {
    Undefined,
    Asked(Ask),
    Done(Worked),
}

fn ask_with(writes: Writes, bus: Bus) -> Ask
    ensures { result ≡ ask_with writes bus }
{
    Ask {
        address: bus.address,
        modify: bus.modify,
        writes,
    }
}

// An instruction that still asks is not done.
fn outcome_of(writes: Writes, executed: Executed) -> Outcome
    ensures { result ≡ outcome_of writes executed }
{
    let bus = executed.bus;
    if bus.missing {
        return Outcome::Asked(ask_with(writes, bus));
    }
    let worked = executed.worked;
    Outcome::Done(worked)
}

// The operand's byte, read once.
fn operand_byte(answers: &[u8], memory: &[u8], access: Access, a: u8, place: Place) -> Got<u8>
    ensures { result ≡ operand_byte answers.now memory.now access a place }
{
    let bus = place.bus;
    match access {
        Access::Nothing => Got { value: 0, bus },
        Access::Read => bus.read(answers, memory, place.address, false),
        Access::Modify => {
            if place.accumulator {
                return Got { value: a, bus };
            }
            bus.read(answers, memory, place.address, true)
        }
        Access::Jsr => Got { value: 0, bus },
    }
}

fn operand_of(length: u8, place: Place, got: Got<u8>) -> Operand
    requires { length ≤ 7 }
    ensures { operand result ≡ operand_of length place got }
{
    let bus = got.bus;
    Operand {
        address: place.address,
        value: got.value,
        crossed: place.crossed,
        accumulator: place.accumulator,
        length,
        bus,
    }
}

// The operand's place, its byte, and the operation.
fn carried_out(
    answers: &[u8],
    memory: &[u8],
    entry: Entry,
    access: Access,
    registers: CpuRegisters,
    bus: Bus,
) -> Executed
    requires length_bound { entry.length ≤ 7 }
    requires access_value { access ≡ access_of entry.operation }
    ensures { result ≡ carried_out answers.now memory.now entry registers bus }
{
    let operation = entry.operation;
    let mode = entry.mode;
    let place = cpu_modes::locate(answers, memory, mode, registers, bus);
    let got = operand_byte(answers, memory, access, registers.a, place);
    let operand = operand_of(entry.length, place, got);
    let moved = updates::with_pc(registers, place.pc);
    cpu_operations::operate(answers, memory, operation, moved, operand)
}

// The writes that go with JSR's question: none where it is about the low byte, which is read before the pushes.
fn writes_asked(bus: Bus, writes: Writes) -> Writes
    ensures { result ≡ writes_asked bus writes }
{
    if bus.missing {
        return no_writes();
    }
    writes
}

// JSR: the low byte of the target, the pushes, and only then the high byte.
fn jsr(answers: &[u8], memory: &[u8], registers: CpuRegisters, length: u8, bus: Bus) -> Outcome
    ensures { result ≡ jsr_outcome answers.now memory.now registers length bus }
{
    let sp = registers.sp;
    let lower = bus.fetch(answers, memory, registers.pc);
    let between = lower.bus;
    let writes = cpu_access::stack::push_address(sp, lower.pc);
    let upper = between.read_after(answers, memory, writes, lower.pc);
    let after = upper.bus;
    let target = bits::word16(upper.value, lower.value);
    let called = updates::with_pc(updates::with_sp(registers, down(down(sp))), target);
    let executed = effects::executed_with(called, Writing::Pushed(writes), length, after);
    outcome_of(writes_asked(between, writes), executed)
}

// A defined opcode; PC stands behind it.
fn execute(
    answers: &[u8],
    memory: &[u8],
    entry: Entry,
    registers: CpuRegisters,
    bus: Bus,
) -> Outcome
    requires { entry.length ≤ 7 }
    ensures { result ≡ execute_of answers.now memory.now entry registers bus }
{
    let operation = entry.operation;
    let access = cpu_operations::access_of(operation);
    if cpu_operations::is_jsr(access) {
        return jsr(answers, memory, registers, entry.length, bus);
    }
    outcome_of(
        no_writes(),
        carried_out(answers, memory, entry, access, registers, bus),
    )
}

// One instruction.
pub fn instruction(registers: CpuRegisters, answers: &[u8], memory: &[u8]) -> Outcome
    ensures { result ≡ instruction_of registers answers.now memory.now }
{
    let opcode = Bus::unasked().fetch(answers, memory, registers.pc);
    let bus = opcode.bus;
    if bus.missing {
        return Outcome::Asked(ask_with(no_writes(), bus));
    }
    let Some(entry) = cpu_opcodes::decode(opcode.value) else {
        return Outcome::Undefined;
    };
    execute(
        answers,
        memory,
        entry,
        updates::with_pc(registers, opcode.pc),
        bus,
    )
}
