// What an instruction leaves, by kind: the registers, what it writes, and the clocks that it takes.
ghost use Rattle.std.specs.Prelude.{◌≡◌};
ghost use Rattle.cpu_effects.specs.Effects.{executed, read_only, completed, stored, modified, branched};
ghost use Rattle.cpu_effects.specs.Effects.{bit_branched, jumped, pushed_byte, pulled_byte, returned};
ghost use Rattle.cpu_effects.specs.Effects.{returned_from_interrupt, interrupted, break_taken};
ghost use Rattle.cpu_effects.specs.Operand.{operand};

use crate::{Executed, Operand, Worked, Writing};
use cpu_access::stack::{Write, down, one_write};
use cpu_access::{Bus, CpuRegisters};
use cpu_alu::{Computed, Status};
use cpu_kinds::kinds::with_pulled;
use cpu_kinds::updates::{into_a, with_pc, with_sp, with_status};
use cpu_opcodes::operation::PullOperation;

pub fn executed_with(registers: CpuRegisters, writing: Writing, length: u8, bus: Bus) -> Executed
    ensures { result ≡ executed registers writing length bus }
{
    Executed {
        worked: Worked {
            registers,
            writing,
            length,
        },
        bus,
    }
}

// Nothing is written.
fn read_only(registers: CpuRegisters, length: u8, bus: Bus) -> Executed
    ensures { result ≡ read_only registers length bus }
{
    executed_with(registers, Writing::Nothing, length, bus)
}

// A byte was read, or none: one clock more where indexing crossed a page.
pub fn completed(o: Operand, registers: CpuRegisters) -> Executed
    ensures { result ≡ completed (operand o) registers }
{
    read_only(registers, o.length + bits::one_where(o.crossed), o.bus)
}

// A byte is stored at the operand's address.
pub fn stored(o: Operand, registers: CpuRegisters, value: u8) -> Executed
    ensures { result ≡ stored (operand o) registers value }
{
    let store = Write {
        address: o.address,
        value,
    };
    executed_with(registers, Writing::Stored(store), o.length, o.bus)
}

// A byte that was read and changed goes back to where it came from.
pub fn modified(o: Operand, registers: CpuRegisters, computed: Computed) -> Executed
    ensures { result ≡ modified (operand o) registers computed }
{
    if o.accumulator {
        return read_only(into_a(registers, computed), o.length, o.bus);
    }
    stored(o, with_status(registers, computed.status), computed.value)
}

// A branch: one clock more where it is taken, two where its target lies in another page.
pub fn branched(o: Operand, registers: CpuRegisters, taken: bool) -> Executed
    ensures { result ≡ branched (operand o) registers taken }
{
    if taken {
        let length = o.length + 1 + bits::one_where(o.crossed);
        return read_only(with_pc(registers, o.address), length, o.bus);
    }
    read_only(registers, o.length, o.bus)
}

// BBR and BBS: the offset is fetched after the tested byte.
pub fn bit_branched(
    answers: &[u8],
    memory: &[u8],
    o: Operand,
    registers: CpuRegisters,
    taken: bool,
) -> Executed
    ensures { result ≡ bit_branched answers.now memory.now (operand o) registers taken }
{
    let place = cpu_modes::relative(o.bus.fetch(answers, memory, registers.pc));
    let branch = Operand {
        address: place.address,
        value: o.value,
        crossed: place.crossed,
        accumulator: false,
        length: o.length,
        bus: place.bus,
    };
    branched(branch, with_pc(registers, place.pc), taken)
}

pub fn jumped(o: Operand, registers: CpuRegisters) -> Executed
    ensures { result ≡ jumped (operand o) registers }
{
    read_only(with_pc(registers, o.address), o.length, o.bus)
}

// PHA and PHP.
pub fn pushed_byte(o: Operand, registers: CpuRegisters, value: u8) -> Executed
    ensures { result ≡ pushed_byte (operand o) registers value }
{
    let sp = registers.sp;
    let pushes = one_write(cpu_access::stack::stack_address(sp), value);
    executed_with(
        with_sp(registers, down(sp)),
        Writing::Pushed(pushes),
        o.length,
        o.bus,
    )
}

// PLA and PLP.
pub fn pulled_byte(
    answers: &[u8],
    memory: &[u8],
    operation: PullOperation,
    o: Operand,
    registers: CpuRegisters,
) -> Executed
    ensures { result ≡ pulled_byte answers.now memory.now operation (operand o) registers }
{
    let pulled = o.bus.pull(answers, memory, registers.sp);
    let stacked = with_sp(registers, pulled.sp);
    read_only(
        with_pulled(operation, stacked, pulled.value),
        o.length,
        pulled.bus,
    )
}

// RTS.
pub fn returned(answers: &[u8], memory: &[u8], o: Operand, registers: CpuRegisters) -> Executed
    ensures { result ≡ returned answers.now memory.now (operand o) registers }
{
    let pulled = o.bus.pull_address(answers, memory, registers.sp);
    let pc = cpu_access::next_address(pulled.value);
    read_only(
        with_pc(with_sp(registers, pulled.sp), pc),
        o.length,
        pulled.bus,
    )
}

// RTI.
pub fn returned_from_interrupt(
    answers: &[u8],
    memory: &[u8],
    o: Operand,
    registers: CpuRegisters,
) -> Executed
    ensures { result ≡ returned_from_interrupt answers.now memory.now (operand o) registers }
{
    let p = o.bus.pull(answers, memory, registers.sp);
    let status = Status::from(p.value);
    let pulled = p.bus.pull_address(answers, memory, p.sp);
    let back = with_status(with_sp(registers, pulled.sp), status);
    read_only(with_pc(back, pulled.value), o.length, pulled.bus)
}

// PC and P are pushed, I is set, and PC comes from the vector: BRK, NMI and IRQ. `p` is P as it is pushed.
pub fn interrupted(memory: &[u8], vector: u16, p: u8, registers: CpuRegisters) -> Worked
    ensures { result ≡ interrupted memory.now vector p registers }
{
    let sp = registers.sp;
    let pushes = cpu_access::stack::push_interrupt(sp, registers.pc, p);
    let masked = with_status(registers, registers.status.with_i(true));
    let stacked = with_sp(masked, down(down(down(sp))));
    let entered = with_pc(stacked, cpu_access::vector(memory, vector));
    Worked {
        registers: entered,
        writing: Writing::Pushed(pushes),
        length: 7,
    }
}

// BRK: it skips a byte that it does not read.
pub fn break_taken(memory: &[u8], o: Operand, registers: CpuRegisters) -> Executed
    ensures { result ≡ break_taken memory.now (operand o) registers }
{
    let skipped = with_pc(registers, cpu_access::next_address(registers.pc));
    let worked = interrupted(
        memory,
        cpu_access::IRQ_VECTOR,
        registers.status.pushed(true),
        skipped,
    );
    Executed { worked, bus: o.bus }
}
