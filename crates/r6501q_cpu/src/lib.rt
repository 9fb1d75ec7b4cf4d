// One instruction of the CPU on the chip's state: its questions are answered, and its register writes done. Nothing is
// written to memory here.
#![tactic(auto)]

ghost use Rattle.std.specs.Prelude.{◌≡◌, true, []};
ghost use Rattle.r6501q_cpu.specs.Processor.{registers_of, cpu_of};
ghost use Rattle.r6501q_cpu.specs.Asking.{put_register, registers_after, answer_of, next_of, round_of};
ghost use Rattle.r6501q_cpu.specs.Asking.{instruction_from};
ghost use Rattle.r6501q_cpu.specs.Asking.{answered_instruction};

use cpu::{Ask, Outcome, instruction};
use cpu_access::CpuRegisters;
use cpu_access::stack::{Write, Writes};
use cpu_alu::Status;
use cpu_effects::{Worked, pushes_of, waiting_of};
use memory::is_register;
use r6501q_registers::read::Reading;
use r6501q_state::state::{Cpu, Due, Peripherals, State};
use std::ops::ControlFlow;
use stops::Stop;

// The state after the CPU's part of a clock, and its writes: those at register addresses are done, the others are not
// yet.
#[derive(Clone, Copy)]
pub struct Next {
    pub state: State,
    pub writes: Writes,
}

// More answers than an instruction asks for.
const ANSWERS: usize = 6;

// The CPU's registers as an instruction has them.
// A function and no From: both types are of other crates.
pub fn registers_of(c: Cpu) -> CpuRegisters
    ensures { result ≡ registers_of c }
{
    CpuRegisters {
        a: c.a,
        x: c.x,
        y: c.y,
        sp: c.sp,
        pc: c.pc,
        status: Status::from(c.p),
    }
}

// The registers kept, the clocks still to wait, and the byte that waits.
pub fn cpu_of(r: CpuRegisters, wait: u8, waiting: Option<Write>) -> Cpu
    ensures { result ≡ cpu_of r wait waiting }
{
    Cpu {
        a: r.a,
        x: r.x,
        y: r.y,
        sp: r.sp,
        p: u8::from(r.status),
        pc: r.pc,
        wait: wait,
        waiting: waiting,
    }
}

// A write; one that is not at a register's address changes nothing here.
pub fn put_register(w: Write, p: Peripherals) -> Peripherals
    ensures { result ≡ put_register true w p }
{
    if is_register(w.address) {
        return r6501q_registers::write::write(p, w.address, w.value);
    }
    p
}

// The register writes of an instruction, in their order. Most write nothing or one byte.
fn registers_after(p: Peripherals, w: Writes) -> Peripherals
    ensures { result ≡ registers_after p w }
{
    if w.count == 0 {
        return p;
    }
    let first = put_register(w.first, p);
    if w.count == 1 {
        return first;
    }
    let second = put_register(w.second, first);
    if w.count == 2 {
        return second;
    }
    put_register(w.third, second)
}

// The answer to what an instruction asks.
fn answer(p: Peripherals, levels: u32, ask: Ask) -> Reading
    ensures { result ≡ answer_of p levels ask }
{
    let after = registers_after(p, ask.writes);
    Reading {
        value: r6501q_registers::read::value(after, levels, ask.modify, ask.address),
        peripherals: r6501q_registers::read::after_read(p, ask.address),
    }
}

// The state after the first clock of an entry or an instruction.
pub fn next_state(s: State, due: Due, p: Peripherals, w: Worked) -> Next
    ensures { result ≡ next_of s due p w }
{
    let writing = w.writing;
    let cpu = cpu_of(w.registers, w.length.saturating_sub(1), waiting_of(writing));
    let writes = pushes_of(writing);
    let peripherals = registers_after(p, writes);
    let mut state = s;
    state.cpu = cpu;
    state.due = due;
    state.peripherals = peripherals;
    Next {
        state: state,
        writes: writes,
    }
}

// An instruction worked with the answers so far: it is over, or one more answer is given.
fn one_round(
    s: State,
    p: Peripherals,
    answers: &[u8],
    memory: &[u8],
) -> ControlFlow<Result<Next, Stop>, Reading>
    ensures { result ≡ round_of s p answers.now memory.now }
{
    let outcome = instruction(registers_of(s.cpu), answers, memory);
    match outcome {
        Outcome::Undefined => ControlFlow::Break(Err(Stop::Undefined)),
        Outcome::Asked(ask) => ControlFlow::Continue(answer(p, s.last.ports, ask)),
        Outcome::Done(worked) => ControlFlow::Break(Ok(next_state(s, s.due, p, worked))),
    }
}

// One whole instruction: each question is answered in turn.
pub fn answered_instruction(s: State, memory: &[u8]) -> Result<Next, Stop>
    ensures { result ≡ answered_instruction s memory.now }
{
    let mut answers = [0u8; ANSWERS];
    let mut peripherals = s.peripherals;
    for count in 0..ANSWERS {
        match one_round(s, peripherals, &answers[..count], memory) {
            ControlFlow::Break(processed) => return processed,
            ControlFlow::Continue(reading) => {
                answers[count] = reading.value;
                peripherals = reading.peripherals;
            }
        }
    }
    Err(Stop::Undefined)
}
