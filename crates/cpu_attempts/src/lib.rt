// One instruction of a span, tried: done whole, or not at all.
#![tactic(auto)]

ghost use Rattle.std.specs.Prelude.{◌≡◌, false, ◌+◌, ◌≤◌, ◌<◌};
ghost use Rattle.memory.specs.Memory.{is_register};
ghost use Rattle.cpu_attempts.specs.Attempts.{behind_opcode, place_of, started_next, stored_whole, asks_for};

use counters::time::Clocks;
use cpu::work::Work;
use cpu_access::{Bus, CpuRegisters, next_address};
use cpu_kinds::updates::with_pc;
use cpu_modes::{Place, locate};
use cpu_opcodes::Mode;
use memory::is_register;

// Where an instruction starts in a span: within it, its opcode at no register's address.
#[derive(Clone, Copy)]
pub struct Start {
    pub work: Work,
    pub span: Clocks,
    pub halt: Option<u16>,
    pub ghost within: { work.gone.0 + work.wait < span.0 },
    pub ghost leaps: { work.leaps ≤ work.gone.0 },
    pub ghost in_memory: { is_register work.registers.pc ≡ false },
}

impl Start {
    // The registers, PC behind the opcode.
    pub fn behind_opcode(self) -> CpuRegisters
        ensures { result ≡ behind_opcode self.work }
    {
        let registers = self.work.registers;
        with_pc(registers, next_address(registers.pc))
    }

    // The place of the operand, no register having been read.
    #[inline(always)]
    pub fn place(self, memory: &[u8], mode: Mode) -> Place
        ensures { result ≡ place_of self.work memory.now mode }
    {
        let none = [0u8; 0];
        locate(&none, memory, mode, self.behind_opcode(), Bus::unasked())
    }

    // An instruction of so many clocks, done: the next one starts after them.
    pub fn next(self, registers: CpuRegisters, length: u8) -> Option<Work>
        ensures { result ≡ started_next self.work registers length }
    {
        let w = self.work;
        Some(Work {
            registers: with_pc(registers, registers.pc),
            wait: length.saturating_sub(1),
            gone: Clocks(w.gone.0 + w.wait as u32 + 1),
            leaps: w.leaps + 1,
        })
    }

    // A store of so many clocks, done, its byte put on the last of them.
    pub fn stored(self, registers: CpuRegisters, length: u8) -> Option<Work>
        requires { (self.work.gone.0 + self.work.wait + length ≤ self.span.0) × (2 ≤ length) }
        ensures { result ≡ stored_whole self.work registers length }
    {
        let w = self.work;
        Some(Work {
            registers: with_pc(registers, registers.pc),
            wait: 0,
            gone: Clocks(w.gone.0 + w.wait as u32 + length as u32),
            leaps: w.leaps + 2,
        })
    }
}

// Whether the operand, or a byte on the way to it, is a register's.
pub fn asks_for(p: Place) -> bool
    ensures { result ≡ asks_for p }
{
    p.bus.missing | is_register(p.address)
}
