// How an instruction reads and writes. Registers of the chip are asked for, one by one and in order: an answer that is
// given is used, and at the first one missing the access marks what it asks; the work goes on with zeros, and its
// result is thrown away. All other addresses are read from the lent memory. Nothing is written: the writes are handed
// on.
#![tactic(auto)]

ghost use Rattle.std.specs.Prelude.{◌≡◌};
ghost use Rattle.cpu_access.specs.Bus.{next_address, memory_byte, vector_of, unasked, ask_of, read_of, read_address};
ghost use Rattle.cpu_access.specs.Bus.{fetch_of};
ghost use Rattle.cpu_access.specs.Bus.{fetch_address};
ghost use Rattle.memory.specs.Memory.{is_register};

use cpu_alu::Status;
use memory::is_register;

// The vector of reset.
pub const RESET_VECTOR: u16 = 0xFFFC;

// The vector of NMI.
pub const NMI_VECTOR: u16 = 0xFFFA;

// The vector of IRQ and BRK.
pub const IRQ_VECTOR: u16 = 0xFFFE;

pub mod stack; // stack.rt: the writes of an instruction, and the stack
pub mod halt; // halt.rt: the halt address

// What an instruction works on.
#[derive(Clone, Copy)]
pub struct CpuRegisters {
    pub a: u8,
    pub x: u8,
    pub y: u8,
    pub sp: u8,
    pub pc: u16,
    pub status: Status,
}

// How many answers are used; and, once one was missing, the address of the first such and whether its read is that of
// a read-modify-write instruction, which takes a port's latch.
#[derive(Clone, Copy)]
pub struct Bus {
    pub used: usize,
    pub missing: bool,
    pub modify: bool,
    pub address: u16,
}

// A byte that was read, or two as an address.
#[derive(Clone, Copy)]
pub struct Got<T> {
    pub value: T,
    pub bus: Bus,
}

// A byte of the instruction, or two as an address, and PC past them.
#[derive(Clone, Copy)]
pub struct Fetched<T> {
    pub value: T,
    pub pc: u16,
    pub bus: Bus,
}

// The address behind another, from FFFFh to 0000h.
pub fn next_address(address: u16) -> u16
    ensures { result ≡ next_address address }
{
    std::num::wrapping_add_u16(address, 1)
}

// A byte of the memory, 0 past its end.
pub fn memory_byte(memory: &[u8], address: u16) -> u8
    ensures { result ≡ memory_byte memory.now address }
{
    let at = address as usize;
    if at < memory.len() {
        return memory[at];
    }
    0
}

// The address that a vector holds.
pub fn vector(memory: &[u8], address: u16) -> u16
    ensures { result ≡ vector_of memory.now address }
{
    let lower = memory_byte(memory, address);
    let upper = memory_byte(memory, next_address(address));
    bits::word16(upper, lower)
}

impl Bus {
    // Nothing asked yet.
    pub fn unasked() -> Bus
        ensures { result ≡ unasked }
    {
        Bus {
            used: 0,
            missing: false,
            modify: false,
            address: 0,
        }
    }

    // A read of a register: the next answer, or the question.
    pub fn ask(self, answers: &[u8], address: u16, modify: bool) -> Got<u8>
        ensures { result ≡ ask_of answers.now address modify self }
    {
        let used = self.used;
        if used < answers.len() {
            return Got {
                value: answers[used],
                bus: Bus {
                    used: used + 1,
                    ..self
                },
            };
        }
        if self.missing {
            return Got {
                value: 0,
                bus: self,
            };
        }
        Got {
            value: 0,
            bus: Bus {
                missing: true,
                modify,
                address,
                ..self
            },
        }
    }

    // A read at any address.
    pub fn read(self, answers: &[u8], memory: &[u8], address: u16, modify: bool) -> Got<u8>
        ensures { result ≡ read_of answers.now memory.now address modify self }
    {
        if is_register(address) {
            return self.ask(answers, address, modify);
        }
        Got {
            value: memory_byte(memory, address),
            bus: self,
        }
    }

    // A low byte, then a high byte.
    pub fn read_address(self, answers: &[u8], memory: &[u8], low: u16, high: u16) -> Got<u16>
        ensures { result ≡ read_address answers.now memory.now low high self }
    {
        let lower = self.read(answers, memory, low, false);
        let upper = lower.bus.read(answers, memory, high, false);
        Got {
            value: bits::word16(upper.value, lower.value),
            bus: upper.bus,
        }
    }

    // The byte at PC.
    pub fn fetch(self, answers: &[u8], memory: &[u8], pc: u16) -> Fetched<u8>
        ensures { result ≡ fetch_of answers.now memory.now pc self }
    {
        let got = self.read(answers, memory, pc, false);
        Fetched {
            value: got.value,
            pc: next_address(pc),
            bus: got.bus,
        }
    }

    // The two bytes at PC, low byte first.
    pub fn fetch_address(self, answers: &[u8], memory: &[u8], pc: u16) -> Fetched<u16>
        ensures { result ≡ fetch_address answers.now memory.now pc self }
    {
        let lower = self.fetch(answers, memory, pc);
        let upper = lower.bus.fetch(answers, memory, lower.pc);
        Fetched {
            value: bits::word16(upper.value, lower.value),
            pc: upper.pc,
            bus: upper.bus,
        }
    }
}
