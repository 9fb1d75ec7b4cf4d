// Addressing modes: where the operand lies, whether finding it crossed a page, and PC past the operand bytes.
#![tactic(auto)]

ghost use Rattle.std.specs.Prelude.{◌≡◌};
ghost use Rattle.cpu_modes.specs.Modes.{place_at, no_place, other_page, zero_page_address, at_zero_page};
ghost use Rattle.cpu_modes.specs.Modes.{at_zero_page_indexed, at_absolute, at_indexed, at_indexed_indirect};
ghost use Rattle.cpu_modes.specs.Modes.{at_indirect_indexed, at_indirect, crossing, indexed_by, zero_page_pointer};
ghost use Rattle.cpu_modes.specs.Modes.{second_address, displacement, relative_to, locate_of};

use cpu_access::{Bus, CpuRegisters, Fetched, Got, next_address};
use cpu_opcodes::Mode;

// Where an operand is; of a branch, its target.
#[derive(Clone, Copy)]
pub struct Place {
    pub address: u16,
    pub crossed: bool,
    pub accumulator: bool,
    pub pc: u16,
    pub bus: Bus,
}

fn place_at(address: u16, pc: u16, bus: Bus) -> Place
    ensures { result ≡ place_at address pc bus }
{
    Place {
        address,
        crossed: false,
        accumulator: false,
        pc,
        bus,
    }
}

fn no_place(accumulator: bool, pc: u16, bus: Bus) -> Place
    ensures { result ≡ no_place accumulator pc bus }
{
    Place {
        address: 0,
        crossed: false,
        accumulator,
        pc,
        bus,
    }
}

// Whether two addresses lie in different pages.
fn other_page(a: u16, b: u16) -> bool
    ensures { result ≡ other_page a b }
{
    a / 256 != b / 256
}

// An operand at an address that was counted from a base.
fn crossing(base: u16, address: u16, pc: u16, bus: Bus) -> Place
    ensures { result ≡ crossing base address pc bus }
{
    Place {
        address,
        crossed: other_page(base, address),
        accumulator: false,
        pc,
        bus,
    }
}

fn indexed_by(index: u8, base: u16, pc: u16, bus: Bus) -> Place
    ensures { result ≡ indexed_by index base pc bus }
{
    crossing(
        base,
        std::num::wrapping_add_u16(base, index as u16),
        pc,
        bus,
    )
}

fn zero_page_address(z: u8, index: u8) -> u8
    ensures { result ≡ zero_page_address z index }
{
    std::num::wrapping_add_u8(z, index)
}

// The pointer in the zero page at z.
fn zero_page_pointer(answers: &[u8], memory: &[u8], z: u8, bus: Bus) -> Got<u16>
    ensures { result ≡ zero_page_pointer answers.now memory.now z bus }
{
    let high = std::num::wrapping_add_u8(z, 1);
    bus.read_address(answers, memory, z as u16, high as u16)
}

// Where JMP indirect finds the high byte of its target: behind the pointer, in the pointer's own page.
fn second_address(pointer: u16) -> u16
    ensures { result ≡ second_address pointer }
{
    let lower = std::num::wrapping_add_u8(bits::low_byte(pointer), 1);
    bits::word16(bits::high_byte(pointer), lower)
}

// A branch's offset as a 16-bit number.
fn displacement(offset: u8) -> u16
    ensures { result ≡ displacement offset }
{
    if offset < 128 {
        offset as u16
    } else {
        offset as u16 + 0xFF00
    }
}

// A branch's target, by its offset, which was just fetched.
pub fn relative(offset: Fetched<u8>) -> Place
    ensures { result ≡ relative_to offset }
{
    let target = std::num::wrapping_add_u16(offset.pc, displacement(offset.value));
    crossing(offset.pc, target, offset.pc, offset.bus)
}

pub fn at_zero_page(operand: Fetched<u8>) -> Place
    ensures { result ≡ at_zero_page operand }
{
    place_at(operand.value as u16, operand.pc, operand.bus)
}

pub fn at_zero_page_indexed(index: u8, operand: Fetched<u8>) -> Place
    ensures { result ≡ at_zero_page_indexed index operand }
{
    let z = zero_page_address(operand.value, index);
    place_at(z as u16, operand.pc, operand.bus)
}

pub fn at_absolute(operand: Fetched<u16>) -> Place
    ensures { result ≡ at_absolute operand }
{
    place_at(operand.value, operand.pc, operand.bus)
}

pub fn at_indexed(index: u8, operand: Fetched<u16>) -> Place
    ensures { result ≡ at_indexed index operand }
{
    indexed_by(index, operand.value, operand.pc, operand.bus)
}

pub fn at_indexed_indirect(answers: &[u8], memory: &[u8], x: u8, operand: Fetched<u8>) -> Place
    ensures { result ≡ at_indexed_indirect answers.now memory.now x operand }
{
    let z = zero_page_address(operand.value, x);
    let pointer = zero_page_pointer(answers, memory, z, operand.bus);
    place_at(pointer.value, operand.pc, pointer.bus)
}

pub fn at_indirect_indexed(answers: &[u8], memory: &[u8], y: u8, operand: Fetched<u8>) -> Place
    ensures { result ≡ at_indirect_indexed answers.now memory.now y operand }
{
    let pointer = zero_page_pointer(answers, memory, operand.value, operand.bus);
    indexed_by(y, pointer.value, operand.pc, pointer.bus)
}

pub fn at_indirect(answers: &[u8], memory: &[u8], operand: Fetched<u16>) -> Place
    ensures { result ≡ at_indirect answers.now memory.now operand }
{
    let high = second_address(operand.value);
    let target = operand
        .bus
        .read_address(answers, memory, operand.value, high);
    place_at(target.value, operand.pc, target.bus)
}

// The place of an instruction's operand; PC stands behind the opcode.
#[inline(always)]
pub fn locate(answers: &[u8], memory: &[u8], mode: Mode, registers: CpuRegisters, bus: Bus) -> Place
    ensures { result ≡ locate_of answers.now memory.now mode registers bus }
{
    let pc = registers.pc;
    match mode {
        Mode::Implied => no_place(false, pc, bus),
        Mode::Accumulator => no_place(true, pc, bus),
        Mode::Immediate => place_at(pc, next_address(pc), bus),
        Mode::ZeroPage => at_zero_page(bus.fetch(answers, memory, pc)),
        Mode::ZeroPageX => at_zero_page_indexed(registers.x, bus.fetch(answers, memory, pc)),
        Mode::ZeroPageY => at_zero_page_indexed(registers.y, bus.fetch(answers, memory, pc)),
        Mode::Absolute => at_absolute(bus.fetch_address(answers, memory, pc)),
        Mode::AbsoluteX => at_indexed(registers.x, bus.fetch_address(answers, memory, pc)),
        Mode::AbsoluteY => at_indexed(registers.y, bus.fetch_address(answers, memory, pc)),
        Mode::IndexedIndirect => {
            at_indexed_indirect(answers, memory, registers.x, bus.fetch(answers, memory, pc))
        }
        Mode::IndirectIndexed => {
            at_indirect_indexed(answers, memory, registers.y, bus.fetch(answers, memory, pc))
        }
        Mode::Indirect => at_indirect(answers, memory, bus.fetch_address(answers, memory, pc)),
        Mode::Relative => relative(bus.fetch(answers, memory, pc)),
        Mode::ZeroPageRelative => at_zero_page(bus.fetch(answers, memory, pc)),
    }
}
