// Instructions whose operand is a register of the chip in the zero page, by a mode without an index: their outcome in a
// span, without asking.
ghost use Rattle.std.specs.Prelude.{◌≡◌};
ghost use Rattle.cpu_access.specs.Bus.{next_address};
ghost use Rattle.cpu_opcodes.specs.declared.operation.Operation.TheVariants.{Read, Modify, Store, BitBranch};
ghost use Rattle.r6501q_span_reads.specs.Known.{Encoded, OnZeroPage, OnBit, Knows};

use crate::steady::steady_at;
use bits::one_where;
use cpu_access::stack::Write;
use cpu_access::{Bus, CpuRegisters, memory_byte, next_address};
use cpu_effects::{Worked, Writing};
use cpu_kinds::kinds;
use cpu_kinds::updates::{with_pc, with_status};
use cpu_modes::relative;
use cpu_opcodes::operation::{
    BitBranchOperation, ModifyOperation, Operation, ReadOperation, StoreOperation,
};
use cpu_opcodes::{Entry, Mode, decode};
use memory::is_register;
use r6501q_registers::read::value;
use r6501q_state::state::State;

// PC behind an instruction of two bytes.
fn past_two(r: CpuRegisters) -> u16
    ensures { result ≡ next_address (next_address r.pc) }
{
    next_address(next_address(r.pc))
}

// The operand is read.
fn known_read(
    s: State,
    r: CpuRegisters,
    memory: &[u8],
    entry: Entry,
    o: ReadOperation,
    address: u16,
) -> Option<Worked>
    requires { OnZeroPage r memory.now entry address × (entry.operation ≡ Read o) }
    ensures { Knows s r memory.now result }
{
    if !steady_at(address) {
        return None;
    }
    let byte = value(s.peripherals, s.last.ports, false, address);
    let after = kinds::with_read(o, with_pc(r, past_two(r)), byte);
    Some(Worked {
        registers: after,
        writing: Writing::Nothing,
        length: entry.length,
    })
}

// The operand is read, changed, and to be put back; of a port the latch is read.
fn known_change(
    s: State,
    r: CpuRegisters,
    memory: &[u8],
    entry: Entry,
    o: ModifyOperation,
    address: u16,
) -> Option<Worked>
    requires { OnZeroPage r memory.now entry address × (entry.operation ≡ Modify o) }
    ensures { Knows s r memory.now result }
{
    if !steady_at(address) {
        return None;
    }
    let byte = value(s.peripherals, s.last.ports, true, address);
    let changed = kinds::changed(o, byte, r.status);
    let store = Write {
        address: address,
        value: changed.value,
    };
    let after = with_status(with_pc(r, past_two(r)), changed.status);
    Some(Worked {
        registers: after,
        writing: Writing::Stored(store),
        length: entry.length,
    })
}

// A register of the CPU is to be stored, whatever is there.
fn known_store(
    s: State,
    r: CpuRegisters,
    memory: &[u8],
    entry: Entry,
    o: StoreOperation,
    address: u16,
) -> Option<Worked>
    requires { OnZeroPage r memory.now entry address × (entry.operation ≡ Store o) }
    ensures { Knows s r memory.now result }
{
    let store = Write {
        address: address,
        value: kinds::byte_to_store(o, r),
    };
    Some(Worked {
        registers: with_pc(r, past_two(r)),
        writing: Writing::Stored(store),
        length: entry.length,
    })
}

// BBR and BBS.
fn known_branch(
    s: State,
    r: CpuRegisters,
    memory: &[u8],
    entry: Entry,
    o: BitBranchOperation,
    address: u16,
) -> Option<Worked>
    requires { OnBit r memory.now entry address × (entry.operation ≡ BitBranch o) }
    ensures { Knows s r memory.now result }
{
    if !steady_at(address) {
        return None;
    }
    let byte = value(s.peripherals, s.last.ports, false, address);
    let none = [0u8; 0];
    let target = relative(Bus::unasked().fetch(&none, memory, past_two(r)));
    if kinds::bit_branch_taken(o, byte) {
        return Some(Worked {
            registers: with_pc(r, target.address),
            writing: Writing::Nothing,
            length: entry.length + 1 + one_where(target.crossed),
        });
    }
    Some(Worked {
        registers: with_pc(r, target.pc),
        writing: Writing::Nothing,
        length: entry.length,
    })
}

// By the kind of operation.
fn known_on_zero_page(
    s: State,
    r: CpuRegisters,
    memory: &[u8],
    entry: Entry,
    address: u16,
) -> Option<Worked>
    requires { OnZeroPage r memory.now entry address }
    ensures { Knows s r memory.now result }
{
    match entry.operation {
        Operation::Read(o) => known_read(s, r, memory, entry, o, address),
        Operation::Store(o) => known_store(s, r, memory, entry, o, address),
        Operation::Modify(o) => known_change(s, r, memory, entry, o, address),
        _ => None,
    }
}

fn known_on_bit(
    s: State,
    r: CpuRegisters,
    memory: &[u8],
    entry: Entry,
    address: u16,
) -> Option<Worked>
    requires { OnBit r memory.now entry address }
    ensures { Knows s r memory.now result }
{
    match entry.operation {
        Operation::BitBranch(o) => known_branch(s, r, memory, entry, o, address),
        _ => None,
    }
}

// By the addressing mode.
fn known_entry(
    s: State,
    r: CpuRegisters,
    memory: &[u8],
    entry: Entry,
    address: u16,
) -> Option<Worked>
    requires { Encoded r memory.now entry address }
    ensures { Knows s r memory.now result }
{
    match entry.mode {
        Mode::ZeroPage => known_on_zero_page(s, r, memory, entry, address),
        Mode::ZeroPageRelative => known_on_bit(s, r, memory, entry, address),
        _ => None,
    }
}

// What the next instruction comes to in a span that began with the state s, where its operand is a register in the zero
// page and that is known.
pub fn known_outcome(s: State, r: CpuRegisters, memory: &[u8]) -> Option<Worked>
    ensures { Knows s r memory.now result }
{
    let second = next_address(r.pc);
    if is_register(r.pc) | is_register(second) | is_register(next_address(second)) {
        return None;
    }
    let address = memory_byte(memory, second) as u16;
    if !is_register(address) {
        return None;
    }
    let entry = decode(memory_byte(memory, r.pc))?;
    known_entry(s, r, memory, entry, address)
}
