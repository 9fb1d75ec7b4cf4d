// A case: `:AA XX YY SS PP CCCC NN aaaavv .. AA XX YY SS PP CCCC KK MM aaaavv ..`, all numbers in hex.
//
// A, X, Y, SP, P and PC before the instruction; NN bytes of memory that it reads, each an address and a value; the
// registers after it; KK, its clocks; MM writes that it does, in their order. All other memory is 0, and no address is
// a register's.
ghost use Rattle.std.specs.Prelude.{◌≡◌, true};
ghost use Rattle.test_instructions.specs.Instruction.{run_alone, done_with};

use crate::instruction::{done_with, instruction_writes, run_alone};
use crate::line::{Parsed, after, byte_at, next_byte, next_word16};
use crate::memories::put;
use cpu_access::stack::{Write, Writes};
use memory::{MEMORY_LENGTH, is_register};
use r6501q_state::state::Cpu;

// Begins a case.
pub const CASE_MARK: u8 = b':';

// What a case says beside the bytes of memory: the registers before and after, the clocks, how many writes there are
// and where they begin.
#[derive(Clone, Copy)]
struct Case {
    first: Cpu,
    last: Cpu,
    clocks: u8,
    writes: u8,
    from: usize,
}

// The registers, of which the first has its mark behind it.
fn registers_at(line: &[u8], place: usize) -> Option<Parsed<Cpu>> {
    let a = byte_at(line, place)?;
    let x = next_byte(line, a.rest)?;
    let y = next_byte(line, x.rest)?;
    let sp = next_byte(line, y.rest)?;
    let p = next_byte(line, sp.rest)?;
    let pc = next_word16(line, p.rest)?;
    Some(Parsed {
        value: Cpu {
            a: a.value,
            x: x.value,
            y: y.value,
            sp: sp.value,
            p: p.value,
            pc: pc.value,
            wait: 0,
            waiting: None,
        },
        rest: pc.rest,
    })
}

// ` aaaavv`, a byte at an address. A register's address is not right.
fn placed_at(line: &[u8], place: usize) -> Option<Parsed<Write>> {
    let address = next_word16(line, place)?;
    let value = byte_at(line, address.rest)?;
    if is_register(address.value) {
        return None;
    }
    Some(Parsed {
        value: Write {
            address: address.value,
            value: value.value,
        },
        rest: value.rest,
    })
}

// So many bytes into memory, in their order; gives the place behind them.
fn put_bytes(
    line: &[u8],
    from: usize,
    count: u8,
    memory: &mut [u8; MEMORY_LENGTH],
) -> Option<usize> {
    let mut place = from;
    for _ in 0..count {
        let next = placed_at(line, place)?;
        put(memory, next.value);
        place = next.rest;
    }
    Some(place)
}

// What a case says up to its writes; `memory` gets the bytes that the instruction reads.
fn read_case(line: &[u8], memory: &mut [u8; MEMORY_LENGTH]) -> Option<Case> {
    let first = registers_at(line, after(line, 0, CASE_MARK)?)?;
    let bytes = next_byte(line, first.rest)?;
    let put = put_bytes(line, bytes.rest, bytes.value, memory)?;
    let last = registers_at(line, after(line, put, b' ')?)?;
    let clocks = next_byte(line, last.rest)?;
    let writes = next_byte(line, clocks.rest)?;
    Some(Case {
        first: first.value,
        last: last.value,
        clocks: clocks.value,
        writes: writes.value,
        from: writes.rest,
    })
}

fn write_of(writes: Writes, i: u8) -> Write {
    match i {
        0 => writes.first,
        1 => writes.second,
        _ => writes.third,
    }
}

// Whether an instruction's writes are those that stand in the line, in the same order.
fn writes_as(line: &[u8], case: Case, writes: Writes) -> bool {
    if case.writes != writes.count {
        return false;
    }
    let mut place = case.from;
    for i in 0..case.writes {
        let Some(next) = placed_at(line, place) else {
            return false;
        };
        if next.value != write_of(writes, i) {
            return false;
        }
        place = next.rest;
    }
    true
}

// Whether the instruction does what a case says, in all: it is the group's, its writes, the state and the whole memory
// after its clocks.
fn holds(
    line: &[u8],
    case: Case,
    opcode: u8,
    memory: &mut [u8; MEMORY_LENGTH],
    expected: &[u8; MEMORY_LENGTH],
) -> bool
    ensures memory_value { result ≡ true → (run_alone case.first case.clocks memory.old).result
        ≡ done_with case.clocks case.last }
    ensures memory_value_2 { result ≡ true → (run_alone case.first case.clocks memory.old).memory
        ≡ expected.now }
{
    if memory[case.first.pc as usize] != opcode {
        return false;
    }
    if !writes_as(line, case, instruction_writes(case.first, memory)) {
        return false;
    }
    let result = run_alone(case.first, case.clocks, memory);
    done_with(result, case.clocks, case.last) && *memory == *expected
}

// Whether the case of a line holds; none where the line is not right to its end.
fn case_holds(line: &[u8], opcode: u8) -> Option<bool> {
    let mut memory = [0; MEMORY_LENGTH];
    let case = read_case(line, &mut memory)?;
    let mut expected = memory;
    let end = put_bytes(line, case.from, case.writes, &mut expected)?;
    if end != line.len() {
        return None;
    }
    Some(holds(line, case, opcode, &mut memory, &expected))
}

// Whether a line is a case that holds.
pub(crate) fn agrees(line: &[u8], opcode: u8) -> bool {
    case_holds(line, opcode).unwrap_or(false)
}
