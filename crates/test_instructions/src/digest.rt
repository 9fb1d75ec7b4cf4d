// A digest: `+PP AA HHHHHHHH`, all numbers in hex.
//
// For P and A before an immediate instruction, the FNV-1a digest of 32 bits over the operands 0 to 255 in order: for
// each operand the byte A after it, then P after it.
use crate::instruction::{done_with, run_alone};
use crate::line::{after, byte_at, digits, next_byte};
use crate::memories::put;
use cpu_access::stack::Write;
use memory::MEMORY_LENGTH;
use r6501q_state::state::Cpu;

// Begins a digest.
pub const DIGEST_MARK: u8 = b'+';

// Where the instruction stands.
const PLACE: u16 = 0x200;

// The clocks of an immediate instruction.
const CLOCKS: u8 = 2;

// Of FNV-1a with 32 bits: the digest of nothing, and the factor.
const OFFSET: u32 = 2166136261;

const PRIME: u32 = 16777619;

// What a line says.
#[derive(Clone, Copy)]
struct Digest {
    p: u8,
    a: u8,
    digest: u32,
}

// A line that is a digest, and nothing else.
fn read_digest(line: &[u8]) -> Option<Digest> {
    let p = byte_at(line, after(line, 0, DIGEST_MARK)?)?;
    let a = next_byte(line, p.rest)?;
    let digest = digits(line, after(line, a.rest, b' ')?, 8)?;
    if digest.rest != line.len() {
        return None;
    }
    Some(Digest {
        p: p.value,
        a: a.value,
        digest: digest.value,
    })
}

// The digest with one more byte.
fn digested(digest: u32, byte: u8) -> u32 {
    (digest ^ byte as u32).wrapping_mul(PRIME)
}

fn registers(a: u8, p: u8, pc: u16) -> Cpu {
    Cpu {
        a: a,
        x: 0,
        y: 0,
        sp: 255,
        p: p,
        pc: pc,
        wait: 0,
        waiting: None,
    }
}

// The instruction in its place.
fn put_instruction(memory: &mut [u8; MEMORY_LENGTH], opcode: u8, operand: u8) {
    let first = Write {
        address: PLACE,
        value: opcode,
    };
    let second = Write {
        address: PLACE + 1,
        value: operand,
    };
    put(memory, first);
    put(memory, second);
}

// The digest with the instruction that stands in memory, with A and P; none where the instruction is not as an
// immediate one is: two bytes, two clocks, no register changed but A and P.
fn with_instruction(digest: u32, memory: &mut [u8; MEMORY_LENGTH], a: u8, p: u8) -> Option<u32> {
    let result = run_alone(registers(a, p, PLACE), CLOCKS, memory);
    let after = result.state.cpu;
    if !done_with(result, CLOCKS, registers(after.a, after.p, PLACE + 2)) {
        return None;
    }
    Some(digested(digested(digest, after.a), after.p))
}

// The digest over the instruction with each operand, from 0 to 255.
fn with_operands(memory: &mut [u8; MEMORY_LENGTH], opcode: u8, a: u8, p: u8) -> Option<u32> {
    let mut digest = OFFSET;
    for operand in 0..=255u8 {
        put_instruction(memory, opcode, operand);
        digest = with_instruction(digest, memory, a, p)?;
    }
    Some(digest)
}

// The digest over all operands, where nothing else is written.
fn digest_of(opcode: u8, a: u8, p: u8) -> Option<u32> {
    let mut memory = [0; MEMORY_LENGTH];
    let mut expected = [0; MEMORY_LENGTH];
    put_instruction(&mut expected, opcode, 255);
    let digest = with_operands(&mut memory, opcode, a, p)?;
    if memory != expected {
        return None;
    }
    Some(digest)
}

// Whether a line is a digest that is right.
pub(crate) fn agrees(line: &[u8], opcode: u8) -> bool {
    let Some(read) = read_digest(line) else {
        return false;
    };
    digest_of(opcode, read.a, read.p) == Some(read.digest)
}
