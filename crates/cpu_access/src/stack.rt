// The writes of an instruction, in order, and the stack, which lies in the zero page.
ghost use Rattle.std.specs.Prelude.{◌≡◌};
ghost use Rattle.cpu_access.specs.Stack.{write_at, no_write, no_writes, one_write, two_writes, three_writes};
ghost use Rattle.cpu_access.specs.Stack.{stack_address, down, up, push_at, push_high, push_low, push_address};
ghost use Rattle.cpu_access.specs.Stack.{push_interrupt, pull_of, pull_address, written_over, read_after};

use crate::{Bus, Got};
use memory::is_register;

#[derive(Clone, Copy, PartialEq, Eq)]
pub struct Write {
    pub address: u16,
    pub value: u8,
}

// At most three writes, in order; those from `count` on mean nothing.
#[derive(Clone, Copy)]
pub struct Writes {
    pub count: u8,
    pub first: Write,
    pub second: Write,
    pub third: Write,
}

// A byte that was pulled, or two as an address, and SP after them.
#[derive(Clone, Copy)]
pub struct Pulled<T> {
    pub value: T,
    pub sp: u8,
    pub bus: Bus,
}

fn no_write() -> Write
    ensures { result ≡ no_write }
{
    Write {
        address: 0,
        value: 0,
    }
}

pub fn no_writes() -> Writes
    ensures { result ≡ no_writes }
{
    let none = no_write();
    Writes {
        count: 0,
        first: none,
        second: none,
        third: none,
    }
}

pub fn one_write(address: u16, value: u8) -> Writes
    ensures { result ≡ one_write (write_at address value) }
{
    let none = no_write();
    Writes {
        count: 1,
        first: Write { address, value },
        second: none,
        third: none,
    }
}

// The address that SP names.
pub fn stack_address(sp: u8) -> u16
    ensures { result ≡ stack_address sp }
{
    sp as u16
}

// SP after a push.
// Down and up are two words of the definitions, not one with a direction.
pub fn down(sp: u8) -> u8
    ensures { result ≡ down sp }
{
    std::num::wrapping_add_u8(sp, 255)
}

// SP after a pull.
pub fn up(sp: u8) -> u8
    ensures { result ≡ up sp }
{
    std::num::wrapping_add_u8(sp, 1)
}

// A push at SP.
pub fn push(sp: u8, value: u8) -> Write
    ensures { result ≡ push_at sp value }
{
    Write {
        address: stack_address(sp),
        value,
    }
}

fn push_high(sp: u8, pc: u16) -> Write
    ensures { result ≡ push_high sp pc }
{
    push(sp, bits::high_byte(pc))
}

fn push_low(sp: u8, pc: u16) -> Write
    ensures { result ≡ push_low sp pc }
{
    push(down(sp), bits::low_byte(pc))
}

// PC pushed, high byte first.
pub fn push_address(sp: u8, pc: u16) -> Writes
    ensures { result ≡ push_address sp pc }
{
    let none = no_write();
    let upper = push_high(sp, pc);
    let lower = push_low(sp, pc);
    Writes {
        count: 2,
        first: upper,
        second: lower,
        third: none,
    }
}

// PC pushed, then a byte with the status.
pub fn push_interrupt(sp: u8, pc: u16, p: u8) -> Writes
    ensures { result ≡ push_interrupt sp pc p }
{
    let upper = push_high(sp, pc);
    let lower = push_low(sp, pc);
    let flags = push(down(down(sp)), p);
    Writes {
        count: 3,
        first: upper,
        second: lower,
        third: flags,
    }
}

impl Bus {
    // SP goes up first.
    pub fn pull(self, answers: &[u8], memory: &[u8], sp: u8) -> Pulled<u8>
        ensures { result ≡ pull_of answers.now memory.now sp self }
    {
        let above = up(sp);
        let got = self.read(answers, memory, stack_address(above), false);
        Pulled {
            value: got.value,
            sp: above,
            bus: got.bus,
        }
    }

    // PC pulled, low byte first.
    // What moves on is SP here and PC in `fetch_address`, so that the two are not one.
    pub fn pull_address(self, answers: &[u8], memory: &[u8], sp: u8) -> Pulled<u16>
        ensures { result ≡ pull_address answers.now memory.now sp self }
    {
        let lower = self.pull(answers, memory, sp);
        let upper = lower.bus.pull(answers, memory, lower.sp);
        Pulled {
            value: bits::word16(upper.value, lower.value),
            sp: upper.sp,
            bus: upper.bus,
        }
    }

    // A read at any address after writes that are not yet in memory.
    pub fn read_after(self, answers: &[u8], memory: &[u8], writes: Writes, address: u16) -> Got<u8>
        ensures { result ≡ read_after answers.now memory.now writes address self }
    {
        if is_register(address) {
            return self.ask(answers, address, false);
        }
        let old = crate::memory_byte(memory, address);
        Got {
            value: written_over(writes, address, old),
            bus: self,
        }
    }
}

// What stands at an address after the writes, where `old` stood before: the last one there counts.
pub fn written_over(writes: Writes, address: u16, old: u8) -> u8
    ensures { result ≡ written_over writes address old }
{
    if (2 < writes.count) & (writes.third.address == address) {
        return writes.third.value;
    }
    if (1 < writes.count) & (writes.second.address == address) {
        return writes.second.value;
    }
    if (0 < writes.count) & (writes.first.address == address) {
        return writes.first.value;
    }
    old
}
