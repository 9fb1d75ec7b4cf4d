// What each operation does: how it uses the byte at its operand's address, and what it leaves.
#![tactic(auto)]

ghost use Rattle.std.specs.Prelude.{◌≡◌};
ghost use Rattle.cpu_effects.specs.Operand.{operand};
ghost use Rattle.cpu_operations.specs.Operations.{access_of, is_jsr, operate_of};

use cpu_access::CpuRegisters;
use cpu_effects::effects::{
    bit_branched, branched, break_taken, completed, jumped, modified, pulled_byte, pushed_byte,
    returned, returned_from_interrupt, stored,
};
use cpu_effects::{Executed, Operand};
use cpu_kinds::kinds::{
    bit_branch_taken, branch_taken, byte_to_push, byte_to_store, changed, with_flag, with_read,
    with_register,
};
use cpu_kinds::updates::with_status;
use cpu_opcodes::operation::Operation;

// What an operation does with the byte at its operand's address; JSR reads its operand itself.
#[derive(Clone, Copy)]
pub enum Access {
    Nothing,
    Read,
    Modify,
    Jsr,
}

pub fn access_of(operation: Operation) -> Access
    ensures { result ≡ access_of operation }
{
    match operation {
        Operation::Read(_) | Operation::BitBranch(_) => Access::Read,
        Operation::Modify(_) => Access::Modify,
        Operation::Jsr => Access::Jsr,
        _ => Access::Nothing,
    }
}

pub fn is_jsr(access: Access) -> bool
    ensures { result ≡ is_jsr access }
{
    matches!(access, Access::Jsr)
}

// The operation itself. `r` has PC behind the operand bytes; JSR does not come here.
pub fn operate(
    answers: &[u8],
    memory: &[u8],
    operation: Operation,
    r: CpuRegisters,
    o: Operand,
) -> Executed
    ensures { result ≡ operate_of answers.now memory.now operation r (operand o) }
{
    let status = r.status;
    let value = o.value;
    match operation {
        Operation::Read(read) => completed(o, with_read(read, r, value)),
        Operation::Modify(modify) => modified(o, r, changed(modify, value, status)),
        Operation::Store(store) => stored(o, r, byte_to_store(store, r)),
        Operation::Branch(branch) => branched(o, r, branch_taken(branch, status)),
        Operation::BitBranch(branch) => {
            bit_branched(answers, memory, o, r, bit_branch_taken(branch, value))
        }
        Operation::Push(push) => pushed_byte(o, r, byte_to_push(push, r)),
        Operation::Pull(pull) => pulled_byte(answers, memory, pull, o, r),
        Operation::Register(register) => completed(o, with_register(register, r)),
        Operation::Flag(flag) => completed(o, with_status(r, with_flag(flag, status))),
        Operation::Brk => break_taken(memory, o, r),
        Operation::Jmp => jumped(o, r),
        Operation::Jsr | Operation::Nop => completed(o, r),
        Operation::Rti => returned_from_interrupt(answers, memory, o, r),
        Operation::Rts => returned(answers, memory, o, r),
    }
}
