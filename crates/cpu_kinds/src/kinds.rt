// The operations of each kind (source document 001, appendix A): what each computes of registers, flags and a byte.
// Each is built in where it is called, so that at a constant operation no match is left.
ghost use Rattle.std.specs.Prelude.{◌≡◌};
ghost use Rattle.cpu_kinds.specs.Kinds.{with_read, flags_kept, changed_by, byte_to_store, branch_taken};
ghost use Rattle.cpu_kinds.specs.Kinds.{bit_branch_taken, byte_to_push, with_pulled, with_register, with_flag};

use crate::updates::{into_a, into_x, into_y, load_a, load_x, load_y, with_sp, with_status};
use cpu_access::CpuRegisters;
use cpu_alu::{Computed, Status, arithmetic, logic, shift};
use cpu_opcodes::operation::{
    BitBranchOperation, BranchOperation, FlagOperation, ModifyOperation, PullOperation,
    PushOperation, ReadOperation, RegisterOperation, StoreOperation,
};

// The registers after a byte was read.
#[inline(always)]
pub fn with_read(operation: ReadOperation, r: CpuRegisters, value: u8) -> CpuRegisters
    ensures { result ≡ with_read operation r value }
{
    let status = r.status;
    match operation {
        ReadOperation::Adc => into_a(r, arithmetic::adc(r.a, value, status)),
        ReadOperation::And => into_a(r, logic::and(r.a, value, status)),
        ReadOperation::Bit => with_status(r, logic::bit_test(r.a, value, status)),
        ReadOperation::Cmp => with_status(r, arithmetic::compare(r.a, value, status)),
        ReadOperation::Cpx => with_status(r, arithmetic::compare(r.x, value, status)),
        ReadOperation::Cpy => with_status(r, arithmetic::compare(r.y, value, status)),
        ReadOperation::Eor => into_a(r, logic::eor(r.a, value, status)),
        ReadOperation::Lda => load_a(r, value),
        ReadOperation::Ldx => load_x(r, value),
        ReadOperation::Ldy => load_y(r, value),
        ReadOperation::Ora => into_a(r, logic::ora(r.a, value, status)),
        ReadOperation::Sbc => into_a(r, arithmetic::sbc(r.a, value, status)),
    }
}

// A changed byte, with the flags as they were.
fn flags_kept(value: u8, status: Status) -> Computed
    ensures { result ≡ flags_kept value status }
{
    Computed { value, status }
}

// The byte that goes back, with the flags.
#[inline(always)]
pub fn changed(operation: ModifyOperation, value: u8, status: Status) -> Computed
    ensures { result ≡ changed_by operation value status }
{
    match operation {
        ModifyOperation::Asl => shift::asl(value, status),
        ModifyOperation::Dec => shift::decrement(value, status),
        ModifyOperation::Inc => shift::increment(value, status),
        ModifyOperation::Lsr => shift::lsr(value, status),
        ModifyOperation::Rol => shift::rol(value, status),
        ModifyOperation::Ror => shift::ror(value, status),
        ModifyOperation::Rmb(m) => flags_kept(shift::reset_bit(value, m), status),
        ModifyOperation::Smb(m) => flags_kept(shift::set_bit(value, m), status),
    }
}

#[inline(always)]
pub fn byte_to_store(operation: StoreOperation, r: CpuRegisters) -> u8
    ensures { result ≡ byte_to_store operation r }
{
    match operation {
        StoreOperation::Sta => r.a,
        StoreOperation::Stx => r.x,
        StoreOperation::Sty => r.y,
    }
}

#[inline(always)]
pub fn branch_taken(operation: BranchOperation, status: Status) -> bool
    ensures { result ≡ branch_taken operation status }
{
    match operation {
        BranchOperation::Bcc => !status.c,
        BranchOperation::Bcs => status.c,
        BranchOperation::Beq => status.z,
        BranchOperation::Bmi => status.n,
        BranchOperation::Bne => !status.z,
        BranchOperation::Bpl => !status.n,
        BranchOperation::Bvc => !status.v,
        BranchOperation::Bvs => status.v,
    }
}

// Of the byte that is tested.
#[inline(always)]
pub fn bit_branch_taken(operation: BitBranchOperation, value: u8) -> bool
    ensures { result ≡ bit_branch_taken operation value }
{
    match operation {
        BitBranchOperation::Bbr(m) => !bits::bit8(value, m % 8),
        BitBranchOperation::Bbs(m) => bits::bit8(value, m % 8),
    }
}

#[inline(always)]
pub fn byte_to_push(operation: PushOperation, r: CpuRegisters) -> u8
    ensures { result ≡ byte_to_push operation r }
{
    match operation {
        PushOperation::Pha => r.a,
        PushOperation::Php => r.status.pushed(true),
    }
}

// The registers after a byte was pulled.
#[inline(always)]
pub fn with_pulled(operation: PullOperation, r: CpuRegisters, value: u8) -> CpuRegisters
    ensures { result ≡ with_pulled operation r value }
{
    match operation {
        PullOperation::Pla => load_a(r, value),
        PullOperation::Plp => with_status(r, Status::from(value)),
    }
}

#[inline(always)]
pub fn with_register(operation: RegisterOperation, r: CpuRegisters) -> CpuRegisters
    ensures { result ≡ with_register operation r }
{
    let status = r.status;
    match operation {
        RegisterOperation::Dex => into_x(r, shift::decrement(r.x, status)),
        RegisterOperation::Dey => into_y(r, shift::decrement(r.y, status)),
        RegisterOperation::Inx => into_x(r, shift::increment(r.x, status)),
        RegisterOperation::Iny => into_y(r, shift::increment(r.y, status)),
        RegisterOperation::Tax => load_x(r, r.a),
        RegisterOperation::Tay => load_y(r, r.a),
        RegisterOperation::Tsx => load_x(r, r.sp),
        RegisterOperation::Txa => load_a(r, r.x),
        RegisterOperation::Txs => with_sp(r, r.x),
        RegisterOperation::Tya => load_a(r, r.y),
    }
}

#[inline(always)]
pub fn with_flag(operation: FlagOperation, status: Status) -> Status
    ensures { result ≡ with_flag operation status }
{
    match operation {
        FlagOperation::Clc => status.with_c(false),
        FlagOperation::Cld => status.with_d(false),
        FlagOperation::Cli => status.with_i(false),
        FlagOperation::Clv => status.with_v(false),
        FlagOperation::Sec => status.with_c(true),
        FlagOperation::Sed => status.with_d(true),
        FlagOperation::Sei => status.with_i(true),
    }
}
