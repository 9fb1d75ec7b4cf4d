// Operations on registers and flags, which have no operand in memory.
ghost use Rattle.std.specs.Prelude.{◌≡◌};
ghost use Rattle.cpu_access.specs.Bus.{next_address};
ghost use Rattle.cpu_attempts.specs.Attempts.{behind_opcode, started_next, register_tried, flag_tried};

use cpu::work::Work;
use cpu_attempts::Start;
use cpu_kinds::kinds::{with_flag, with_register};
use cpu_kinds::updates::with_status;
use cpu_opcodes::operation::{FlagOperation, RegisterOperation};

#[tactic(auto, unfolding(cpu_attempts::specs::Attempts::register_tried))]
#[inline(always)]
pub fn register(start: Start, operation: RegisterOperation, length: u8) -> Option<Work>
    ensures { result ≡ register_tried operation start.work (next_address start.work.registers.pc) length }
{
    start.next(with_register(operation, start.behind_opcode()), length)
}

#[tactic(auto, unfolding(cpu_attempts::specs::Attempts::flag_tried))]
#[inline(always)]
pub fn flag(start: Start, operation: FlagOperation, length: u8) -> Option<Work>
    ensures { result ≡ flag_tried operation start.work (next_address start.work.registers.pc) length }
{
    let status = with_flag(operation, start.work.registers.status);
    start.next(with_status(start.behind_opcode(), status), length)
}

pub fn no_operation(start: Start, length: u8) -> Option<Work>
    ensures { result ≡ started_next start.work (behind_opcode start.work) length }
{
    start.next(start.behind_opcode(), length)
}
