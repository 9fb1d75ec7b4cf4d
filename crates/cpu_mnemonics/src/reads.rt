// Operations that read a byte.
ghost use Rattle.std.specs.Prelude.{◌≡◌, ◌≤◌};
ghost use Rattle.cpu_attempts.specs.Attempts.{place_of, read_tried};

use bits::one_where;
use cpu::work::Work;
use cpu_access::memory_byte;
use cpu_attempts::{Start, asks_for};
use cpu_kinds::kinds::with_read;
use cpu_kinds::updates::with_pc;
use cpu_opcodes::Mode;
use cpu_opcodes::operation::ReadOperation;

// The operation and the mode are constants at each call, so that inlined no match on them is left.
#[tactic(auto, unfolding(cpu_attempts::specs::Attempts::read_tried))]
#[inline(always)]
pub fn read(
    start: Start,
    memory: &[u8],
    operation: ReadOperation,
    mode: Mode,
    length: u8,
) -> Option<Work>
    requires { length ≤ 7 }
    ensures { result ≡ read_tried operation start.work memory.now (place_of start.work memory.now mode) length }
{
    let p = start.place(memory, mode);
    if asks_for(p) {
        return None;
    }
    let value = memory_byte(memory, p.address);
    let read = with_read(operation, with_pc(start.work.registers, p.pc), value);
    start.next(read, length + one_where(p.crossed))
}
