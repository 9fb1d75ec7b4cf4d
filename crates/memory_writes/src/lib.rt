// A clock's writes, put into memory and its page sums.
// Memory and page sums are lent as two slices: one behind a field of a lent struct is known no more once it has been
// lent to be read, and an instruction reads before it writes.
#![tactic(auto)]

ghost use Rattle.std.specs.Prelude.{◌≡◌, true};
ghost use Rattle.page_sums.specs.PageSums.{sums_after};
ghost use Rattle.memory_writes.specs.Commit.{put_write, committed};

use cpu_access::stack::{Write, Writes};
use memory::is_register;
use page_sums::commit_byte;

// A write to memory; one at a register's address is not for memory.
pub fn put_write(memory: &mut [u8], sums: &mut [u16], w: Write)
    ensures memory_after { memory.new ≡ put_write true w memory.old }
    ensures sums_after { sums.new ≡ sums_after sums.old memory.old memory.new }
{
    let at = w.address as usize;
    let here = !is_register(w.address);
    if here {
        if at < memory.len() {
            commit_byte(memory, 0, sums, at, w.value);
        }
    }
}

// A clock's writes to memory, in their order, with the sums of their pages. A caller without sums lends an empty list.
pub fn commit(memory: &mut [u8], sums: &mut [u16], w: Writes)
    ensures memory_after { memory.new ≡ committed memory.old w }
    ensures sums_after { sums.new ≡ sums_after sums.old memory.old memory.new }
{
    if w.count == 0 {
        return;
    }
    put_write(memory, sums, w.first);
    if w.count == 1 {
        return;
    }
    put_write(memory, sums, w.second);
    if w.count == 2 {
        return;
    }
    put_write(memory, sums, w.third);
}
