// The halt address, and whether a clock's writes are at it.
ghost use Rattle.std.specs.Prelude.{◌≡◌};
ghost use Rattle.cpu_access.specs.Halt.{is_written, halts, writes_register, ends_span};

use crate::stack::Writes;
use memory::is_register;

// Whether one of the writes is at an address.
fn is_written(writes: Writes, address: u16) -> bool
    ensures { result ≡ is_written address writes }
{
    let first = (0 < writes.count) & (writes.first.address == address);
    let second = (1 < writes.count) & (writes.second.address == address);
    let third = (2 < writes.count) & (writes.third.address == address);
    first | second | third
}

// Whether one of the writes is at the halt address, where there is one.
#[tactic(auto, unfolding(crate::specs::Halt::halts))]
pub fn halts(writes: Writes, halt: Option<u16>) -> bool
    ensures { result ≡ halts halt writes }
{
    halt.is_some_and(|address| is_written(writes, address))
}

// Whether one of the writes is at a register's address.
fn writes_register(w: Writes) -> bool
    ensures { result ≡ writes_register w }
{
    let first = (0 < w.count) & is_register(w.first.address);
    let second = (1 < w.count) & is_register(w.second.address);
    let third = (2 < w.count) & is_register(w.third.address);
    first | second | third
}

// Whether a clock with these writes is left to the clock's own rules.
pub fn ends_span(w: Writes, halt: Option<u16>) -> bool
    ensures { result ≡ ends_span halt w }
{
    let register = writes_register(w);
    register | halts(w, halt)
}
