// What an instruction leaves: CPU registers, nothing written or pushes or one store, and its length.
#![tactic(auto)]

ghost use Rattle.std.specs.Prelude.{◌≡◌};
ghost use Rattle.cpu_effects.specs.Effects.{pushes_of, waiting_of};

use cpu_access::stack::{Write, Writes, no_writes};
use cpu_access::{Bus, CpuRegisters};

pub mod effects; // effects.rt: what an instruction leaves, by kind
mod operands; // operands.rt: the operand of an instruction

pub use operands::Operand;

// What an instruction or an entry writes: nothing, pushes in their order, or one store; never pushes and a store.
#[derive(Clone, Copy)]
pub enum Writing {
    Nothing,
    Pushed(Writes),
    Stored(Write),
}

// An instruction, or an entry, that is done: the registers after it, what it writes, and its clocks.
#[derive(Clone, Copy)]
pub struct Worked {
    pub registers: CpuRegisters,
    pub writing: Writing,
    pub length: u8,
}

// An instruction worked to its end, with what it asked for.
#[derive(Clone, Copy)]
pub struct Executed {
    pub worked: Worked,
    pub bus: Bus,
}

// The pushes in their order.
#[tactic(auto, unfolding(crate::specs::Effects::pushes_of))]
pub fn pushes_of(writing: Writing) -> Writes
    ensures { result ≡ pushes_of writing }
{
    match writing {
        Writing::Nothing | Writing::Stored(_) => no_writes(),
        Writing::Pushed(pushes) => pushes,
    }
}

// The store, which waits for the last clock.
#[tactic(auto, unfolding(crate::specs::Effects::waiting_of))]
pub fn waiting_of(writing: Writing) -> Option<Write>
    ensures { result ≡ waiting_of writing }
{
    match writing {
        Writing::Nothing | Writing::Pushed(_) => None,
        Writing::Stored(store) => Some(store),
    }
}
