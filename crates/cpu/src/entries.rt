// Interrupt entries: reset, NMI and IRQ.
ghost use Rattle.std.specs.Prelude.{◌≡◌};
ghost use Rattle.cpu.specs.EntriesInCode.{reset_entry, interrupt_entry};

use cpu_access::{CpuRegisters, RESET_VECTOR};
use cpu_effects::effects::interrupted;
use cpu_effects::{Worked, Writing};
use cpu_kinds::updates::{with_pc, with_status};

// Reset pushes nothing and keeps SP.
pub fn reset_entry(memory: &[u8], registers: CpuRegisters) -> Worked
    ensures { result ≡ reset_entry memory.now registers }
{
    let masked = with_status(registers, registers.status.with_i(true));
    let entered = with_pc(masked, cpu_access::vector(memory, RESET_VECTOR));
    Worked {
        registers: entered,
        writing: Writing::Nothing,
        length: 7,
    }
}

// NMI and IRQ, by their vector.
pub fn interrupt_entry(memory: &[u8], vector: u16, registers: CpuRegisters) -> Worked
    ensures { result ≡ interrupt_entry memory.now vector registers }
{
    interrupted(memory, vector, registers.status.pushed(false), registers)
}
