// The CPU at work in a span, and an instruction more of it.
ghost use Rattle.std.specs.Prelude.{◌≡◌, ◌+◌, ◌≤◌};
ghost use Rattle.cpu.specs.Work.{next_work};

use counters::time::Clocks;
use cpu_access::CpuRegisters;
use cpu_effects::Worked;

// The CPU at work in a span: its registers, the clocks that its last instruction still takes, the clocks gone since the
// span began, and the leaps done in it.
#[derive(Clone, Copy)]
pub struct Work {
    pub registers: CpuRegisters,
    pub wait: u8,
    pub gone: Clocks,
    pub leaps: u32,
}

// An instruction more.
pub fn next_work(w: Work, worked: Worked) -> Work
    requires { (w.gone.0 + w.wait + 1 ≤ 4294967295) × (w.leaps + 1 ≤ 4294967295) }
    ensures { result ≡ next_work w worked }
{
    let registers = worked.registers;
    Work {
        registers,
        wait: worked.length.saturating_sub(1),
        gone: Clocks(w.gone.0 + w.wait as u32 + 1),
        leaps: w.leaps + 1,
    }
}
