// One register as given, or with the flags, the others kept.
ghost use Rattle.std.specs.Prelude.{◌≡◌};
ghost use Rattle.cpu_kinds.specs.Updates.{with_sp, with_pc, with_status, into_a, into_x, into_y, load_a, load_x};
ghost use Rattle.cpu_kinds.specs.Updates.{load_y};

use cpu_access::CpuRegisters;
use cpu_alu::{Computed, Status};

pub fn with_sp(registers: CpuRegisters, sp: u8) -> CpuRegisters
    ensures { result ≡ with_sp sp registers }
{
    CpuRegisters { sp, ..registers }
}

pub fn with_pc(registers: CpuRegisters, pc: u16) -> CpuRegisters
    ensures { result ≡ with_pc pc registers }
{
    CpuRegisters { pc, ..registers }
}

pub fn with_status(registers: CpuRegisters, status: Status) -> CpuRegisters
    ensures { result ≡ with_status status registers }
{
    CpuRegisters {
        status,
        ..registers
    }
}

// A function for each register: a field has no name that a caller could hand over.
// What was computed, into a register, with the flags.
pub fn into_a(registers: CpuRegisters, computed: Computed) -> CpuRegisters
    ensures { result ≡ into_a computed registers }
{
    CpuRegisters {
        a: computed.value,
        status: computed.status,
        ..registers
    }
}

pub fn into_x(registers: CpuRegisters, computed: Computed) -> CpuRegisters
    ensures { result ≡ into_x computed registers }
{
    CpuRegisters {
        x: computed.value,
        status: computed.status,
        ..registers
    }
}

pub fn into_y(registers: CpuRegisters, computed: Computed) -> CpuRegisters
    ensures { result ≡ into_y computed registers }
{
    CpuRegisters {
        y: computed.value,
        status: computed.status,
        ..registers
    }
}

// Loads and transfers: N and Z of the byte.
pub fn load_a(registers: CpuRegisters, value: u8) -> CpuRegisters
    ensures { result ≡ load_a value registers }
{
    CpuRegisters {
        a: value,
        status: registers.status.with_nz(value),
        ..registers
    }
}

pub fn load_x(registers: CpuRegisters, value: u8) -> CpuRegisters
    ensures { result ≡ load_x value registers }
{
    CpuRegisters {
        x: value,
        status: registers.status.with_nz(value),
        ..registers
    }
}

pub fn load_y(registers: CpuRegisters, value: u8) -> CpuRegisters
    ensures { result ≡ load_y value registers }
{
    CpuRegisters {
        y: value,
        status: registers.status.with_nz(value),
        ..registers
    }
}
