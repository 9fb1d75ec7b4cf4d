// The address space of the R6501Q: a lent memory, whose first addresses are the registers' (document 01, "Machine
// state").
#![tactic(auto)]

ghost use Rattle.std.specs.Prelude.{◌≡◌};
ghost use Rattle.memory.specs.Memory.{is_register};

// The bytes of a memory.
pub const MEMORY_LENGTH: usize = 65536;

// The addresses below this one are the registers'.
pub const REGISTER_END: u16 = 0x40;

// Whether an address is a register's.
pub fn is_register(address: u16) -> bool
    ensures { result ≡ is_register address }
{
    address < REGISTER_END
}
