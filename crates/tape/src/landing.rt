// Bytes into memory, and into its page sums.
ghost use Rattle.std.specs.Prelude.{◌≡◌, ◌+◌, ◌-◌, ◌*◌, ◌^◌, ◌<◌, ◌≤◌, length};
ghost use Rattle.tape_records.specs.Digits.{bytes_of};
ghost use Rattle.tape.specs.Tapes.{put_from};
ghost use Rattle.memory.specs.Memory.{register_end};
ghost use Rattle.page_sums.specs.PageSums.{sums_after_part, sums_after};

use memory::REGISTER_END;
use page_sums::commit_byte;
use tape_records::digits::byte;

// How many bytes from an address on are dropped.
fn dropped(address: usize) -> usize
    ensures { result ≡ register_end - address }
{
    (REGISTER_END as usize).saturating_sub(address)
}

// The byte writer: the bytes of the digits from the start of a part of memory on, which starts at `address`, and into
// the page sums; those that are dropped come first.
fn put_bytes(part: &mut [u8], address: usize, sums: &mut [u16], digits: &[u8])
    requires { (length digits.now ≤ 2 * length part.old) × (address + length part.old < 2 ^ 64) }
    ensures part_after { part.new
        ≡ put_from (register_end - address) 0 (bytes_of digits.now) part.old }
    ensures sums_after { sums.new
        ≡ sums_after_part address sums.old part.old part.new }
{
    for k in dropped(address)..digits.len() / 2 {
        commit_byte(
            part,
            address,
            sums,
            k,
            byte(digits[2 * k], digits[2 * k + 1]),
        );
    }
}

// Bytes land from the address onward: the part of memory that starts there is lent to the writer.
pub fn land(memory: &mut [u8], sums: &mut [u16], address: usize, digits: &[u8])
    requires { (address ≤ length memory.old) × (length digits.now ≤ 2 * (length memory.old - address)) }
    ensures memory_after { memory.new
        ≡ put_from register_end address (bytes_of digits.now) memory.old }
    ensures sums_after { sums.new ≡ sums_after sums.old memory.old memory.new }
{
    put_bytes(&mut memory[address..], address, sums, digits);
}
