// A memory that a test fills.
use cpu_access::stack::Write;
use memory::MEMORY_LENGTH;

pub(crate) fn put(memory: &mut [u8; MEMORY_LENGTH], write: Write) {
    memory[write.address as usize] = write.value;
}
