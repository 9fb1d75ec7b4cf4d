// Loads tapes from standard input, each into a memory of zeros. For each tape it prints a line: the number and the
// place that the loader hands back, in decimal, then the bytes at 3Fh, 40h, 0200h and FFFDh of that memory, in hex.
#![tactic(auto)]

use memory::MEMORY_LENGTH;
use std::io;
use std::io::Read;

// Stands between two tapes: neither `;` nor a digit.
const SEPARATOR: u8 = b'=';

// The most characters of the text; what follows them on standard input plays no part.
const TEXT_LENGTH: usize = 16384;

fn print_load(rt: &impl Print, tape: &[u8]) -> io::Result<()> {
    let mut memory = [0u8; MEMORY_LENGTH];
    match tape::load(tape, &mut memory) {
        Ok(place) => print!(rt; "0 {place}")?,
        Err(error) => print!(rt; "{} {}", u8::from(error.fault), error.place)?,
    }
    for address in [0x3F, 0x40, 0x200, 0xFFFD] {
        print!(rt; " {:02x}", memory[address])?;
    }
    println!(rt)
}

fn print_tapes(rt: &impl Print, text: &[u8]) -> io::Result<()> {
    for tape in text.split(|c| *c == SEPARATOR) {
        print_load(rt, tape)?;
    }
    Ok(())
}

fn main(rt: HostRuntime) -> io::Result<()> {
    let mut text = Vec::new(rt.alloc());
    rt.reader().take(TEXT_LENGTH as u64).read_to_end(&mut text)?;
    print_tapes(&rt, &text)
}
