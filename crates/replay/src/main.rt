// Replays the tape on standard input: loads it into a memory of zeros, runs 100 clocks from fresh, with RES high on
// clock 1, and prints a line `clock WORD` for each record, then `end K S`: K clocks done, and S the number that ended
// them or refused the tape, or 0.
#![tactic(auto)]

use replay_text::{TAPE_LENGTH, TEXT_LENGTH, replay_input};
use std::io;
use std::io::Read;

fn main(rt: HostRuntime) -> io::Result<()> {
    let mut tape = Vec::new(rt.alloc());
    rt.reader().take(TAPE_LENGTH as u64).read_to_end(&mut tape)?;
    let mut text = [0u8; TEXT_LENGTH];
    let put = replay_input(&tape, &mut text);
    rt.write_all(&text[..put])
}
