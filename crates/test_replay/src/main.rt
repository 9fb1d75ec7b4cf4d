// Replays several tapes from standard input, each as the program `replay` does, and prints what each comes to. A `=`
// stands between two tapes; lines that begin with `#` are titles, which a tape skips.
//
// The expected output was never made by this program. It was worked out from the documents, as the titles say (on which
// clock an instruction starts, when a counter underflows), and an independent model, written from the documents alone,
// which does one plain clock after another, gives the same. Stop 7 is not among it: 100 clocks write 100 records at
// most, and so many are free.
#![tactic(auto)]

use replay_text::{TEXT_LENGTH, replay};
use std::io;
use std::io::Read;

// Stands between two tapes: neither `;` nor a digit.
const SEPARATOR: u8 = b'=';

// The most characters of the tapes; what follows them on standard input plays no part.
const TAPES_LENGTH: usize = 16384;

fn print_replay(rt: &impl Print, tape: &[u8]) -> io::Result<()> {
    let mut text = [0u8; TEXT_LENGTH];
    let put = replay(tape, &mut text);
    rt.write_all(&text[..put])
}

fn print_replays(rt: &impl Print, tapes: &[u8]) -> io::Result<()> {
    for tape in tapes.split(|c| *c == SEPARATOR) {
        print_replay(rt, tape)?;
    }
    Ok(())
}

fn main(rt: HostRuntime) -> io::Result<()> {
    let mut tapes = Vec::new(rt.alloc());
    rt.reader()
        .take(TAPES_LENGTH as u64)
        .read_to_end(&mut tapes)?;
    print_replays(&rt, &tapes)
}
