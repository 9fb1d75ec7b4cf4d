// A tape replayed: loaded into a memory of zeros, then 100 clocks from fresh, with RES high on clock 1.
#![tactic(auto)]

ghost use Rattle.std.specs.Prelude.{◌≡◌, ◌≤◌, length, take};
ghost use Rattle.memory.specs.Memory.{memory_length};
ghost use Rattle.replay_text.specs.Replay.{tape_length, ran_of, replay_of};
ghost use Rattle.replay_text.specs.Printed.{printed};
ghost use Rattle.record_text.specs.Lines.{end_line, filled, put_of};
ghost use Rattle.tape.specs.Tapes.{fault_number};

use memory::MEMORY_LENGTH;
pub use printed::TEXT_LENGTH;
use printed::{RECORDS, Replay};
use r6501q_state::inputs::RES_HIGH;
use r6501q_state::state::fresh_state;
use record_text::End;
use tape::LoadFault;

pub mod printed; // printed.rt: what a replay comes to, and the text that is printed of it

// The most characters of a tape; what follows them on standard input plays no part.
pub const TAPE_LENGTH: usize = 16384;

// The clocks of a replay.
const CLOCKS: u32 = 100;

// Runs the clocks on a loaded memory. A fresh chip's clock is 0, so that its clock afterwards is the number of clocks
// done.
fn run_loaded(memory: &mut [u8]) -> Replay
    requires memory_len { length memory.old ≡ memory_length }
    ensures { printed result ≡ ran_of memory.old }
{
    let inputclocks = [1u32; 1];
    let inputcodes = [RES_HIGH; 1];
    let mut times = [0u32; RECORDS];
    let mut words = [0u32; RECORDS];
    let result = r6501q_run::run(
        fresh_state(),
        memory,
        &inputclocks,
        &inputcodes,
        &mut times,
        &mut words,
        CLOCKS,
        None,
    );
    let end = End {
        done: result.state.clock,
        number: result.number,
    };
    Replay {
        times,
        words,
        written: result.written,
        end,
    }
}

// A refused tape: no clock is done.
fn refused(fault: LoadFault) -> Replay
    ensures { printed result ≡ end_line 0 (fault_number fault) }
{
    let end = End {
        done: 0,
        number: fault.into(),
    };
    Replay {
        times: [0; RECORDS],
        words: [0; RECORDS],
        written: 0,
        end,
    }
}

// What a tape's replay comes to.
pub fn replayed(tape: &[u8]) -> Replay
    ensures { printed result ≡ replay_of tape.now }
{
    let mut memory = [0u8; MEMORY_LENGTH];
    match tape::load(tape, &mut memory) {
        Ok(_) => run_loaded(&mut memory),
        Err(error) => refused(error.fault),
    }
}

// Replays a tape, and puts what is to be printed into `text`; gives how many characters it is.
pub fn replay(tape: &[u8], text: &mut [u8]) -> usize
    requires { 2020 ≤ length text.old }
    ensures text_after { filled result text.new ≡ put_of (replay_of tape.now) (filled 0 text.old) }
    ensures upper_bound { result ≤ length text.new }
{
    replayed(tape).put(text)
}

// Replays what stands on standard input: its first characters are the tape.
pub fn replay_input(input: &[u8], text: &mut [u8]) -> usize
    requires { 2020 ≤ length text.old }
    ensures text_after { filled result text.new
        ≡ put_of (replay_of (take tape_length input.now)) (filled 0 text.old) }
    ensures upper_bound { result ≤ length text.new }
{
    if input.len() <= TAPE_LENGTH {
        return replay(input, text);
    }
    replay(&input[..TAPE_LENGTH], text)
}
