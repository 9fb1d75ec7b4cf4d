// What a replay comes to, and the text that is printed of it.
ghost use Rattle.std.specs.Prelude.{◌≤◌};

use record_text::{End, LINE_LENGTH, put_outcome};

// The free output records of a replay.
pub const RECORDS: usize = 100;

// The most characters that a replay prints: a line for each record, and the end line.
pub const TEXT_LENGTH: usize = LINE_LENGTH * (RECORDS + 1);

// The records written, and how the replay ended.
#[derive(Clone, Copy)]
pub struct Replay {
    pub times: [u32; RECORDS],
    pub words: [u32; RECORDS],
    pub written: usize,
    pub end: End,
    ghost in_range: { written ≤ 100 },
}

impl Replay {
    ghost use Rattle.std.specs.Prelude.{◌≡◌, ◌≤◌, length};
    ghost use Rattle.record_text.specs.Lines.{filled, put_of};
    ghost use Rattle.replay_text.specs.Printed.{printed};

    // Puts what is to be printed into `text`; gives how many characters it is.
    pub fn put(self, text: &mut [u8]) -> usize
        requires { 2020 ≤ length text.old }
        ensures text_after { filled result text.new ≡ put_of (printed self) (filled 0 text.old) }
        ensures upper_bound { result ≤ length text.new }
    {
        let times = &self.times[..self.written];
        let words = &self.words[..self.written];
        put_outcome(times, words, self.end, text)
    }
}
