// The parts of a scenario's text: its inputs `+CCCCCCCC KK` and its settings `=NNNN RR`.
ghost use Rattle.std.specs.Prelude.{◌≡◌, ◌≤◌, ◌<◌, length};

use tape_records::digits::value;
use test_text::next_mark;

// Begin an input and the settings.
pub const INPUT_MARK: u8 = b'+';

pub const SETTINGS_MARK: u8 = b'=';

// The most inputs and output records of a scenario.
pub const INPUTS: usize = 32;

pub const RECORDS: usize = 64;

// How many single clocks to do, and how many output records are free.
#[derive(Clone, Copy)]
pub struct Settings {
    pub clocks: u32,
    pub records: usize,
    ghost in_range: { records ≤ 64 },
}

// The value of the hex digit at a place; 0 of any other character, and where no text is left.
fn value_at(text: &[u8], place: usize) -> u32
    ensures { result < 16 }
{
    match text.get(place) {
        Some(c) => value(*c) as u32,
        None => 0,
    }
}

// The number that the digits from `from` up to `end` write; of more than eight digits the last eight.
fn number(text: &[u8], from: usize, end: usize) -> u32 {
    let mut n: u32 = 0;
    for i in from..end {
        n = n % 0x10000000 * 16 + value_at(text, i);
    }
    n
}

// A code, of two digits.
fn code(text: &[u8]) -> u8 {
    (number(text, 10, 12) % 256) as u8
}

// The inputs from `from` on into the two lists, as many as they have room for; how many they are.
// An input's digits may hold the next mark, so that the text is not split at the marks.
pub fn read_inputs(text: &[u8], from: usize, clocks: &mut [u32], codes: &mut [u8]) -> usize
    requires { length clocks.old ≡ length codes.old }
    ensures { result ≤ length clocks.old }
{
    let mut count = 0;
    let mut at = next_mark(text, from, INPUT_MARK);
    while at < text.len() {
        if clocks.len() <= count {
            return count;
        }
        let input = &text[at..];
        clocks[count] = number(input, 1, 9);
        codes[count] = code(input);
        count += 1;
        at = next_mark(text, at + 1, INPUT_MARK);
    }
    count
}

// The settings, whose mark stands first in `text`.
pub(crate) fn read_settings(text: &[u8]) -> Settings {
    let records = number(text, 6, 8) as usize;
    Settings {
        clocks: number(text, 1, 5),
        records: records.min(RECORDS),
    }
}
