// What a program prints of a run, as text: a line for each record, `10 FFFFFF55`, then the end line, `end 100 0`.
//
// Each `put` function writes characters into the lent text from `at` on, and gives the place behind them. There is no
// Display: of that a contract says what is written only where writing succeeds, so that a run given up half-way would
// keep it.
#![tactic(auto)]

ghost use Rattle.std.specs.Prelude.{◌≡◌, ◌+◌, ◌*◌, ◌≤◌, ◌<◌, length};
ghost use Rattle.record_text.specs.Lines.{
  digit_of,
  digits_of,
  digit_count,
  decimal_of,
  hex_word,
  record_line,
  record_lines,
  end_line,
  outcome_lines,
  filled,
  put_of,
};

// The most characters of a line: ten decimal digits, a space, eight hex digits and the line's end.
pub const LINE_LENGTH: usize = 20;

// A digit, a letter in upper case.
fn digit(value: u32) -> u8
    requires { value < 16 }
    ensures { result ≡ digit_of value }
{
    if value < 10 {
        return b'0' + value as u8;
    }
    b'A' + (value - 10) as u8
}

// How many decimal digits a number has. It divides until one is left, with no index to go by.
fn digit_count(n: u32) -> usize
    ensures { result ≡ digit_count 9 n }
{
    let mut count = 1;
    let mut rest = n;
    while 10 <= rest {
        rest /= 10;
        count += 1;
    }
    count
}

fn put_characters(characters: &[u8], text: &mut [u8], at: usize) -> usize
    requires { at + length characters.now ≤ length text.old }
    ensures { filled result text.new ≡ put_of characters.now (filled at text.old) }
{
    for i in 0..characters.len() {
        text[at + i] = characters[i];
    }
    at + characters.len()
}

// The last `count` digits of a number, the highest first.
fn put_digits(n: u32, base: u32, count: usize, text: &mut [u8], at: usize) -> usize
    requires base_nonzero { (0 < base) × (base ≤ 16) }
    requires count_in_bounds { at + count ≤ length text.old }
    ensures { filled result text.new ≡ put_of (digits_of base count n) (filled at text.old) }
{
    let mut rest = n;
    for left in (0..count).rev() {
        text[at + left] = digit(rest % base);
        rest /= base;
    }
    at + count
}

fn put_decimal(n: u32, text: &mut [u8], at: usize) -> usize
    requires { at + length (decimal_of n) ≤ length text.old }
    ensures { filled result text.new ≡ put_of (decimal_of n) (filled at text.old) }
{
    put_digits(n, 10, digit_count(n), text, at)
}

fn put_word(word: u32, text: &mut [u8], at: usize) -> usize
    requires { at + 8 ≤ length text.old }
    ensures { filled result text.new ≡ put_of (hex_word word) (filled at text.old) }
{
    put_digits(word, 16, 8, text, at)
}

// The line of a record.
fn put_line(clock: u32, word: u32, text: &mut [u8], at: usize) -> usize
    requires { at + 20 ≤ length text.old }
    ensures { filled result text.new ≡ put_of (record_line clock word) (filled at text.old) }
{
    let after_clock = put_decimal(clock, text, at);
    let after_space = put_characters(b" ", text, after_clock);
    let after_word = put_word(word, text, after_space);
    put_characters(b"\n", text, after_word)
}

// A line for each record.
fn put_records(times: &[u32], words: &[u32], text: &mut [u8], at: usize) -> usize
    requires times_len { length times.now ≡ length words.now }
    requires times_in_bounds { at + 20 * length times.now ≤ length text.old }
    ensures { filled result text.new
        ≡ put_of (record_lines times.now words.now) (filled at text.old) }
{
    let mut place = at;
    for (&clock, &word) in times.iter().zip(words) {
        place = put_line(clock, word, text, place);
    }
    place
}

// How a run ended: the clocks done, and the number that ended them, or 0, as it is printed.
#[derive(Clone, Copy)]
pub struct End {
    pub done: u32,
    pub number: u8,
}

// The end line.
pub fn put_end(end: End, text: &mut [u8], at: usize) -> usize
    requires { at + 20 ≤ length text.old }
    ensures text_after { filled result text.new ≡ put_of (end_line end.done end.number) (filled at text.old) }
    ensures upper_bound { result ≤ length text.new }
{
    let after_end = put_characters(b"end ", text, at);
    let after_done = put_decimal(end.done, text, after_end);
    let after_space = put_characters(b" ", text, after_done);
    let after_number = put_decimal(end.number as u32, text, after_space);
    put_characters(b"\n", text, after_number)
}

// The lines of a run: its records, then the end line. Gives how many characters they are.
pub fn put_outcome(times: &[u32], words: &[u32], end: End, text: &mut [u8]) -> usize
    requires times_len { length times.now ≡ length words.now }
    requires times_in_bounds { 20 * (length times.now + 1) ≤ length text.old }
    ensures text_after { filled result text.new
        ≡ put_of (outcome_lines times.now words.now end.done end.number) (filled 0 text.old) }
    ensures upper_bound { result ≤ length text.new }
{
    let place = put_records(times, words, text, 0);
    put_end(end, text, place)
}
