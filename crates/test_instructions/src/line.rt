// The parts of a line: marks and hex digits. A part that is not as it has to be is none.
ghost use Rattle.std.specs.Prelude.{◌≡◌, ◌<◌, ◌≤◌, IfSome};
ghost use Rattle.record_text.specs.Lines.{digit_of};
ghost use Rattle.test_instructions.specs.Line.{Read};

// What was read, and the place at which the line goes on.
#[derive(Clone, Copy)]
pub struct Parsed<T> {
    pub value: T,
    pub rest: usize,
}

// Past a mark.
pub(crate) fn after(line: &[u8], place: usize, mark: u8) -> Option<usize> {
    if *line.get(place)? == mark {
        return Some(place + 1);
    }
    None
}

// A digit's value; a letter in lower case has none, where `char::to_digit` gives it one.
fn value(c: u8) -> Option<u32>
    ensures upper_bound { IfSome result (λ v. v < 16) }
    ensures c_value { IfSome result (λ v. c ≡ digit_of v) }
{
    match c {
        b'0'..=b'9' => Some((c - b'0') as u32),
        b'A'..=b'F' => Some((c - b'A' + 10) as u32),
        _ => None,
    }
}

// The number that `count` digits write.
pub(crate) fn digits(line: &[u8], place: usize, count: usize) -> Option<Parsed<u32>>
    requires { count ≤ 8 }
    ensures { IfSome result (λ read. Read line.now place count read.value read.rest) }
{
    let text = line.get(place..)?.get(..count)?;
    let mut n: u32 = 0;
    for c in text {
        n = 16 * n + value(*c)?;
    }
    Some(Parsed {
        value: n,
        rest: place + count,
    })
}

// Two digits. Not one with `word16_at`: count, width and modulus would be three parameters of two lines.
pub(crate) fn byte_at(line: &[u8], place: usize) -> Option<Parsed<u8>>
    ensures { IfSome result (λ read. Read line.now place 2 read.value read.rest) }
{
    let read = digits(line, place, 2)?;
    Some(Parsed {
        value: (read.value % 0x100) as u8,
        rest: read.rest,
    })
}

// Four digits.
pub(crate) fn word16_at(line: &[u8], place: usize) -> Option<Parsed<u16>>
    ensures { IfSome result (λ read. Read line.now place 4 read.value read.rest) }
{
    let read = digits(line, place, 4)?;
    Some(Parsed {
        value: (read.value % 0x10000) as u16,
        rest: read.rest,
    })
}

// Two digits behind a space.
pub(crate) fn next_byte(line: &[u8], place: usize) -> Option<Parsed<u8>> {
    byte_at(line, after(line, place, b' ')?)
}

// Four digits behind a space.
pub(crate) fn next_word16(line: &[u8], place: usize) -> Option<Parsed<u16>> {
    word16_at(line, after(line, place, b' ')?)
}
