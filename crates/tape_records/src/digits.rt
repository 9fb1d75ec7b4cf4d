// Hex digits, and the numbers and bytes that they write.
ghost use Rattle.std.specs.Prelude.{◌≡◌, ◌≤◌, length};
ghost use Rattle.bits.specs.Lists.{all_of};
ghost use Rattle.page_sums.specs.PageSums.{total_of};
ghost use Rattle.tape_records.specs.Digits.{is_digit, value_of, number_of, byte_of, bytes_of};

// Whether a character is of `0` to `9`, `A` to `F`.
pub fn is_digit(c: u8) -> bool
    ensures { result ≡ is_digit c }
{
    (b'0' <= c) & (c <= b'9') | (b'A' <= c) & (c <= b'F')
}

// Whether each character is a digit.
pub fn all_digits(text: &[u8]) -> bool
    ensures { result ≡ all_of is_digit text.now }
{
    text.iter().all(|&c| is_digit(c))
}

// A digit's value; 0 of any other character, where `char::to_digit` takes lower case too.
#[tactic(auto, using(crate::proofs::DigitLaws::value_low, crate::proofs::DigitLaws::value_decimal, crate::proofs::DigitLaws::value_between, crate::proofs::DigitLaws::value_letter, crate::proofs::DigitLaws::value_high))]
pub fn value(c: u8) -> usize
    ensures { result ≡ value_of c }
{
    match c {
        b'0'..=b'9' => (c - b'0') as usize,
        b'A'..=b'F' => (c - b'A' + 10) as usize,
        _ => 0,
    }
}

// The number that up to four digits write.
pub fn number(digits: &[u8]) -> usize
    requires { length digits.now ≤ 4 }
    ensures { result ≡ number_of digits.now }
{
    let mut n: usize = 0;
    for &c in digits {
        n = 16 * n + value(c);
    }
    n
}

// The byte that two digits write.
pub fn byte(high: u8, low: u8) -> u8
    ensures { result ≡ byte_of high low }
{
    (16 * value(high) + value(low)) as u8
}

// The sum of the bytes that digits write.
pub fn byte_sum(digits: &[u8]) -> usize
    requires { length digits.now ≤ 65536 }
    ensures { result ≡ total_of (bytes_of digits.now) }
{
    let mut sum: usize = 0;
    for pair in digits.chunks_exact(2) {
        sum += byte(pair[0], pair[1]) as usize;
    }
    sum
}
