// One record of a tape. `text` is what stands behind its `;`, to the end of the tape.
ghost use Rattle.std.specs.Prelude.{◌≡◌, take, drop};
ghost use Rattle.tape_records.specs.Records.{
  byte_count_of,
  address_of,
  check_sum_of,
  sum_of,
  are_digits,
  malformed,
  fault_number,
  number_in,
  fault_of,
  data_of,
};

use crate::digits::{all_digits, byte_sum, number};
use memory::MEMORY_LENGTH;

// What is wrong with a record by itself.
#[derive(Clone, Copy, PartialEq, Eq, Debug)]
pub enum Fault {
    Malformed,
    CheckSum,
}

// Its number.
impl From<Fault> for u8 {
    ghost from_gives = { λ fault number. number ≡ fault_number fault };

    fn from(fault: Fault) -> u8 {
        match fault {
            Fault::Malformed => 8,
            Fault::CheckSum => 9,
        }
    }
}

// The most data bytes of a record, and the digits of its count and address.
const MOST_BYTES: usize = 0x18;

const HEAD_LENGTH: usize = 6;

// The `n` characters from `from` on, or as many of them as there are.
fn part(text: &[u8], from: usize, n: usize) -> &[u8]
    ensures { result.now ≡ take n (drop from text.now) }
{
    let rest = text.get(from..).unwrap_or(&[]);
    rest.get(..n).unwrap_or(rest)
}

// The number of data bytes.
pub fn count(text: &[u8]) -> usize
    ensures { result ≡ byte_count_of text.now }
{
    number(part(text, 0, 2))
}

// Where its bytes go; of the last record, the number of records.
pub fn address(text: &[u8]) -> usize
    ensures { result ≡ address_of text.now }
{
    number(part(text, 2, 4))
}

// The check sum that it ends with.
fn check_sum(text: &[u8]) -> usize
    ensures { result ≡ check_sum_of text.now }
{
    number(part(text, HEAD_LENGTH + 2 * count(text), 4))
}

// The check sum that it should have.
fn sum(text: &[u8]) -> usize
    ensures { result ≡ sum_of text.now }
{
    byte_sum(part(text, 0, HEAD_LENGTH + 2 * count(text))) % 65536
}

// Whether the first `n` characters are there and are digits.
fn are_digits(text: &[u8], n: usize) -> bool
    ensures { result ≡ are_digits n text.now }
{
    (n <= text.len()) & all_digits(part(text, 0, n))
}

// Whether a digit is missing or wrong, or count or address leaves its range.
fn is_malformed(text: &[u8]) -> bool
    ensures { result ≡ malformed text.now }
{
    let n = count(text);
    let a = address(text);
    !are_digits(text, HEAD_LENGTH + 2 * n + 4) | (MOST_BYTES < n) | (MEMORY_LENGTH < a + n)
}

// A record's own fault, if it has one.
pub fn fault_of(text: &[u8]) -> Option<Fault>
    ensures { number_in result ≡ fault_of text.now }
{
    if is_malformed(text) {
        return Some(Fault::Malformed);
    }
    if sum(text) != check_sum(text) {
        return Some(Fault::CheckSum);
    }
    None
}

// The digits of a good record's data, as a part of the text.
pub fn data_digits(text: &[u8]) -> &[u8]
    ensures { result.now ≡ data_of text.now }
{
    if fault_of(text).is_some() {
        return &[];
    }
    part(text, HEAD_LENGTH, 2 * count(text))
}
