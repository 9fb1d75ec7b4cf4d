// Bits and bytes of numbers.
#![tactic(auto)]

ghost use Rattle.std.specs.Prelude.{◌≡◌, ◌<◌};
ghost use Rattle.bits.specs.Bits.{bit, one_where, with_bit, set_where, flip_where, low_byte, high_byte, word16};

// Whether bit k of a byte is set.
pub fn bit8(x: u8, k: u8) -> bool
    requires { k < 8 }
    ensures { result ≡ bit k x }
{
    bit32(x as u32, k as u32)
}

// Whether bit k of a 32-bit number is set.
pub fn bit32(x: u32, k: u32) -> bool
    requires { k < 32 }
    ensures { result ≡ bit k x }
{
    (x >> k) % 2 == 1
}

// A yes as 1, a no as 0.
pub fn one_where(on: bool) -> u8
    ensures { result ≡ one_where on }
{
    u8::from(on)
}

// A byte with bit k as given.
pub fn with_bit(x: u8, k: u8, on: bool) -> u8
    requires { k < 8 }
    ensures { result ≡ with_bit k on x }
{
    with_bit32(x as u32, k as u32, on) as u8
}

// A 32-bit number with bit k as given.
pub fn with_bit32(x: u32, k: u32, on: bool) -> u32
    requires { k < 32 }
    ensures { result ≡ with_bit k on x }
{
    let weight: u32 = 1 << k;
    let kept = x - (x >> k) % 2 * weight;
    if on { kept + weight } else { kept }
}

// A byte with bit k set where asked.
pub fn set_where(x: u8, k: u8, on: bool) -> u8
    requires { k < 8 }
    ensures { result ≡ set_where k on x }
{
    if on { with_bit(x, k, true) } else { x }
}

// A byte with bit k inverted where asked.
pub fn flip_where(x: u8, k: u8, on: bool) -> u8
    requires { k < 8 }
    ensures { result ≡ flip_where k on x }
{
    if on { with_bit(x, k, !bit8(x, k)) } else { x }
}

// The lower byte of a 16-bit number.
pub fn low_byte(x: u16) -> u8
    ensures { result ≡ low_byte x }
{
    (x % 256) as u8
}

// The upper byte of a 16-bit number.
pub fn high_byte(x: u16) -> u8
    ensures { result ≡ high_byte x }
{
    (x / 256 % 256) as u8
}

// The 16-bit number of two bytes.
pub fn word16(upper: u8, lower: u8) -> u16
    ensures { result ≡ word16 upper lower }
{
    upper as u16 * 256 + lower as u16
}
