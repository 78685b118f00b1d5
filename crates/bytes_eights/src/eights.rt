// Eight bytes as one number of 64 bits, the first byte the lowest. What is done to the number is done to each byte.
ghost use Rattle.std.specs.Prelude.{◌≡◌, ◌+◌, ◌≤◌, length, bit_xor};
ghost use Rattle.bytes_eights.specs.Words.{Eight, zeros, PlainTo, DigitsTo};

const HIGHS: u64 = 0x8080808080808080;

const LOWS: u64 = 0x7F7F7F7F7F7F7F7F;

const ONES: u64 = 0x0101010101010101;

const SPACES: u64 = 0x2020202020202020;

const QUOTES: u64 = 0x2222222222222222;

const BACKSLASHES: u64 = 0x5C5C5C5C5C5C5C5C;

const ZEROS: u64 = 0x3030303030303030;

// What lifts a byte from 10 on over 0x7F.
const TENS: u64 = 0x7676767676767676;

// The eight bytes from i on.
pub fn word_at(s: &[u8], i: usize) -> u64
    requires { i + 8 ≤ length s.now }
    ensures { Eight result s.now i }
{
    (s[i] as u64)
        + (s[i + 1] as u64) * 0x100
        + (s[i + 2] as u64) * 0x10000
        + (s[i + 3] as u64) * 0x1000000
        + (s[i + 4] as u64) * 0x100000000
        + (s[i + 5] as u64) * 0x10000000000
        + (s[i + 6] as u64) * 0x1000000000000
        + (s[i + 7] as u64) * 0x100000000000000
}

// How many of the lowest bytes of a number are zero before the first that is not; eight where all are.
pub fn zero_bytes(m: u64) -> usize
    ensures { (result ≤ 8) × (result ≡ zeros m) }
{
    (u64::trailing_zeros(m) / 8) as usize
}

// The bytes of the result are zero where a and b agree.
pub fn differ(a: u64, b: u64) -> u64
    ensures { result ≡ bit_xor a b }
{
    a ^ b
}

// How many of the lowest bytes of a and b are the same before the first that differs; eight where all are.
pub fn common_in(a: u64, b: u64) -> usize
    ensures { (result ≤ 8) × (result ≡ zeros (bit_xor a b)) }
{
    zero_bytes(differ(a, b))
}

// The highest bit of a byte of the result is set if that byte is a quote, a backslash, a control or not ASCII. A subtraction may borrow from the
// next byte, so only the lowest set bit is reliable, and only it is used.
pub fn stops(w: u64) -> u64
    ensures { PlainTo w (zeros result) }
{
    let quotes = std::num::wrapping_sub_u64(w ^ QUOTES, ONES);
    let backslashes = std::num::wrapping_sub_u64(w ^ BACKSLASHES, ONES);
    let controls = std::num::wrapping_sub_u64(w, SPACES);
    (quotes | backslashes | controls) & HIGHS
}

// Zero in the first bytes that are digits. Without the bits of the digit zero these are below 10; what a byte is not shows in its highest bit.
pub fn non_digits(w: u64) -> u64
    ensures { DigitsTo w (zeros result) }
{
    let x = w ^ ZEROS;
    (((x & LOWS) + TENS) | x) & HIGHS
}
