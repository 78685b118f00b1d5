// The characters of a string that are escaped, and the code points that are meant.
ghost use Rattle.std.specs.Prelude.{◌≡◌, ◌≤◌, ◌<◌, ◌+◌, length, drop};
ghost use Rattle.rules.specs.Json.Strings.{hex_digit, code_unit, paired, high as high_half, code_point, short_escape, escaped};
ghost use Rattle.json_characters.specs.Codes.{Taken, Means};

const SMALL_U: u8 = b'u';

// The first code units that are high surrogates, that are low ones, and that are neither again.
const HIGH: u32 = 0xD800;

const LOW: u32 = 0xDC00;

const BEYOND: u32 = 0xE000;

// The value of a hexadecimal digit.
fn hex_digit(b: u8) -> Option<u8>
    ensures { Means (hex_digit b) 0xF result }
{
    match b {
        b'0'..=b'9' => Some(b - b'0'),
        b'A'..=b'F' => Some(b - b'A' + 10),
        b'a'..=b'f' => Some(b - b'a' + 10),
        _ => None,
    }
}

// The byte that is meant by one behind a backslash.
fn short_escape(b: u8) -> Option<u8>
    ensures { Means (short_escape b) 0x5C result }
{
    match b {
        b'"' | b'\\' | b'/' => Some(b),
        b'b' => Some(0x08),
        b'f' => Some(0x0C),
        b'n' => Some(b'\n'),
        b'r' => Some(b'\r'),
        b't' => Some(b'\t'),
        _ => None,
    }
}

// Four hexadecimal digits.
fn code_unit(s: &[u8], at: usize) -> Option<(u32, usize)>
    requires { at ≤ length s.now }
    ensures { Taken (code_unit (drop at s.now)) s.now at 0xFFFF result }
{
    if s.len() - at < 4 {
        return None;
    }
    let mut u = 0;
    for i in at..at + 4 {
        let d = hex_digit(s[i])?;
        u = u * 16 + u32::from(d);
    }
    Some((u, at + 4))
}

// Behind the high surrogate: the escape of a low one, and the code point of both.
fn low_half(s: &[u8], at: usize, high: u32) -> Option<(u32, usize)>
    requires { (at ≤ length s.now) × (0xD800 ≤ high) × (high < 0xDC00) }
    ensures { Taken (paired high_half high (drop at s.now)) s.now at 0x10FFFF result }
{
    let i = json_tokens::skip_word(s, at, b"\\u")?;
    let (low, j) = code_unit(s, i)?;
    if low < LOW || BEYOND <= low {
        return None;
    }
    Some((0x10000 + (high - HIGH) * 0x400 + (low - LOW), j))
}

// The code point of the digits behind a backslash and a u; a surrogate alone is none.
fn code_point(s: &[u8], at: usize) -> Option<(u32, usize)>
    requires { at ≤ length s.now }
    ensures { Taken (code_point (drop at s.now)) s.now at 0x10FFFF result }
{
    let (u, i) = code_unit(s, at)?;
    match u {
        HIGH..LOW => low_half(s, i, u),
        LOW..BEYOND => None,
        _ => Some((u, i)),
    }
}

// Behind a backslash: the code point that is meant.
pub fn escape(s: &[u8], at: usize) -> Option<(u32, usize)>
    requires { at ≤ length s.now }
    ensures { Taken (escaped (drop at s.now)) s.now (at + 1) 0x10FFFF result }
{
    if s.len() <= at {
        return None;
    }
    let b = s[at];
    if b == SMALL_U {
        return code_point(s, at + 1);
    }
    let c = short_escape(b)?;
    Some((u32::from(c), at + 1))
}
