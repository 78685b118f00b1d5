// The characters of a string that stand for themselves, in UTF-8 (RFC 3629, section 4).
ghost use Rattle.std.specs.Prelude.{◌≡◌, ◌≤◌, ◌+◌, length, drop};
ghost use Rattle.rules.specs.Json.Text.{byte_in};
ghost use Rattle.rules.specs.Json.Strings.{is_plain, leads, tails, multibyte, unescaped};
ghost use Rattle.json_tokens.specs.Answers.{Answer};

use json_tokens::{BACKSLASH, QUOTE};

// Whether a byte is a character by itself in a string: ASCII but controls, the quote and the backslash.
pub fn is_plain(b: u8) -> bool
    ensures { result ≡ is_plain b }
{
    matches!(b, 0x20..=0x7F) && b != QUOTE && b != BACKSLASH
}

// The seven kinds of first bytes, and that any other byte begins no longer character.
fn lead_of(b: u8) -> Option<(u8, u8, usize)>
    ensures { result ≡ leads b }
{
    match b {
        0xC2..=0xDF => Some((0x80, 0xBF, 0)),
        0xE0 => Some((0xA0, 0xBF, 1)),
        0xE1..=0xEC => Some((0x80, 0xBF, 1)),
        0xED => Some((0x80, 0x9F, 1)),
        0xEE..=0xEF => Some((0x80, 0xBF, 1)),
        0xF0 => Some((0x90, 0xBF, 2)),
        0xF1..=0xF3 => Some((0x80, 0xBF, 2)),
        0xF4 => Some((0x80, 0x8F, 2)),
        _ => None,
    }
}

// One byte from low to high.
fn skip_in(s: &[u8], at: usize, low: u8, high: u8) -> Option<usize>
    requires { at ≤ length s.now }
    ensures { Answer (byte_in low high (drop at s.now)) s.now (at + 1) result }
{
    if s.len() <= at {
        return None;
    }
    let b = s[at];
    if b < low || high < b {
        return None;
    }
    Some(at + 1)
}

// n bytes of those that end a longer character.
fn skip_tails(s: &[u8], at: usize, n: usize) -> Option<usize>
    requires { at ≤ length s.now }
    ensures { Answer (tails n (drop at s.now)) s.now at result }
{
    let mut i = at;
    for _ in 0..n {
        i = skip_in(s, i, 0x80, 0xBF)?;
    }
    Some(i)
}

// A character of two bytes or more, in UTF-8.
fn skip_multibyte(s: &[u8], at: usize) -> Option<usize>
    requires { at ≤ length s.now }
    ensures { Answer (multibyte (drop at s.now)) s.now (at + 1) result }
{
    if s.len() <= at {
        return None;
    }
    let (low, high, n) = lead_of(s[at])?;
    let i = skip_in(s, at + 1, low, high)?;
    skip_tails(s, i, n)
}

// A character of a string that stands for itself, in UTF-8.
pub fn skip_unescaped(s: &[u8], at: usize) -> Option<usize>
    requires { at ≤ length s.now }
    ensures { Answer (unescaped (drop at s.now)) s.now (at + 1) result }
{
    if s.len() <= at {
        return None;
    }
    if is_plain(s[at]) {
        Some(at + 1)
    } else {
        skip_multibyte(s, at)
    }
}
