// Strings of JSON, behind the opening quote: characters up to the closing one.
ghost use Rattle.std.specs.Prelude.{◌≡◌, true, ◌≤◌, ◌+◌, length, drop, Some};
ghost use Rattle.rules.specs.Json.Text.{behind};
ghost use Rattle.rules.specs.Json.Strings.{char, string};
ghost use Rattle.json_tokens.specs.Answers.{Answer};

use crate::escapes;
use crate::plain::skip_plain;
use crate::utf8::skip_unescaped;
use json_tokens::{BACKSLASH, QUOTE};

// A character of a string, as it is or escaped.
pub fn skip_char(s: &[u8], at: usize) -> Option<usize>
    requires { at ≤ length s.now }
    ensures { Answer (behind (char (drop at s.now))) s.now (at + 1) result }
{
    if s.len() <= at {
        return None;
    }
    if s[at] == BACKSLASH {
        let (_, i) = escapes::escape(s, at + 1)?;
        Some(i)
    } else {
        skip_unescaped(s, at)
    }
}

// Whether a backslash and a byte that stands for itself behind one are there: the quote, the backslash or the slash.
fn is_literal_escape(s: &[u8], at: usize) -> bool
    requires { at ≤ length s.now }
    ensures { result ≡ true → Answer (behind (char (drop at s.now))) s.now (at + 1) (Some (at + 2)) }
{
    2 <= s.len() - at && s[at] == BACKSLASH && matches!(s[at + 1], b'"' | b'\\' | b'/')
}

// The characters of a string from `at` on, and its closing quote.
pub fn skip_chars(s: &[u8], at: usize) -> Option<usize>
    requires { at ≤ length s.now }
    ensures { Answer (behind (string (drop at s.now))) s.now (at + 1) result }
{
    let mut i = at;
    while i < s.len() {
        if s[i] == QUOTE {
            return Some(i + 1);
        }
        if is_literal_escape(s, i) {
            i = skip_plain(s, i + 2); // not decoded
        } else {
            let j = skip_char(s, i)?;
            i = skip_plain(s, j);
        }
    }
    None
}

// Behind the opening quote: the characters of a string and its closing quote.
pub fn skip_string(s: &[u8], at: usize) -> Option<usize>
    requires { at ≤ length s.now }
    ensures { Answer (behind (string (drop at s.now))) s.now (at + 1) result }
{
    let i = skip_plain(s, at);
    if s.len() <= i {
        return None;
    }
    if s[i] == QUOTE {
        return Some(i + 1);
    }
    let j = skip_chars(&s[0..], i)?; // `&s[0..]` on purpose: it stays in registers (docs/PERFORMANCE-HISTORY.md)
    Some(j)
}
