// JSON strings as they are spelled: from behind an opening quote to behind the closing one, plain or with escapes.
ghost use Rattle.std.specs.Prelude.{◌≡◌, ◌≤◌, length};
ghost use Rattle.json_strings.specs.Scanned.{Scanned};

use json_characters::skip_plain;
use json_tokens::{BACKSLASH, QUOTE};

// What stands behind an opening quote: a string that is spelled as the bytes that it stands for, or one with escapes,
// each with the position behind it; or no string.
#[derive(Clone, Copy)]
pub enum Spelling {
    Plain(usize),
    Escaped(usize),
    Bad,
}

// The string behind the opening quote, in one pass.
pub fn scan_string(s: &[u8], at: usize) -> Spelling
    requires { at ≤ length s.now }
    ensures { Scanned s.now at result }
{
    let mut i = skip_plain(s, at);
    if s.len() <= i {
        return Spelling::Bad;
    }
    if s[i] == QUOTE {
        return Spelling::Plain(i + 1); // nothing but plain bytes, as in most strings
    }
    while i < s.len() {
        let b = s[i];
        if b == QUOTE {
            return Spelling::Plain(i + 1);
        }
        if b == BACKSLASH {
            let Some(j) = json_characters::skip_chars(&s[0..], i) else { // `&s[0..]` on purpose: it stays in registers (docs/PERFORMANCE-HISTORY.md)
                return Spelling::Bad;
            };
            return Spelling::Escaped(j);
        }
        let Some(k) = json_characters::skip_unescaped(&s[0..], i) else {
            return Spelling::Bad;
        };
        i = skip_plain(s, k);
    }
    Spelling::Bad
}
