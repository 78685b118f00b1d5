// Runs of bytes that are characters by themselves: eight at a time, and then one by one.
ghost use Rattle.std.specs.Prelude.{◌≤◌, length};
ghost use Rattle.json_characters.specs.Runs.{Run, Closes};

use crate::utf8::is_plain;
use json_tokens::QUOTE;

// One by one.
fn skip_few(s: &[u8], at: usize) -> usize
    requires { at ≤ length s.now }
    ensures { Run s.now at result }
{
    for i in at..s.len() {
        if !is_plain(s[i]) {
            return i;
        }
    }
    s.len()
}

// Passes plain bytes from `at` on: the place of the first that is none, or the end.
pub fn skip_plain(s: &[u8], at: usize) -> usize
    requires { at ≤ length s.now }
    ensures { Run s.now at result }
{
    let mut i = at;
    while 8 <= s.len() - i {
        let bad = bytes_eights::stops(bytes_eights::word_at(s, i));
        if bad != 0 {
            return i + bytes_eights::zero_bytes(bad);
        }
        i += 8;
    }
    skip_few(s, i)
}

// Where the string behind the opening quote ends, behind its closing quote, if nothing but plain bytes are in it; else 0.
pub fn plain_end(s: &[u8], at: usize) -> usize
    requires { at ≤ length s.now }
    ensures { Closes s.now at result }
{
    let i = skip_plain(s, at);
    if s.len() <= i {
        return 0;
    }
    if s[i] == QUOTE { i + 1 } else { 0 }
}
