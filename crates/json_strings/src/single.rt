// One string: whether it is a key, and how many bytes it stands for.
ghost use Rattle.std.specs.Prelude.{◌≡◌, [], ◌≤◌, length, drop};
ghost use Rattle.rules.specs.Bytes.{same};
ghost use Rattle.json_strings.specs.Ahead.{Sound, ahead};
ghost use Rattle.json_strings.specs.Decoded.{decoded, WellSpelled};
ghost use Rattle.json_strings.specs.Flat.{flat};

use crate::cursors;
use crate::cursors::Cursor;
use json_tokens::{BACKSLASH, QUOTE};

// Whether nothing is to come.
fn ended(s: &[u8], c: Cursor) -> bool
    requires { Sound s.now c }
    ensures { result ≡ same (ahead s.now c) [] }
{
    cursors::next(s, c).is_none()
}

// Whether what is spelled from `at` on is the key from k on.
fn key_follows(s: &[u8], at: usize, key: &[u8], k: usize) -> bool
    requires { (at ≤ length s.now) × (k ≤ length key.now) }
    ensures { result ≡ same (flat (drop at s.now)) (drop k key.now) }
{
    let mut c = Cursor {
        at,
        code: 0,
        left: 0,
    };
    for &x in &key[k..] {
        let Some((b, d)) = cursors::next(s, c) else {
            return false;
        };
        if b != x {
            return false;
        }
        c = d;
    }
    ended(s, c)
}

// Whether the string is the key. Bytes that stand for themselves are compared where they lie.
pub fn string_is(s: &[u8], at: usize, key: &[u8]) -> bool
    requires { WellSpelled s.now at }
    ensures { result ≡ same (decoded (drop at s.now)) key.now }
{
    for (k, &x) in key.iter().enumerate() {
        let i = at + k;
        if s.len() <= i {
            return false;
        }
        let b = s[i];
        if b == BACKSLASH {
            return key_follows(s, i, key, k);
        }
        if b == QUOTE || b != x {
            return false;
        }
    }
    key_follows(s, at + key.len(), key, key.len())
}

// How many bytes the string stands for.
pub fn decoded_size(s: &[u8], at: usize) -> usize
    requires { WellSpelled s.now at }
    ensures { result ≡ length (decoded (drop at s.now)) }
{
    let mut i = at;
    let mut n = 0;
    while i < s.len() {
        let first = s[i];
        if first == QUOTE {
            return n;
        }
        if first == BACKSLASH {
            let Some((code, j)) = json_characters::escape(s, i + 1) else {
                return n;
            };
            n += cursors::utf8_size(code);
            i = j;
        } else {
            n += 1;
            i += 1;
        }
    }
    n
}
