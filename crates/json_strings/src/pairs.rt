// Two strings: how one stands to the other, and whether they are the same.
ghost use Rattle.std.specs.Prelude.{◌≡◌, true, [], ℕ, ◌≤◌, ◌<◌, ◌+◌, length, drop};
ghost use Rattle.rules.specs.Bytes.{same, order};
ghost use Rattle.bytes_values.specs.Answers.{order_is};
ghost use Rattle.json_strings.specs.Ahead.{Sound, ahead};
ghost use Rattle.json_strings.specs.Decoded.{decoded, WellSpelled};
ghost use Rattle.json_strings.specs.Flat.{flat};
ghost use Rattle.json_strings.specs.Spelling.{Raw, Whole, Tells};

use crate::cursors::Cursor;
use crate::{SLASH, cursors};
use json_tokens::{BACKSLASH, QUOTE};
use std::cmp::Ordering;

// How many bytes at k may be compared without decoding: 1 for an ordinary byte, 2 for a backslash and a slash, 0 for any other escape and for
// the closing quote.
fn raw_here(t: &[u8], k: usize) -> usize
    requires { k < length t.now }
    ensures { (a : ℕ) → Raw t.now a k → Raw t.now a (k + result) }
{
    match t[k] {
        BACKSLASH if k + 1 < t.len() && t[k + 1] == SLASH => 2,
        QUOTE | BACKSLASH => 0,
        _ => 1,
    }
}

// Up to where the string in t behind j is compared as it is spelled: its quote, or an escape that is not a slash.
pub fn raw_end(t: &[u8], j: usize) -> usize
    requires { j ≤ length t.now }
    ensures { Raw t.now j result }
{
    let mut k = json_characters::skip_plain(t, j);
    while k < t.len() {
        let n = raw_here(t, k);
        if n == 0 {
            return k;
        }
        k = json_characters::skip_plain(t, k + n);
    }
    k
}

// n, or n - 1 where the last of the n bytes is the backslash of an escaped slash that n cuts in two.
fn whole(t: &[u8], j: usize, end: usize, n: usize) -> usize
    requires { Raw t.now j end × (j + n ≤ end) }
    ensures { (result ≤ n) × Whole t.now j result }
{
    if n == 0 {
        return n;
    }
    if t[j + n - 1] == BACKSLASH { n - 1 } else { n }
}

// Whether two bytes tell, where they differ, how two strings stand that are spelled alike before them: not where one ends its string or
// belongs to an escape.
fn tells(x: u8, y: u8) -> bool
    ensures { result ≡ true → Tells x y }
{
    x != QUOTE && x != BACKSLASH && y != BACKSLASH && y != SLASH
}

// How nothing stands to what is to come.
fn order_ended(t: &[u8], c: Cursor) -> Ordering
    requires { Sound t.now c }
    ensures { result ≡ order_is (order [] (ahead t.now c)) }
{
    match cursors::next(t, c) {
        Some(_) => Ordering::Less,
        None => Ordering::Equal,
    }
}

// How what is spelled in s from i on stands to what is spelled in t from j on.
fn order_rests(s: &[u8], i: usize, t: &[u8], j: usize) -> Ordering
    requires { (i ≤ length s.now) × (j ≤ length t.now) }
    ensures { result ≡ order_is (order (flat (drop i s.now)) (flat (drop j t.now))) }
{
    let mut c = Cursor {
        at: i,
        code: 0,
        left: 0,
    };
    let mut d = Cursor {
        at: j,
        code: 0,
        left: 0,
    };
    loop {
        let Some((x, e)) = cursors::next(s, c) else {
            return order_ended(t, d);
        };
        let Some((y, f)) = cursors::next(t, d) else {
            return Ordering::Greater;
        };
        if x < y {
            return Ordering::Less;
        }
        if y < x {
            return Ordering::Greater;
        }
        c = e;
        d = f;
    }
}

// How the string in s behind i stands to the string in t behind j, by the unsigned bytes that they stand for, where it is known that up
// to `end` the one in t is compared as it is spelled.
pub fn order_raw(s: &[u8], i: usize, t: &[u8], j: usize, end: usize) -> Ordering
    requires { WellSpelled s.now i × WellSpelled t.now j × Raw t.now j end }
    ensures { result ≡ order_is (order (decoded (drop i s.now)) (decoded (drop j t.now))) }
{
    let room = (end - j).min(s.len() - i);
    let n = bytes_eights::common(s, i, t, j, room);
    if n < room {
        let b = s[i + n];
        let c = t[j + n];
        if tells(b, c) {
            if b < c {
                return Ordering::Less;
            }
            if c < b {
                return Ordering::Greater;
            }
        }
    }
    let m = whole(t, j, end, n);
    // Handed on anew, so that the compiler keeps both texts in registers here.
    order_rests(&s[0..], i + m, &t[0..], j + m)
}

// The same where that is not known.
pub fn order_strings(s: &[u8], i: usize, t: &[u8], j: usize) -> Ordering
    requires { WellSpelled s.now i × WellSpelled t.now j }
    ensures { result ≡ order_is (order (decoded (drop i s.now)) (decoded (drop j t.now))) }
{
    let end = raw_end(t, j);
    let room = (end - j).min(s.len() - i);
    let n = bytes_eights::common(s, i, t, j, room);
    let m = whole(t, j, end, n);
    order_rests(s, i + m, t, j + m)
}

// Whether the string in s behind i and the string in t behind j stand for the same bytes.
pub fn same_strings(s: &[u8], i: usize, t: &[u8], j: usize) -> bool
    requires { WellSpelled s.now i × WellSpelled t.now j }
    ensures { result ≡ same (decoded (drop i s.now)) (decoded (drop j t.now)) }
{
    order_strings(s, i, t, j).is_eq()
}
