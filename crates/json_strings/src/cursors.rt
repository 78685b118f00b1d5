// Byte after byte of what a JSON string stands for, by a cursor, with no copy.
ghost use Rattle.std.specs.Prelude.{◌≡◌, ◌∷◌, ◌-◌, ◌≤◌, ◌<◌, length, get_or};
ghost use Rattle.rules.specs.Json.Strings.{utf8};
ghost use Rattle.json_strings.specs.Ahead.{Sound, Stepped, fresh};
ghost use Rattle.json_strings.specs.Flat.{last_of};

use json_tokens::{BACKSLASH, QUOTE};

// The first code points that take two bytes, three bytes and four bytes in UTF-8.
const TWO_BYTES: u32 = 0x80;

const THREE_BYTES: u32 = 0x800;

const FOUR_BYTES: u32 = 0x10000;

// ---- a code point in UTF-8

// How many bytes the code point takes.
pub fn utf8_size(code: u32) -> usize
    ensures { result ≡ length (utf8 code) }
{
    if code < TWO_BYTES {
        return 1;
    }
    if code < THREE_BYTES {
        return 2;
    }
    if code < FOUR_BYTES { 3 } else { 4 }
}

// The first of the last `left` bytes of the code point.
fn utf8_byte(code: u32, left: usize) -> u8
    requires { (0 < left) × (left ≤ length (utf8 code)) × (code ≤ 0x10FFFF) }
    ensures { last_of left (utf8 code) ≡ result ∷ last_of (left - 1) (utf8 code) }
{
    if code < TWO_BYTES {
        return code as u8;
    }
    if left == 1 {
        return (0x80 + code % 0x40) as u8;
    }
    if left == 2 {
        if code < THREE_BYTES {
            return (0xC0 + code / 0x40) as u8;
        }
        return (0x80 + code / 0x40 % 0x40) as u8;
    }
    if left == 3 {
        if code < FOUR_BYTES {
            return (0xE0 + code / 0x1000) as u8;
        }
        return (0x80 + code / 0x1000 % 0x40) as u8;
    }
    (0xF0 + code / 0x40000) as u8
}

// ---- byte after byte

// Where a reader of a string stands: the last `left` bytes of the code point `code` are to come, and then what is spelled from `at` on.
#[derive(Clone, Copy)]
pub struct Cursor {
    pub at: usize,
    pub code: u32,
    pub left: usize,
}

// The first byte of the escape at the backslash.
fn next_escaped(s: &[u8], at: usize) -> Option<(u8, Cursor)>
    requires { (at < length s.now) × (get_or s.now at 0 ≡ 0x5C) }
    ensures { Stepped s.now (fresh at) result }
{
    let (code, i) = json_characters::escape(s, at + 1)?;
    let left = utf8_size(code);
    Some((
        utf8_byte(code, left),
        Cursor {
            at: i,
            code,
            left: left - 1,
        },
    ))
}

// The next byte that the string stands for.
pub fn next(s: &[u8], c: Cursor) -> Option<(u8, Cursor)>
    requires { Sound s.now c }
    ensures { Stepped s.now c result }
{
    let Cursor { at, code, left } = c;
    if 0 < left {
        return Some((
            utf8_byte(code, left),
            Cursor {
                at,
                code,
                left: left - 1,
            },
        ));
    }
    if s.len() <= at {
        return None;
    }
    let b = s[at];
    if b == QUOTE {
        return None;
    }
    if b == BACKSLASH {
        return next_escaped(s, at);
    }
    Some((
        b,
        Cursor {
            at: at + 1,
            code: 0,
            left: 0,
        },
    ))
}
