// Names as they stand in a text, and their places among the names of a kind.
ghost use Rattle.std.specs.Prelude.{◌≡◌, ◌+◌, ◌≤◌, ◌<◌, length, drop, get_or};
ghost use Rattle.json_strings.specs.Decoded.{decoded, WellSpelled};
ghost use Rattle.field_names.specs.Spelled.{name_in, Named};
ghost use Rattle.field_names.specs.Kinds.{names_of, seek};
ghost use Rattle.field_names.specs.Known.{KnownIs};

use crate::keys;
use crate::keys::Spell;
use crate::kinds::{Kind, names_in, place_of};
use json_strings::Cursor;
use json_tokens::QUOTE;

// The length of the longest name, in bytes.
const LONGEST: usize = 16;

// The place of a string with escapes: its bytes are gathered, and more than the longest name has are none.
fn place_spelled(s: &[u8], at: usize, kind: Kind) -> usize
    requires { WellSpelled s.now at }
    ensures { result ≡ seek (decoded (drop at s.now)) (names_of kind) }
{
    let mut c = Cursor {
        at,
        code: 0,
        left: 0,
    };
    let mut name = [0u8; LONGEST + 1];
    for n in 0..=LONGEST {
        let Some((b, d)) = json_strings::next(s, c) else {
            return place_of(&name[..n], kind);
        };
        name[n] = b;
        c = d;
    }
    names_in(kind)
}

// The place of the name among those of the kind; their number where it is none of them.
pub fn which(s: &[u8], n: Spell, kind: Kind) -> usize
    requires { Named s.now n }
    ensures { result ≡ seek (name_in s.now n) (names_of kind) }
{
    let at = n.at;
    let end = n.end;
    if n.plain {
        let last = end - 1;
        return place_of(&s[at..last], kind);
    }
    place_spelled(s, at, kind)
}

// ---- names that are read

// How many bytes stand before a quote, where it stands behind as many as a name of an add has; else 0.
fn size_at(s: &[u8], at: usize) -> usize
    requires { at ≤ length s.now }
    ensures { 0 < result → (at + result < length s.now) × (get_or s.now (at + result) 0 ≡ 0x22) }
{
    if s.len() - at <= LONGEST {
        return 0;
    }
    if s[at + 4] == QUOTE {
        return 4;
    }
    if s[at + 10] == QUOTE {
        return 10;
    }
    if s[at + 15] == QUOTE {
        return 15;
    }
    if s[at + 16] == QUOTE { 16 } else { 0 }
}

// The name whose opening quote is at `at`. One of the kind is told by the quote behind it, with no look for where a string ends.
pub fn read_known(s: &[u8], at: usize, kind: Kind) -> Option<(Spell, usize)>
    requires { at ≤ length s.now }
    ensures { KnownIs s.now at (names_of kind) result }
{
    let i = json_tokens::skip_byte(s, at, QUOTE)?;
    let size = size_at(s, i);
    if 0 < size {
        let last = i + size;
        let k = place_of(&s[i..last], kind);
        if k < names_in(kind) {
            return Some((
                Spell {
                    at: i,
                    end: last + 1,
                    plain: true,
                },
                k,
            ));
        }
    }
    let n = keys::read_name(s, at)?;
    let k = which(s, n, kind);
    Some((n, k))
}
