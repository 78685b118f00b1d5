// The fields of an action by their slots: strings, paths, numbers and booleans, as the rules read them.
#![tactic(auto)]

ghost use Rattle.std.specs.Prelude.{◌≡◌, ◌≤◌, ◌-◌, length, take, drop, MatchOption, None, Some};
ghost use Rattle.rules.specs.Json.Fields.{string_of};
ghost use Rattle.field_scalars.specs.Versions.{version_of};
ghost use Rattle.field_scalars.specs.Inside.{Inside, Proper, once_in, whole_in, bool_in, string_in, optional_whole_in};
ghost use Rattle.field_scalars.specs.Texts.{StringIs, PathIs, path_of, id_of};
ghost use Rattle.field_scalars.specs.Optionals.{optional_of, OptionalIs};
ghost use Rattle.field_scalars.specs.Counts.{count_in};

use field_objects::Slot;
use json_strings::Spelling;
use json_tokens::QUOTE;

// The most bytes that a path may have, decoded.
const LONGEST_PATH: usize = 512;

// The greatest number of a protocol, and the greatest count of skips.
const MOST_INT: u64 = 2_147_483_647;

// ---- strings

// The string whose text stands from v to e.
pub fn string_at(s: &[u8], v: usize, e: usize) -> Option<(usize, usize)>
    requires { (v ≤ e) × (e ≤ length s.now) }
    ensures { StringIs (string_of (take (e - v) (drop v s.now))) s.now v result }
{
    let i = json_tokens::skip_byte(s, v, QUOTE)?;
    match json_strings::scan_string(s, i) {
        Spelling::Plain(end) if end == e => Some((i, end - 1 - i)),
        Spelling::Plain(_) => None,
        Spelling::Escaped(end) if end == e => Some((i, json_strings::decoded_size(s, i))),
        Spelling::Escaped(_) => None,
        Spelling::Bad => None,
    }
}

// ---- a field by its slot

// The path of a field that stands once. A string of some bytes stands for some, and for no more: only a longer one is measured.
pub fn path_in(s: &[u8], slot: Slot) -> Option<usize>
    requires { Proper s.now slot }
    ensures { PathIs (path_of (string_in s.now slot)) s.now slot.start result }
{
    if slot.seen != 1 {
        return None;
    }
    let q = json_tokens::skip_byte(s, slot.start, QUOTE)?;
    let size = slot.end - 1 - q;
    if size == 0 {
        return None;
    }
    if size <= LONGEST_PATH {
        return Some(q);
    }
    let (p, n) = string_at(s, slot.start, slot.end)?;
    if LONGEST_PATH < n {
        return None;
    }
    Some(p)
}

// The string of a field that stands once.
pub fn string_in(s: &[u8], slot: Slot) -> Option<(usize, usize)>
    requires { Inside s.now slot }
    ensures { StringIs (string_in s.now slot) s.now slot.start result }
{
    if slot.seen != 1 {
        return None;
    }
    string_at(s, slot.start, slot.end)
}

// The string of a field that stands once, if it is not empty.
pub fn some_string_in(s: &[u8], slot: Slot) -> Option<(usize, usize)>
    requires { Inside s.now slot }
    ensures { StringIs (id_of (string_in s.now slot)) s.now slot.start result }
{
    string_in(s, slot).filter(|(_, n)| *n != 0)
}

// The text of a field that stands once.
fn text_in(s: &[u8], slot: Slot) -> Option<&[u8]>
    requires { Inside s.now slot }
    ensures { MatchOption result (once_in s.now slot ≡ None) (λ t. once_in s.now slot ≡ Some t.now) }
{
    if slot.seen != 1 {
        return None;
    }
    Some(&s[slot.start..slot.end])
}

// The whole number of a field that stands once.
pub fn whole_in(s: &[u8], slot: Slot) -> Option<u64>
    requires { Inside s.now slot }
    ensures { result ≡ whole_in s.now slot }
{
    bytes_values::whole_of(text_in(s, slot)?)
}

// The boolean of a field that stands once.
pub fn truth_in(s: &[u8], slot: Slot) -> Option<bool>
    requires { Inside s.now slot }
    ensures { result ≡ bool_in s.now slot }
{
    bytes_values::truth_of(text_in(s, slot)?)
}

// The field of a slot that may be missing or null.
pub fn optional_in(s: &[u8], slot: Slot) -> Option<Option<(usize, usize)>>
    requires { Inside s.now slot }
    ensures { OptionalIs (optional_of s.now slot) s.now slot result }
{
    match slot.seen {
        0 => Some(None),
        1 if bytes_values::is_null(&s[slot.start..slot.end]) => Some(None),
        1 => Some(Some((slot.start, slot.end))),
        _ => None,
    }
}

// The number of records of a field that may be missing or null.
pub fn records_in(s: &[u8], slot: Slot) -> Option<Option<u64>>
    requires { Inside s.now slot }
    ensures { result ≡ optional_whole_in s.now slot }
{
    let Some((v, e)) = optional_in(s, slot)? else {
        return Some(None);
    };
    let n = bytes_values::whole_of(&s[v..e])?;
    Some(Some(n))
}

// The number of a protocol, of a field that stands once.
pub fn version_in(s: &[u8], slot: Slot) -> Option<u64>
    requires { Inside s.now slot }
    ensures { result ≡ version_of (whole_in s.now slot) }
{
    whole_in(s, slot).filter(|n| 1 <= *n && *n <= MOST_INT)
}

// A count of skips, of a field that may be missing: then it is 1. Null is no count.
pub fn count_in(s: &[u8], slot: Slot) -> Option<u64>
    requires { Inside s.now slot }
    ensures { result ≡ count_in s.now slot }
{
    if slot.seen < 1 {
        return Some(1);
    }
    whole_in(s, slot).filter(|n| *n <= MOST_INT)
}
