// Objects: the members that a kind names, in one pass, and whether all names are distinct.
ghost use Rattle.std.specs.Prelude.{◌≡◌, List, ℕ, ◌≤◌, length, drop};
ghost use Rattle.rules.specs.Bytes.{Bytes, same, holds, distinct};
ghost use Rattle.rules.specs.Json.Values.{member, contents, value as rule_value};
ghost use Rattle.field_names.specs.Kinds.{names_of};
ghost use Rattle.field_names.specs.Spelled.{name_in, Named};
ghost use Rattle.field_objects.specs.Standing.{MetIs, FoundIs};
ghost use Rattle.field_objects.specs.Slots.{Scanned};
ghost use Rattle.field_objects.specs.Namings.{Object, IsObject, Members};

use crate::notes::{Fields, Slot, noted};
use field_names::{Kind, Spell};
use json_tokens::{CLOSE_BRACE, COLON, QUOTE};
use json_values::Tail;

// The member at `at` where it is two strings of plain bytes and a colon, as most are; none is also answered where it is another.
fn plain_member(s: &[u8], at: usize) -> Option<(Spell, usize, usize)>
    requires { at ≤ length s.now }
    ensures { (depth : ℕ) → FoundIs (member (rule_value depth) (drop at s.now)) s.now at result }
{
    let i = json_tokens::skip_byte(s, at, QUOTE)?;
    let n = json_characters::plain_end(s, i);
    if n == 0 {
        return None;
    }
    if s.len() - n < 2 {
        return None;
    }
    if s[n] != COLON {
        return None;
    }
    if s[n + 1] != QUOTE {
        return None;
    }
    let e = json_characters::plain_end(s, n + 2);
    if e == 0 {
        return None;
    }
    Some((
        Spell {
            at: i,
            end: n,
            plain: true,
        },
        n + 1,
        e,
    ))
}

// The member at `at`, whatever it is: its name, the colon, its value.
fn any_member(s: &[u8], at: usize, depth: usize) -> Option<(Spell, usize, usize)>
    requires { at ≤ length s.now }
    ensures { MetIs (member (rule_value depth) (drop at s.now)) s.now at result }
{
    let n = field_names::read_name(s, at)?;
    let end = n.end;
    let v = json_values::skip_colon(s, end)?;
    let e = json_values::value(s, v, depth)?;
    Some((n, v, e))
}

// The member at `at`, whose value nests at most `depth` deep.
pub fn read_member(s: &[u8], at: usize, depth: usize) -> Option<(Spell, usize, usize)>
    requires { at ≤ length s.now }
    ensures { MetIs (member (rule_value depth) (drop at s.now)) s.now at result }
{
    if let Some((name, from, to)) = plain_member(s, at) {
        return Some((name, from, to));
    }
    any_member(s, at, depth)
}

// `at` is just after an object's opening brace. Checks the whole object in one pass, and notes where the members that its kind names stand.
pub fn scan(s: &[u8], at: usize, kind: Kind, depth: usize) -> Option<Fields>
    requires { at ≤ length s.now }
    ensures { Scanned (contents (rule_value depth) (drop at s.now)) s.now at (names_of kind) result }
{
    let names = field_names::names_in(kind);
    let mut slots = [Slot {
        seen: 0,
        start: 0,
        end: 0,
    }; 8];
    match json_values::opening(s, at, CLOSE_BRACE) {
        Tail::Neither => None,
        Tail::Closed(end) => Some(Fields { end, slots }),
        Tail::More(first) => {
            let mut i = first;
            loop {
                let (n, k) = field_names::read_known(s, i, kind)?;
                let behind = n.end;
                let v = json_values::skip_colon(s, behind)?;
                let e = json_values::value(s, v, depth)?;
                let old = slots[k];
                slots[k] = noted(old, k < names, v, e);
                match json_values::closing(s, e, CLOSE_BRACE) {
                    Tail::Neither => return None,
                    Tail::Closed(end) => return Some(Fields { end, slots }),
                    Tail::More(j) => i = j,
                }
            }
        }
    }
}

// ---- objects with any names

// Whether two names are the same.
pub fn same_names(s: &[u8], a: Spell, b: Spell) -> bool
    requires { Named s.now a × Named s.now b }
    ensures { result ≡ same (name_in s.now a) (name_in s.now b) }
{
    let from = b.at;
    let end = b.end;
    if b.plain {
        let last = end - 1;
        return field_names::name_is(s, a, &s[from..last]);
    }
    let at = a.at;
    json_strings::same_strings(s, at, s, from)
}

// Whether a member of an object, from the one at `at` on, has the name n.
fn named_from(s: &[u8], at: usize, depth: usize, n: Spell) -> bool
    requires { (at ≤ length s.now) × Named s.now n }
    ensures { (names : List Bytes) → Members depth s.now at names → result ≡ holds (name_in s.now n) names }
{
    let mut i = at;
    loop {
        let Some((m, _, e)) = read_member(s, i, depth) else {
            return false;
        };
        if same_names(s, n, m) {
            return true;
        }
        match json_values::closing(s, e, CLOSE_BRACE) {
            Tail::Neither => return false,
            Tail::Closed(_) => return false,
            Tail::More(k) => i = k,
        }
    }
}

// `at` is just after an object's opening brace. Whether no two of its members have the same name.
pub fn distinct_names(s: &[u8], at: usize, depth: usize) -> bool
    requires { (at ≤ length s.now) × IsObject depth s.now at }
    ensures { (names : List Bytes) → Object depth s.now at names → result ≡ distinct names }
{
    match json_values::opening(s, at, CLOSE_BRACE) {
        Tail::Neither => true,
        Tail::Closed(_) => true,
        Tail::More(first) => {
            let mut i = first;
            loop {
                let Some((n, _, e)) = read_member(s, i, depth) else {
                    return true;
                };
                match json_values::closing(s, e, CLOSE_BRACE) {
                    Tail::Neither => return true,
                    Tail::Closed(_) => return true,
                    Tail::More(k) => {
                        if named_from(s, k, depth, n) {
                            return false;
                        }
                        i = k;
                    }
                }
            }
        }
    }
}
