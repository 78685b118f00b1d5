// Fields of an action that hold others: the partition values of an add, and arrays of strings.
ghost use Rattle.std.specs.Prelude.{◌≡◌, [], ◌≤◌, ◌<◌, ◌-◌, length, take, drop, Some};
ghost use Rattle.rules.specs.Actions.{in_action, in_field, pairs};
ghost use Rattle.rules.specs.Json.Values.{value as rule_value};
ghost use Rattle.rules.specs.Json.Fields.{string_or_null, strings_of};
ghost use Rattle.field_scalars.specs.Inside.{Proper};
ghost use Rattle.field_scalars.specs.Texts.{Told};
ghost use Rattle.field_containers.specs.Nested.{Opened, Opens, Second, values_from, JudgedIs, values_in, ValuesIs, ArrayIs, columns_in, ColumnsIs};

use crate::lists;
use field_names::Spell;
use field_objects::Slot;
use json_tokens::{CLOSE_BRACE, OPEN_BRACE, OPEN_BRACKET, QUOTE};
use json_values::Tail;

// How deep values may nest inside of a field of an action.
pub const IN_FIELD: usize = 29;

// The most partition columns that a table may have.
const MOST_COLUMNS: usize = 16;

// ---- partition values

// Whether the value that stands from v to e is a string or null.
fn string_or_null(s: &[u8], v: usize, e: usize) -> bool
    requires { (v ≤ e) × (e ≤ length s.now) × (rule_value in_field (take (e - v) (drop v s.now)) ≡ Some []) }
    ensures { Told (string_or_null (take (e - v) (drop v s.now))) result }
{
    json_tokens::skip_byte(s, v, QUOTE).is_some() || bytes_values::is_null(&s[v..e])
}

// `at` is just after an object's opening brace. Whether each value of that object is a string or null.
fn strings_or_nulls(s: &[u8], at: usize) -> bool
    requires { (at ≤ length s.now) × Opened s.now at }
    ensures { (w : Opened s.now at) → Told (pairs w.ms) result }
{
    match json_values::opening(s, at, CLOSE_BRACE) {
        Tail::Neither => true,
        Tail::Closed(_) => true,
        Tail::More(first) => {
            let mut i = first;
            loop {
                let Some((_, v, e)) = field_objects::read_member(s, i, IN_FIELD) else {
                    return true;
                };
                if string_or_null(s, v, e) {
                    match json_values::closing(s, e, CLOSE_BRACE) {
                        Tail::Neither => return true,
                        Tail::Closed(_) => return true,
                        Tail::More(k) => i = k,
                    }
                } else {
                    return false;
                }
            }
        }
    }
}

// `at` is just after an object's opening brace. Whether its members are partition values, however many there are.
fn many_values(s: &[u8], at: usize) -> bool
    requires { (at ≤ length s.now) × Opened s.now at }
    ensures { (w : Opened s.now at) → Told (values_from w.ms) result }
{
    strings_or_nulls(s, at) && field_objects::distinct_names(s, at, IN_FIELD)
}

// Where the names of partition values stand, where they are one or two, as usual: the first from just after the brace up to `end`, the second from
// `second` up to `close`; `second` is 0 where there is none. Nothing is told of more, of none, and after white space: `end` is 0.
#[derive(Clone, Copy)]
pub struct Usual {
    pub end: usize,
    pub second: usize,
    pub close: usize,
}

// Where the first name n ends, which begins at `first`; 0 where that is not `at`.
fn told_end(at: usize, first: usize, n: Spell) -> usize
    ensures { 0 < result → (first ≡ at) × (n.end ≡ result) }
{
    if first == at { n.end } else { 0 }
}

// The same where the first of them has the name n, which is told to end at `end`, and the second begins at i: two are told at once.
fn values_from(s: &[u8], at: usize, n: Spell, end: usize, i: usize) -> Option<Usual>
    requires { (at ≤ length s.now) × Second s.now at n i × Opens s.now at n end }
    ensures { (w : Opened s.now at) → JudgedIs (values_from w.ms) s.now at result }
{
    let (m, v, e) = field_objects::read_member(s, i, IN_FIELD)?;
    if string_or_null(s, v, e) {
        if field_objects::same_names(s, n, m) {
            return None;
        }
        match json_values::closing(s, e, CLOSE_BRACE) {
            Tail::Neither => None,
            Tail::Closed(_) => {
                let close = m.end;
                Some(Usual {
                    end,
                    second: i,
                    close,
                })
            }
            Tail::More(_) => {
                if many_values(s, at) {
                    return Some(Usual {
                        end: 0,
                        second: 0,
                        close: 0,
                    });
                }
                None
            }
        }
    } else {
        None
    }
}

// `at` is just after an object's opening brace. Whether its members are partition values: strings or nulls under distinct names.
fn are_values(s: &[u8], at: usize) -> Option<Usual>
    requires { (at ≤ length s.now) × Opened s.now at }
    ensures { (w : Opened s.now at) → JudgedIs (values_from w.ms) s.now at result }
{
    match json_values::opening(s, at, CLOSE_BRACE) {
        Tail::Neither => None,
        Tail::Closed(_) => Some(Usual {
            end: 0,
            second: 0,
            close: 0,
        }),
        Tail::More(first) => {
            let (n, v, e) = field_objects::read_member(s, first, IN_FIELD)?;
            if string_or_null(s, v, e) {
                let end = told_end(at, first, n);
                match json_values::closing(s, e, CLOSE_BRACE) {
                    Tail::Neither => None,
                    Tail::Closed(_) => Some(Usual {
                        end,
                        second: 0,
                        close: 0,
                    }),
                    Tail::More(i) => values_from(s, at, n, end, i),
                }
            } else {
                None
            }
        }
    }
}

// The partition values of a field that stands once.
pub fn values_in(s: &[u8], slot: Slot) -> Option<(usize, Usual)>
    requires { Proper s.now slot }
    ensures { ValuesIs (values_in s.now slot) s.now result }
{
    let start = slot.start;
    if slot.seen != 1 {
        return None;
    }
    let at = json_tokens::skip_byte(s, start, OPEN_BRACE)?;
    let usual = are_values(s, at)?;
    Some((at, usual))
}

// ---- arrays of strings

// The array of strings that stands from v to e.
pub fn array_at(s: &[u8], v: usize, e: usize) -> Option<(usize, usize)>
    requires { (v ≤ e) × (e ≤ length s.now) × (rule_value in_action (take (e - v) (drop v s.now)) ≡ Some []) }
    ensures { ArrayIs (strings_of in_field (take (e - v) (drop v s.now))) s.now result }
{
    let at = json_tokens::skip_byte(s, v, OPEN_BRACKET)?;
    let (n, _) = lists::strings_in(s, at)?;
    Some((at, n))
}

// The partition columns of a field that stands once.
pub fn columns_in(s: &[u8], slot: Slot) -> Option<usize>
    requires { Proper s.now slot }
    ensures { ColumnsIs (columns_in s.now slot) s.now result }
{
    let start = slot.start;
    let end = slot.end;
    if slot.seen != 1 {
        return None;
    }
    let (at, n) = array_at(s, start, end)?;
    if MOST_COLUMNS < n {
        return None;
    }
    lists::distinct_strings(s, at).then_some(at)
}
