// Whether the names of partition values are the partition columns, in any order.
ghost use Rattle.std.specs.Prelude.{◌≡◌, true, List, ◌≤◌, length, drop};
ghost use Rattle.rules.specs.Actions.{Pairs};
ghost use Rattle.rules.specs.Bytes.{Bytes, holds, all_among, same_set, firsts};
ghost use Rattle.json_strings.specs.Decoded.{decoded, WellSpelled};
ghost use Rattle.field_objects.specs.Lookup.{Standing};
ghost use Rattle.field_objects.specs.Namings.{Object, Members};
ghost use Rattle.field_containers.specs.Nested.{UsualIs, Pairing, Paired, Again, Ended};
ghost use Rattle.field_containers.specs.Strung.{Listed, IsList, Onward};

use crate::lists;
use crate::nested::{IN_FIELD, Usual};
use json_tokens::{CLOSE_BRACE, CLOSE_BRACKET};
use json_values::Tail;

// ---- one or two, spelled as the columns are

// Whether the bytes of s from i up to `end` stand in t from j on. So few are compared as one number, and told to differ where a text has no eight left.
fn stands(s: &[u8], i: usize, end: usize, t: &[u8], j: usize) -> bool
    requires { (i ≤ end) × (end ≤ length s.now) × (j ≤ length t.now) }
    ensures { result ≡ true → Again s.now i end t.now j }
{
    let size = end - i;
    if 8 < size {
        return bytes_values::begins_with(&s[i..end], &t[j..]);
    }
    8 <= s.len() - i && 8 <= t.len() - j && size <= bytes_eights::common(s, i, t, j, 8)
}

// `at` is behind an element of an array. Whether the array ends there.
fn closed_at(t: &[u8], at: usize) -> bool
    requires { at ≤ length t.now }
    ensures { result ≡ true → Ended t.now at }
{
    matches!(json_values::closing(t, at, CLOSE_BRACKET), Tail::Closed(_))
}

// `values` is just after the brace of partition values in s, of whose names `usual` tells; `columns` is just after the bracket of an array of strings
// in t. Whether one or two names are told, and are spelled as the strings are, one after the other; then they are the same. It is the quick way of
// `keys_fit`, which is to be asked where this is not so.
pub fn usual_fit(s: &[u8], values: usize, usual: Usual, t: &[u8], columns: usize) -> bool
    requires { UsualIs s.now values usual × (columns ≤ length t.now) }
    ensures { result ≡ true → (ps : Pairs) (cs : List Bytes) → Pairing s.now values ps → Listed t.now columns cs
        → same_set (firsts ps) cs ≡ true }
{
    let end = usual.end;
    let second = usual.second;
    let last = usual.close;
    if end == 0 || !stands(s, values, end, t, columns) {
        return false;
    }
    let close = columns + (end - values);
    if second == 0 {
        return closed_at(t, close);
    }
    let Tail::More(k) = json_values::closing(t, close, CLOSE_BRACKET) else {
        return false;
    };
    stands(s, second, last, t, k) && closed_at(t, k + (last - second))
}

// ---- in step, as most writers put them

// `at` is at a member of s, `from` at an element of t. Whether the names from there on are spelled as the strings are, one after the other; then they
// are the same. Names that are spelled otherwise may be the same too.
fn spelled_from(s: &[u8], at: usize, t: &[u8], from: usize) -> bool
    requires { (at ≤ length s.now) × (from ≤ length t.now) }
    ensures { result ≡ true → (xs ys : List Bytes) → Members 29 s.now at xs → Onward t.now from ys → xs ≡ ys }
{
    let mut i = at;
    let mut j = from;
    loop {
        let Some((n, _, e)) = field_objects::read_member(s, i, IN_FIELD) else {
            return false;
        };
        let end = n.end;
        if bytes_values::begins_with(&s[i..end], &t[j..]) {
            let close = j + (end - i);
            match json_values::closing(s, e, CLOSE_BRACE) {
                Tail::Neither => return false,
                Tail::Closed(_) => return match json_values::closing(t, close, CLOSE_BRACKET) {
                    Tail::Neither => false,
                    Tail::Closed(_) => true,
                    Tail::More(_) => false,
                },
                Tail::More(k) => match json_values::closing(t, close, CLOSE_BRACKET) {
                    Tail::Neither => return false,
                    Tail::Closed(_) => return false,
                    Tail::More(l) => {
                        i = k;
                        j = l;
                    }
                },
            }
        } else {
            return false;
        }
    }
}

// `values` is just after the brace of an object in s, `columns` just after the bracket of an array of strings in t. The same of all names and all strings.
fn spelled_alike(s: &[u8], values: usize, t: &[u8], columns: usize) -> bool
    requires { (values ≤ length s.now) × (columns ≤ length t.now) }
    ensures { result ≡ true → (xs ys : List Bytes) → Object 29 s.now values xs → Listed t.now columns ys → xs ≡ ys }
{
    match json_values::opening(s, values, CLOSE_BRACE) {
        Tail::Neither => false,
        Tail::Closed(_) => match json_values::opening(t, columns, CLOSE_BRACKET) {
            Tail::Neither => false,
            Tail::Closed(_) => true,
            Tail::More(_) => false,
        },
        Tail::More(first) => match json_values::opening(t, columns, CLOSE_BRACKET) {
            Tail::Neither => false,
            Tail::Closed(_) => false,
            Tail::More(other) => spelled_from(s, first, t, other),
        },
    }
}

// ---- in any order

// Whether each name of the object is one of the strings. Where no two names are the same, at most one more is read than there are strings.
fn names_among(s: &[u8], values: usize, t: &[u8], columns: usize) -> bool
    requires { (values ≤ length s.now) × (columns ≤ length t.now) × IsList t.now columns }
    ensures { (xs ys : List Bytes) → Object 29 s.now values xs → Listed t.now columns ys → result ≡ all_among ys xs }
{
    match json_values::opening(s, values, CLOSE_BRACE) {
        Tail::Neither => true,
        Tail::Closed(_) => true,
        Tail::More(first) => {
            let mut i = first;
            loop {
                let Some((n, _, e)) = field_objects::read_member(s, i, IN_FIELD) else {
                    return false;
                };
                let begin = n.at;
                if lists::holds_string(t, columns, s, begin) {
                    match json_values::closing(s, e, CLOSE_BRACE) {
                        Tail::Neither => return true,
                        Tail::Closed(_) => return true,
                        Tail::More(k) => i = k,
                    }
                } else {
                    return false;
                }
            }
        }
    }
}

// `j` is just after a string's opening quote in t. Whether a member of the object has that name.
fn name_held(s: &[u8], values: usize, t: &[u8], j: usize) -> bool
    requires { (values ≤ length s.now) × Standing 29 s.now values × WellSpelled t.now j }
    ensures { (xs : List Bytes) → Object 29 s.now values xs → result ≡ holds (decoded (drop j t.now)) xs }
{
    field_objects::find_name(s, values, IN_FIELD, t, j).is_some()
}

// Whether each of the strings is a name of the object.
fn columns_among(t: &[u8], columns: usize, s: &[u8], values: usize) -> bool
    requires { (columns ≤ length t.now) × (values ≤ length s.now) × Standing 29 s.now values }
    ensures { (xs ys : List Bytes) → Object 29 s.now values xs → Listed t.now columns ys → result ≡ all_among xs ys }
{
    match json_values::opening(t, columns, CLOSE_BRACKET) {
        Tail::Neither => true,
        Tail::Closed(_) => true,
        Tail::More(first) => {
            let mut i = first;
            loop {
                let Some(n) = field_names::read_name(t, i) else {
                    return false;
                };
                let begin = n.at;
                if name_held(s, values, t, begin) {
                    let end = n.end;
                    match json_values::closing(t, end, CLOSE_BRACKET) {
                        Tail::Neither => return true,
                        Tail::Closed(_) => return true,
                        Tail::More(k) => i = k,
                    }
                } else {
                    return false;
                }
            }
        }
    }
}

// `values` is just after the brace of partition values in s, `columns` just after the bracket of an array of strings in t. Whether the names of the
// values are those strings, in any order.
pub fn keys_fit(s: &[u8], values: usize, t: &[u8], columns: usize) -> bool
    requires { Paired s.now values × (columns ≤ length t.now) × IsList t.now columns }
    ensures { (ps : Pairs) (cs : List Bytes) → Pairing s.now values ps → Listed t.now columns cs
        → result ≡ same_set (firsts ps) cs }
{
    spelled_alike(s, values, t, columns)
        || names_among(s, values, t, columns) && columns_among(t, columns, s, values)
}
