// Arrays of strings: how many, whether one is held, whether no two are the same, and whether two arrays are.
ghost use Rattle.std.specs.Prelude.{◌≡◌, List, ℕ, ◌≤◌, length, drop};
ghost use Rattle.rules.specs.Bytes.{Bytes, holds, distinct, same_each};
ghost use Rattle.rules.specs.Json.Values.{elements, value as rule_value};
ghost use Rattle.json_strings.specs.Decoded.{decoded, WellSpelled};
ghost use Rattle.field_containers.specs.Strung.{StringsIs, Listed, IsList, Onward};

use json_tokens::CLOSE_BRACKET;
use json_values::Tail;

// `at` is just after an array's opening bracket. Checks the whole array in one pass.
pub fn strings_in(s: &[u8], at: usize) -> Option<(usize, usize)>
    requires { at ≤ length s.now }
    ensures { (d : ℕ) → StringsIs (elements (rule_value d) (drop at s.now)) s.now at result }
{
    match json_values::opening(s, at, CLOSE_BRACKET) {
        Tail::Neither => None,
        Tail::Closed(end) => Some((0, end)),
        Tail::More(first) => {
            let mut i = first;
            let mut n = 0;
            loop {
                let x = field_names::read_name(s, i)?;
                n += 1;
                let end = x.end;
                match json_values::closing(s, end, CLOSE_BRACKET) {
                    Tail::Neither => return None,
                    Tail::Closed(e) => return Some((n, e)),
                    Tail::More(j) => i = j,
                }
            }
        }
    }
}

// `at` is at an element of an array, `j` just after a string's opening quote in t. Whether an element from there on is that string.
fn held_from(s: &[u8], at: usize, t: &[u8], j: usize) -> bool
    requires { (at ≤ length s.now) × WellSpelled t.now j }
    ensures { (ss : List Bytes) → Onward s.now at ss → result ≡ holds (decoded (drop j t.now)) ss }
{
    let mut i = at;
    loop {
        let Some(n) = field_names::read_name(s, i) else {
            return false;
        };
        let begin = n.at;
        if json_strings::same_strings(t, j, s, begin) {
            return true;
        }
        let end = n.end;
        match json_values::closing(s, end, CLOSE_BRACKET) {
            Tail::Neither => return false,
            Tail::Closed(_) => return false,
            Tail::More(k) => i = k,
        }
    }
}

// `at` is just after the bracket of an array of strings, `j` just after a string's opening quote in t. Whether the array holds that string.
pub fn holds_string(s: &[u8], at: usize, t: &[u8], j: usize) -> bool
    requires { (at ≤ length s.now) × WellSpelled t.now j × IsList s.now at }
    ensures { (ss : List Bytes) → Listed s.now at ss → result ≡ holds (decoded (drop j t.now)) ss }
{
    match json_values::opening(s, at, CLOSE_BRACKET) {
        Tail::Neither => false,
        Tail::Closed(_) => false,
        Tail::More(first) => held_from(s, first, t, j),
    }
}

// `at` is just after the bracket of an array of strings. Whether no two of them are the same.
pub fn distinct_strings(s: &[u8], at: usize) -> bool
    requires { (at ≤ length s.now) × IsList s.now at }
    ensures { (ss : List Bytes) → Listed s.now at ss → result ≡ distinct ss }
{
    match json_values::opening(s, at, CLOSE_BRACKET) {
        Tail::Neither => true,
        Tail::Closed(_) => true,
        Tail::More(first) => {
            let mut i = first;
            loop {
                let Some(n) = field_names::read_name(s, i) else {
                    return true;
                };
                let end = n.end;
                match json_values::closing(s, end, CLOSE_BRACKET) {
                    Tail::Neither => return true,
                    Tail::Closed(_) => return true,
                    Tail::More(k) => {
                        let begin = n.at;
                        if held_from(s, k, s, begin) {
                            return false;
                        }
                        i = k;
                    }
                }
            }
        }
    }
}

// `at` is at an element of an array of s, `from` at one of t. Whether the strings from there on are the same, one after the other.
fn same_from(s: &[u8], at: usize, t: &[u8], from: usize) -> bool
    requires { (at ≤ length s.now) × (from ≤ length t.now) }
    ensures { (xs ys : List Bytes) → Onward s.now at xs → Onward t.now from ys → result ≡ same_each xs ys }
{
    let mut i = at;
    let mut j = from;
    loop {
        let Some(n) = field_names::read_name(s, i) else {
            return false;
        };
        let Some(m) = field_names::read_name(t, j) else {
            return false;
        };
        if json_strings::same_strings(s, n.at, t, m.at) {
            let end = n.end;
            let close = m.end;
            match json_values::closing(s, end, CLOSE_BRACKET) {
                Tail::Neither => return false,
                Tail::Closed(_) => return match json_values::closing(t, close, CLOSE_BRACKET) {
                    Tail::Neither => false,
                    Tail::Closed(_) => true,
                    Tail::More(_) => false,
                },
                Tail::More(k) => match json_values::closing(t, close, CLOSE_BRACKET) {
                    Tail::Neither => return false,
                    Tail::Closed(_) => return false,
                    Tail::More(l) => {
                        i = k;
                        j = l;
                    }
                },
            }
        } else {
            return false;
        }
    }
}

// `at` and `from` are just after the brackets of arrays of strings. Whether these are the same, one after the other.
pub fn same_lists(s: &[u8], at: usize, t: &[u8], from: usize) -> bool
    requires { (at ≤ length s.now) × IsList s.now at × (from ≤ length t.now) × IsList t.now from }
    ensures { (xs ys : List Bytes) → Listed s.now at xs → Listed t.now from ys → result ≡ same_each xs ys }
{
    match json_values::opening(s, at, CLOSE_BRACKET) {
        Tail::Neither => false,
        Tail::Closed(_) => match json_values::opening(t, from, CLOSE_BRACKET) {
            Tail::Neither => false,
            Tail::Closed(_) => true,
            Tail::More(_) => false,
        },
        Tail::More(first) => match json_values::opening(t, from, CLOSE_BRACKET) {
            Tail::Neither => false,
            Tail::Closed(_) => false,
            Tail::More(other) => same_from(s, first, t, other),
        },
    }
}
