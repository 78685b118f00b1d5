// The members of a condition by their names alone: how many there are, and which of `as` and `value` is met first.
ghost use Rattle.std.specs.Prelude.{◌≡◌, ◌&&◌, [], ◌∷◌, ◌≤◌, eqb, length, drop};
ghost use Rattle.rules.specs.Json.Values.{contents, value as rule_value};
ghost use Rattle.json_strings.specs.Decoded.{decoded, WellSpelled};
ghost use Rattle.query_conditions.specs.Members.{met_in, or_else, is_as, in_order};

use json_tokens::CLOSE_BRACE;
use json_values::Tail;

// How many members a condition has.
const MEMBERS: usize = 4;

// What is met first, of `as` and `value`.
#[derive(Clone, Copy)]
pub enum First {
    As,
    Value,
}

// The same with one name more, which is spelled behind `at`.
fn met_then(first: Option<First>, s: &[u8], at: usize) -> Option<First>
    requires { WellSpelled s.now at }
    ensures { result ≡ or_else first (met_in (decoded (drop at s.now) ∷ [])) }
{
    if first.is_some() {
        return first;
    }
    if json_strings::string_is(s, at, b"as") {
        return Some(First::As);
    }
    if json_strings::string_is(s, at, b"value") {
        return Some(First::Value);
    }
    None
}

// Whether these are the members of a condition, by their number and by which is met first.
#[tactic(auto, unfolding(crate::specs::Members::is_as))]
fn four_in_order(n: usize, first: Option<First>) -> bool
    ensures { result ≡ (eqb n 4 && is_as first) }
{
    n == MEMBERS && matches!(first, Some(First::As))
}

// Whether behind the brace before `at` stands an object of four members with `as` before `value`.
pub fn in_order(s: &[u8], at: usize, depth: usize) -> bool
    requires { at ≤ length s.now }
    ensures { result ≡ in_order (contents (rule_value depth) (drop at s.now)) }
{
    let Tail::More(start) = json_values::opening(s, at, CLOSE_BRACE) else {
        return false;
    };
    let mut i = start;
    let mut n = 0;
    let mut first = None;
    loop {
        let Some(v) = json_values::skip_name(s, i) else {
            return false;
        };
        let Some(e) = json_values::value(s, v, depth) else {
            return false;
        };
        n += 1;
        let next = met_then(first, s, i + 1);
        first = next;
        match json_values::closing(s, e, CLOSE_BRACE) {
            Tail::Neither => return false,
            Tail::Closed(_) => return four_in_order(n, first),
            Tail::More(j) => i = j,
        }
    }
}
