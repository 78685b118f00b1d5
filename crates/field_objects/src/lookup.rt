// A member of an object, by a name that another text spells.
ghost use Rattle.std.specs.Prelude.{◌≤◌, length, drop};
ghost use Rattle.json_strings.specs.Decoded.{decoded, WellSpelled};
ghost use Rattle.field_objects.specs.Lookup.{Standing, Onward, lookup, FoundIs};

use crate::objects;
use json_tokens::CLOSE_BRACE;
use json_values::Tail;

// The same from the member at `at` on.
fn find_from(s: &[u8], at: usize, depth: usize, t: &[u8], j: usize) -> Option<(usize, usize)>
    requires { (at ≤ length s.now) × Onward depth s.now at × WellSpelled t.now j }
    ensures { (o : Onward depth s.now at) → FoundIs (lookup (decoded (drop j t.now)) o.ms) s.now result }
{
    let mut i = at;
    loop {
        let (n, v, e) = objects::read_member(s, i, depth)?;
        let begin = n.at;
        if json_strings::same_strings(t, j, s, begin) {
            return Some((v, e));
        }
        match json_values::closing(s, e, CLOSE_BRACE) {
            Tail::Neither => return None,
            Tail::Closed(_) => return None,
            Tail::More(k) => i = k,
        }
    }
}

// `at` is just after an object's opening brace. The value of its first member that has the name spelled in t from j on.
pub fn find_name(s: &[u8], at: usize, depth: usize, t: &[u8], j: usize) -> Option<(usize, usize)>
    requires { (at ≤ length s.now) × Standing depth s.now at × WellSpelled t.now j }
    ensures { (o : Standing depth s.now at) → FoundIs (lookup (decoded (drop j t.now)) o.ms) s.now result }
{
    match json_values::opening(s, at, CLOSE_BRACE) {
        Tail::Neither => None,
        Tail::Closed(_) => None,
        Tail::More(first) => find_from(s, first, depth, t, j),
    }
}
