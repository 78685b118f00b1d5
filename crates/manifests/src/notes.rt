// The manifests of a state manifest one after another: the numbers of those that the query keeps, noted in a lent room.
ghost use Rattle.std.specs.Prelude.{◌≤◌, length, drop};
ghost use Rattle.rules.specs.Json.Values.{elements, value as rule_value};
ghost use Rattle.rules.specs.Manifests.{manifest_of};
ghost use Rattle.query_conditions.specs.Reading.{conditions_of, Sounds};
ghost use Rattle.manifest_state.specs.States.{manifests_of};
ghost use Rattle.manifests.specs.Walks.{TurnIs, WalkIs, CountedIs};

use crate::judging;
use json_tokens::{CLOSE_BRACKET, OPEN_BRACKET};
use json_values::Tail;
use query_conditions::Query;
use rooms::MOST_MANIFESTS;

// How deep values may nest inside of the array of manifests.
const IN_MANIFESTS: usize = 30;

// The manifest that the text is, number k, behind n that are kept.
fn note_next(
    t: &[u8],
    q: &[u8],
    asked: Query,
    kept: &mut [u32],
    n: usize,
    k: usize,
) -> Option<usize>
    requires { Sounds q.now asked.count asked.conditions × (n ≤ k) × (256 ≤ length kept.old) }
    ensures { TurnIs (manifest_of t.now) (conditions_of q.now asked.count asked.conditions) n k kept.old kept.new result }
{
    let is_kept = judging::judge(t, q, asked)?;
    if is_kept && k < MOST_MANIFESTS {
        kept[n] = k as u32;
        return Some(n + 1);
    }
    Some(n) // it is dropped, or one too many, which is only counted
}

// `at` is just after the opening bracket of the array of manifests. Notes those that the query keeps.
fn note_all(
    u: &[u8],
    at: usize,
    q: &[u8],
    asked: Query,
    kept: &mut [u32],
) -> Option<(usize, usize, usize)>
    requires { (at ≤ length u.now) × Sounds q.now asked.count asked.conditions × (256 ≤ length kept.old) }
    ensures { WalkIs
        (elements (rule_value 30) (drop at u.now))
        (conditions_of q.now asked.count asked.conditions)
        u.now
        kept.old
        kept.new
        result }
{
    match json_values::opening(u, at, CLOSE_BRACKET) {
        Tail::Neither => None,
        Tail::Closed(end) => Some((end, 0, 0)),
        Tail::More(first) => {
            let mut i = first;
            let mut k = 0;
            let mut n = 0;
            loop {
                let e = json_values::value(u, i, IN_MANIFESTS)?;
                let m = note_next(&u[i..e], q, asked, kept, n, k)?;
                n = m;
                k += 1;
                match json_values::closing(u, e, CLOSE_BRACKET) {
                    Tail::Neither => return None,
                    Tail::Closed(end) => return Some((end, k, n)),
                    Tail::More(j) => i = j,
                }
            }
        }
    }
}

// The array of manifests that the text is.
pub fn note_array(
    u: &[u8],
    q: &[u8],
    asked: Query,
    kept: &mut [u32],
) -> Option<(usize, usize, usize)>
    requires { Sounds q.now asked.count asked.conditions × (256 ≤ length kept.old) }
    ensures { CountedIs (manifests_of u.now) (conditions_of q.now asked.count asked.conditions) kept.old kept.new result }
{
    let at = json_tokens::skip_byte(u, json_tokens::skip_ws(u, 0), OPEN_BRACKET)?;
    let (end, k, n) = note_all(u, at, q, asked, kept)?;
    if json_tokens::skip_ws(u, end) < u.len() {
        return None;
    }
    Some((end, k, n))
}
