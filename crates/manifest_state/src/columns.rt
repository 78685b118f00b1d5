// The columns of a manifest with their bounds: an object whose members are objects, and no column twice.
ghost use Rattle.std.specs.Prelude.{◌≤◌, length, drop};
ghost use Rattle.rules.specs.Manifests.{columns_of};
ghost use Rattle.rules.specs.Json.Values.{contents, value as rule_value};
ghost use Rattle.manifest_state.specs.Tables.{TabledIs, ColumnsIs};

use crate::bounds::range_of;
use json_tokens::{CLOSE_BRACE, OPEN_BRACE};
use json_values::Tail;

// How deep values may nest inside of the object of columns.
pub const IN_BOUNDS: usize = 28;

// `at` is just after the brace of a manifest's bounds. The position behind the columns there, each well formed.
fn columns_in(t: &[u8], at: usize) -> Option<usize>
    requires { at ≤ length t.now }
    ensures { TabledIs (contents (rule_value 28) (drop at t.now)) t.now result }
{
    match json_values::opening(t, at, CLOSE_BRACE) {
        Tail::Neither => None,
        Tail::Closed(end) => Some(end),
        Tail::More(first) => {
            let mut i = first;
            loop {
                let (_, v, e) = field_objects::read_member(t, i, IN_BOUNDS)?;
                range_of(&t[v..e])?;
                match json_values::closing(t, e, CLOSE_BRACE) {
                    Tail::Neither => return None,
                    Tail::Closed(end) => return Some(end),
                    Tail::More(j) => i = j,
                }
            }
        }
    }
}

// The columns that the text is: the position behind their brace.
pub fn columns_of(t: &[u8]) -> Option<usize>
    ensures { ColumnsIs (columns_of t.now) t.now result }
{
    let at = json_tokens::skip_byte(t, json_tokens::skip_ws(t, 0), OPEN_BRACE)?;
    let end = columns_in(t, at)?;
    if json_tokens::skip_ws(t, end) < t.len() {
        return None;
    }
    if field_objects::distinct_names(t, at, IN_BOUNDS) {
        Some(at)
    } else {
        None // a column twice
    }
}
