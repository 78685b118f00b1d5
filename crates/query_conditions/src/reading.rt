// A whole query: an array of at most 8 conditions, whose columns differ.
ghost use Rattle.std.specs.Prelude.{◌≡◌, ◌≤◌, length, drop};
ghost use Rattle.facts.specs.Lists.{All};
ghost use Rattle.rules.specs.Bytes.{holds, distinct};
ghost use Rattle.rules.specs.Json.Values.{list};
ghost use Rattle.json_strings.specs.Decoded.{decoded, WellSpelled};
ghost use Rattle.query_conditions.specs.Conditions.{condition_read};
ghost use Rattle.query_conditions.specs.Reading.{no_condition, names_at, few_of, GatheredIs, QueryIs};

use crate::conditions;
use crate::conditions::Condition;
use crate::words::{As, Op};
use json_tokens::{CLOSE_BRACKET, OPEN_BRACKET};
use json_values::Tail;
use query_numbers::Signed;

// The most bytes that a query may have.
const MOST_BYTES: usize = 4_096;

// The most conditions that a query may have.
const MOST_CONDITIONS: usize = 8;

// A query: its conditions, of which there are `count`. The others are one constant.
#[derive(Clone, Copy)]
pub struct Query {
    pub count: usize,
    pub conditions: [Condition; 8],
}

// The conditions of an array, whose columns may be the same, and the position behind it.
#[derive(Clone, Copy)]
struct Gathered {
    end: usize,
    query: Query,
}

// What stands where there is no condition.
fn no_condition() -> Condition
    ensures { result ≡ no_condition }
{
    Condition {
        column: 0,
        kind: As::Text,
        op: Op::Eq,
        bound: 0,
        number: Signed {
            negative: false,
            size: 0,
        },
    }
}

// `at` is just after the array's opening bracket. Reads the conditions in it.
fn conditions_in(q: &[u8], at: usize) -> Option<Gathered>
    requires { at ≤ length q.now }
    ensures { GatheredIs (few_of (list condition_read 0x5D (drop at q.now))) q.now result }
{
    let blank = no_condition();
    let mut conditions = [blank; 8];
    match json_values::opening(q, at, CLOSE_BRACKET) {
        Tail::Neither => None,
        Tail::Closed(end) => Some(Gathered {
            end,
            query: Query {
                count: 0,
                conditions,
            },
        }),
        Tail::More(first) => {
            let mut i = first;
            let mut n = 0;
            loop {
                if n == MOST_CONDITIONS {
                    return None;
                }
                let (c, e) = conditions::condition_at(q, i)?;
                conditions[n] = c;
                n += 1;
                match json_values::closing(q, e, CLOSE_BRACKET) {
                    Tail::Neither => return None,
                    Tail::Closed(end) => {
                        return Some(Gathered {
                            end,
                            query: Query {
                                count: n,
                                conditions,
                            },
                        });
                    }
                    Tail::More(j) => i = j,
                }
            }
        }
    }
}

// Whether the string that is spelled behind `at` is one of those that are spelled behind `columns`.
fn holds_column(q: &[u8], columns: &[usize], at: usize) -> bool
    requires { All (WellSpelled q.now) columns.now × WellSpelled q.now at }
    ensures { result ≡ holds (decoded (drop at q.now)) (names_at q.now columns.now) }
{
    columns
        .iter()
        .any(|column| json_strings::same_strings(q, at, q, *column))
}

// Whether the strings that are spelled behind `columns` differ.
fn columns_differ(q: &[u8], columns: &[usize]) -> bool
    requires { All (WellSpelled q.now) columns.now }
    ensures { result ≡ distinct (names_at q.now columns.now) }
{
    for k in 0..columns.len() {
        if holds_column(q, &columns[k + 1..], columns[k]) {
            return false;
        }
    }
    true
}

// The query that the bytes are.
pub fn read(q: &[u8]) -> Option<Query>
    ensures { QueryIs q.now result }
{
    if MOST_BYTES < q.len() {
        return None;
    }
    let at = json_tokens::skip_byte(q, json_tokens::skip_ws(q, 0), OPEN_BRACKET)?;
    let g = conditions_in(q, at)?;
    if json_tokens::skip_ws(q, g.end) < q.len() {
        return None;
    }
    let columns = g.query.conditions.map(|c| c.column); // of all 8, whatever the count
    if columns_differ(q, &columns[..g.query.count]) {
        return Some(g.query);
    }
    None
}
