// A condition of a query, read where it stands.
ghost use Rattle.std.specs.Prelude.{◌≤◌, length, drop};
ghost use Rattle.json_strings.specs.Decoded.{decoded, WellSpelled};
ghost use Rattle.field_scalars.specs.Inside.{Inside, string_in};
ghost use Rattle.query_conditions.specs.Conditions.{condition_from, condition_by, condition_read, MadeIs, ElementIs};

use crate::members::in_order;
use crate::words::{As, Op};
use crate::{IN_CONDITION, words};
use field_objects::Slot;
use json_tokens::OPEN_BRACE;
use query_numbers::Signed;

// A condition on the values of a column. The column and the bound, the condition's own value, are strings of the query, each by the
// position behind its opening quote; under "number" the bound is the number, which under "text" is zero.
#[derive(Clone, Copy)]
pub struct Condition {
    pub column: usize,
    pub kind: As,
    pub op: Op,
    pub bound: usize,
    pub number: Signed,
}

// The condition of the strings behind four positions.
fn condition_by(q: &[u8], column: usize, kind: usize, op: usize, bound: usize) -> Option<Condition>
    requires { WellSpelled q.now column × WellSpelled q.now kind × WellSpelled q.now op × WellSpelled q.now bound }
    ensures { MadeIs
        (condition_from (decoded (drop column q.now)) (decoded (drop kind q.now)) (decoded (drop op q.now))
        (decoded (drop bound q.now)))
        q.now
        result }
{
    let k = words::kind_at(q, kind)?;
    let o = words::operator_at(q, op)?;
    let number = words::fit_at(q, bound, k)?;
    Some(Condition {
        column,
        kind: k,
        op: o,
        bound,
        number,
    })
}

// The condition of the strings of four fields.
fn condition_of(q: &[u8], column: Slot, kind: Slot, op: Slot, bound: Slot) -> Option<Condition>
    requires { Inside q.now column × Inside q.now kind × Inside q.now op × Inside q.now bound }
    ensures { MadeIs
        (condition_by (string_in q.now column) (string_in q.now kind) (string_in q.now op) (string_in q.now bound))
        q.now
        result }
{
    let (c, _) = field_scalars::string_in(q, column)?;
    let (k, _) = field_scalars::string_in(q, kind)?;
    let (o, _) = field_scalars::string_in(q, op)?;
    let (b, _) = field_scalars::string_in(q, bound)?;
    condition_by(q, c, k, o, b)
}

// The condition whose object begins at `at`.
pub fn condition_at(q: &[u8], at: usize) -> Option<(Condition, usize)>
    requires { at ≤ length q.now }
    ensures { ElementIs (condition_read (drop at q.now)) q.now at result }
{
    let i = json_tokens::skip_byte(q, at, OPEN_BRACE)?;
    let f = field_objects::scan(q, i, field_names::Kind::Condition, IN_CONDITION)?;
    if !in_order(q, i, IN_CONDITION) {
        return None;
    }
    let column = f.slots[0];
    let kind = f.slots[1];
    let op = f.slots[2];
    let bound = f.slots[3];
    let c = condition_of(q, column, kind, op, bound)?;
    Some((c, f.end))
}
