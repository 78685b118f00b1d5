// What a condition says of values: whether one meets it or is out of range, and whether none between two bounds meets it.
#![tactic(auto)]

ghost use Rattle.std.specs.Prelude.{◌≡◌, drop};
ghost use Rattle.rules.specs.Picking.{meets as rule_meets, meets_as, out_of_as};
ghost use Rattle.rules.specs.Manifests.{none_meets, outside_as};
ghost use Rattle.bytes_values.specs.Answers.{order_of};
ghost use Rattle.json_strings.specs.Decoded.{decoded, WellSpelled};
ghost use Rattle.query_conditions.specs.Words.{as_is, op_is};
ghost use Rattle.query_conditions.specs.Conditions.{Sound};
ghost use Rattle.query_comparisons.specs.Between.{outside_by, outside_numerals};
ghost use Rattle.query_comparisons.specs.Judging.{judged_is};

use query_conditions::{As, Condition, Op};
use query_numbers::{NoNumber, Signed};
use std::cmp::Ordering;

// A value that is out of range is no answer to conditions.
#[derive(Clone, Copy)]
pub struct OutOfRange;

// Whether a value that stands so to the condition's own meets the condition.
#[tactic(auto, using(crate::proofs::Asked::asked), unfolding(query_conditions::specs::Words::op_is, rules::specs::Picking::meets))]
fn meets(op: Op, o: Ordering) -> bool
    ensures { result ≡ rule_meets (op_is op) (order_of o) }
{
    match op {
        Op::Eq => o.is_eq(),
        Op::Lt => o.is_lt(),
        Op::Le => o.is_le(),
        Op::Gt => o.is_gt(),
        Op::Ge => o.is_ge(),
    }
}

// Whether the string in s behind `at` meets the condition of the query q, or is a number out of range where the condition reads numbers.
pub fn judge_at(q: &[u8], c: Condition, s: &[u8], at: usize) -> Result<bool, OutOfRange>
    requires { Sound q.now c × WellSpelled s.now at }
    ensures { result
        ≡ judged_is (out_of_as (as_is c.kind) (decoded (drop at s.now)))
        (meets_as (as_is c.kind) (op_is c.op) (decoded (drop at s.now)) (decoded (drop c.bound q.now))) }
{
    match c.kind {
        As::Text => Ok(meets(c.op, json_strings::order_strings(s, at, q, c.bound))),
        As::Number => match query_conditions::numeral_in(s, at) {
            Ok(n) => Ok(meets(c.op, query_numbers::order_numbers(n, c.number))),
            Err(NoNumber::OutOfRange) => Err(OutOfRange),
            Err(NoNumber::NotNumber) => Ok(false), // what is no number meets none
        },
    }
}

// Whether no value from a least to a greatest meets the condition, by how these two stand to the condition's own.
#[tactic(auto, using(crate::proofs::Asked::asked), unfolding(query_conditions::specs::Words::op_is, rules::specs::Manifests::none_meets))]
fn none_meets(op: Op, least: Ordering, greatest: Ordering) -> bool
    ensures { result ≡ none_meets (op_is op) (order_of least) (order_of greatest) }
{
    match op {
        Op::Eq => least.is_gt() || greatest.is_lt(),
        Op::Lt | Op::Le => !meets(op, least),
        Op::Gt | Op::Ge => !meets(op, greatest),
    }
}

// The same, and the least is not above the greatest, to which it stands so.
#[tactic(auto, using(crate::proofs::Asked::asked), unfolding(crate::specs::Between::outside_by))]
fn outside(op: Op, between: Ordering, least: Ordering, greatest: Ordering) -> bool
    ensures { result ≡ outside_by (op_is op) (order_of between) (order_of least) (order_of greatest) }
{
    between.is_le() && none_meets(op, least, greatest)
}

// The same of numbers, all of which must be readable.
#[tactic(auto, using(crate::proofs::Comparing::signed), unfolding(crate::specs::Between::outside_numerals))]
fn outside_numbers(
    op: Op,
    bound: Signed,
    lo: Result<Signed, NoNumber>,
    hi: Result<Signed, NoNumber>,
) -> bool
    ensures { result ≡ outside_numerals (op_is op) bound lo hi }
{
    match (lo, hi) {
        (Ok(least), Ok(greatest)) => outside(
            op,
            query_numbers::order_numbers(least, greatest),
            query_numbers::order_numbers(least, bound),
            query_numbers::order_numbers(greatest, bound),
        ),
        _ => false,
    }
}

// Whether no value from the string in s behind lo to the string in s behind hi meets the condition of the query q.
pub fn outside_at(q: &[u8], c: Condition, s: &[u8], lo: usize, hi: usize) -> bool
    requires { Sound q.now c × WellSpelled s.now lo × WellSpelled s.now hi }
    ensures { result
        ≡ outside_as (as_is c.kind) (op_is c.op) (decoded (drop c.bound q.now)) (decoded (drop lo s.now))
        (decoded (drop hi s.now)) }
{
    match c.kind {
        As::Text => outside(
            c.op,
            json_strings::order_strings(s, lo, s, hi),
            json_strings::order_strings(s, lo, q, c.bound),
            json_strings::order_strings(s, hi, q, c.bound),
        ),
        As::Number => outside_numbers(
            c.op,
            c.number,
            query_conditions::numeral_in(s, lo),
            query_conditions::numeral_in(s, hi),
        ),
    }
}
