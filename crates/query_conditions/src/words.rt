// The words of a condition: what it compares as, how a value must stand to its own, and its own value under what it compares as.
ghost use Rattle.std.specs.Prelude.{◌≡◌, drop};
ghost use Rattle.rules.specs.Query.{as_of, op_of, number_of};
ghost use Rattle.query_numbers.specs.Answers.{numeral_is};
ghost use Rattle.json_strings.specs.Decoded.{decoded, WellSpelled};
ghost use Rattle.query_conditions.specs.Words.{as_is, kind_is, operator_is, fit_is};

use json_strings::Cursor;
use query_numbers::{NoNumber, Signed};

// A minus and 20 digits: the most bytes that a number may have.
const MOST_BYTES: usize = 21;

// What a condition compares as: unsigned bytes, or numbers.
#[derive(Clone, Copy)]
pub enum As {
    Text,
    Number,
}

// The kind that the string behind `at` says.
pub fn kind_at(q: &[u8], at: usize) -> Option<As>
    requires { WellSpelled q.now at }
    ensures { result ≡ kind_is (as_of (decoded (drop at q.now))) }
{
    if json_strings::string_is(q, at, b"text") {
        return Some(As::Text);
    }
    if json_strings::string_is(q, at, b"number") {
        Some(As::Number)
    } else {
        None
    }
}

// How a value must stand to the condition's own.
#[derive(Clone, Copy)]
pub enum Op {
    Eq,
    Lt,
    Le,
    Gt,
    Ge,
}

// The operator that the string behind `at` says.
pub fn operator_at(q: &[u8], at: usize) -> Option<Op>
    requires { WellSpelled q.now at }
    ensures { result ≡ operator_is (op_of (decoded (drop at q.now))) }
{
    if json_strings::string_is(q, at, b"eq") {
        return Some(Op::Eq);
    }
    if json_strings::string_is(q, at, b"lt") {
        return Some(Op::Lt);
    }
    if json_strings::string_is(q, at, b"le") {
        return Some(Op::Le);
    }
    if json_strings::string_is(q, at, b"gt") {
        return Some(Op::Gt);
    }
    if json_strings::string_is(q, at, b"ge") {
        Some(Op::Ge)
    } else {
        None
    }
}

// The number that the string stands for. More bytes than 21 are none, so no more are looked at.
pub fn numeral_in(s: &[u8], at: usize) -> Result<Signed, NoNumber>
    requires { WellSpelled s.now at }
    ensures { result ≡ numeral_is (number_of (decoded (drop at s.now))) }
{
    let mut c = Cursor {
        at,
        code: 0,
        left: 0,
    };
    let mut digits = [0u8; 24];
    for n in 0..=MOST_BYTES {
        let Some((b, d)) = json_strings::next(s, c) else {
            return query_numbers::numeral_of(&digits[..n]);
        };
        digits[n] = b;
        c = d;
    }
    Err(NoNumber::NotNumber)
}

// The string behind `at` as the value of a condition of the kind.
#[tactic(auto, using(crate::proofs::Saying::ok_fits), unfolding(crate::specs::Words::as_is, crate::specs::Words::fit_is))]
pub fn fit_at(q: &[u8], at: usize, kind: As) -> Option<Signed>
    requires { WellSpelled q.now at }
    ensures { result ≡ fit_is (as_is kind) (decoded (drop at q.now)) }
{
    match kind {
        As::Text => Some(Signed {
            negative: false,
            size: 0,
        }),
        As::Number => numeral_in(q, at).ok(),
    }
}
