// The numbers of a query: read from decoded bytes, and how they stand to each other.
// Each function answers for every text that it is lent.
#![tactic(auto)]

ghost use Rattle.std.specs.Prelude.{◌≡◌, length, Some};
ghost use Rattle.rules.specs.Numbers.{decimal};
ghost use Rattle.rules.specs.Query.{most_digits, number_of, digits_in, positive, negative};
ghost use Rattle.rules.specs.Picking.{order_of_numbers};
ghost use Rattle.bytes_values.specs.Answers.{order_is};
ghost use Rattle.query_numbers.specs.Answers.{signed_is, numeral_is};
ghost use Rattle.query_numbers.specs.Capping.{capped_is};

use bytes_values::{MOST, SAFE_DIGITS};
use std::cmp::Ordering;

// 2^63: the lowest number of a query is -2^63.
const LOWEST_SIZE: u64 = 9223372036854775808;

// The most digits that a number of a query may have.
const MOST_DIGITS: usize = 20;

// A number by its sign and its size. Zero is not negative.
#[derive(Clone, Copy, Debug)]
pub struct Signed {
    pub negative: bool,
    pub size: u64,
}

// Why bytes are no number of a query: the number that they spell is out of range, or they spell none.
#[derive(Clone, Copy, Debug, PartialEq, Eq)]
pub enum NoNumber {
    OutOfRange,
    NotNumber,
}

fn cap(n: u64) -> Result<u64, NoNumber>
    ensures { result ≡ capped_is (Some n) }
{
    if LOWEST_SIZE < n {
        return Err(NoNumber::OutOfRange);
    }
    Ok(n)
}

// Of twenty digits the first tells whether they may be in range.
fn twenty_digits(v: &[u8]) -> Result<u64, NoNumber>
    requires { length v.now ≡ most_digits }
    ensures { result ≡ capped_is (decimal v.now) }
{
    if !v[0].is_ascii_digit() {
        return Err(NoNumber::NotNumber);
    }
    let n = bytes_values::short_digits(&v[1..]).ok_or(NoNumber::NotNumber)?;
    if b'0' < v[0] {
        return Err(NoNumber::OutOfRange);
    }
    cap(n)
}

// One to twenty digits, zeros in front allowed.
fn capped_digits(v: &[u8]) -> Result<u64, NoNumber>
    ensures { result ≡ capped_is (digits_in v.now) }
{
    if MOST_DIGITS < v.len() {
        return Err(NoNumber::NotNumber);
    }
    if SAFE_DIGITS < v.len() {
        return twenty_digits(v);
    }
    let n = bytes_values::short_digits(v).ok_or(NoNumber::NotNumber)?;
    cap(n)
}

fn positive_of(v: &[u8]) -> Result<Signed, NoNumber>
    ensures { result ≡ numeral_is (positive (digits_in v.now)) }
{
    let n = capped_digits(v)?;
    if MOST < n {
        return Err(NoNumber::OutOfRange);
    }
    Ok(Signed {
        negative: false,
        size: n,
    })
}

fn negative_of(v: &[u8]) -> Result<Signed, NoNumber>
    ensures { result ≡ numeral_is (negative (digits_in v.now)) }
{
    let n = capped_digits(v)?;
    Ok(Signed {
        negative: 0 < n,
        size: n,
    })
}

// The number that decoded bytes spell: an optional minus and 1 to 20 digits, from -2^63 to 2^63 - 1.
pub fn numeral_of(v: &[u8]) -> Result<Signed, NoNumber>
    ensures { result ≡ numeral_is (number_of v.now) }
{
    match v.strip_prefix(b"-") {
        Some(digits) => negative_of(digits),
        None => positive_of(v),
    }
}

// ---- their order

// How a stands to b; a zero with a minus is zero.
pub fn order_numbers(a: Signed, b: Signed) -> Ordering
    ensures { result ≡ order_is (order_of_numbers (signed_is a) (signed_is b)) }
{
    if a.size == 0 && b.size == 0 {
        return Ordering::Equal;
    }
    match (a.negative, b.negative) {
        (true, true) => b.size.cmp(&a.size),
        (true, false) => Ordering::Less,
        (false, true) => Ordering::Greater,
        (false, false) => a.size.cmp(&b.size),
    }
}
