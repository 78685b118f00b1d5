// What the text of a value says: a whole number, null, a boolean; and how byte strings stand to each other.
// Each function answers for every text that it is lent.
#![tactic(auto)]

ghost use Rattle.std.specs.Prelude.{◌≡◌, ◌≤◌, length};
ghost use Rattle.rules.specs.Bytes.{same, begins, order};
ghost use Rattle.rules.specs.Numbers.{decimal};
ghost use Rattle.rules.specs.Json.Numbers.{whole};
ghost use Rattle.rules.specs.Json.Fields.{is_null, bool_of};
ghost use Rattle.bytes_values.specs.Answers.{order_is};
ghost use Rattle.bytes_values.specs.Readings.{safe_digits, in_bounds};

use std::cmp::Ordering;

// 2^63 - 1: the highest whole number, and the highest number of a query.
pub const MOST: u64 = 9223372036854775807;

// How many decimal digits always fit a u64.
pub const SAFE_DIGITS: usize = 19;

// ---- byte strings

// Whether b begins with a.
pub fn begins_with(a: &[u8], b: &[u8]) -> bool
    ensures { result ≡ begins a.now b.now }
{
    a.len() <= b.len() && bytes_eights::common(a, 0, b, 0, a.len()) == a.len()
}

// Whether a and b are the same bytes.
pub fn same_bytes(a: &[u8], b: &[u8]) -> bool
    ensures { result ≡ same a.now b.now }
{
    a.len() == b.len() && begins_with(a, b)
}

// How a stands to b by unsigned bytes; a string stands before those that it begins.
pub fn order_bytes(a: &[u8], b: &[u8]) -> Ordering
    ensures { result ≡ order_is (order a.now b.now) }
{
    let few = a.len().min(b.len());
    let n = bytes_eights::common(a, 0, b, 0, few);
    if n < few {
        return a[n].cmp(&b[n]);
    }
    a.len().cmp(&b.len())
}

// ---- words

// Whether the value is null.
pub fn is_null(v: &[u8]) -> bool
    ensures { result ≡ is_null v.now }
{
    same_bytes(v, b"null")
}

// The boolean that the value is.
pub fn truth_of(v: &[u8]) -> Option<bool>
    ensures { result ≡ bool_of v.now }
{
    if same_bytes(v, b"true") {
        return Some(true);
    }
    if same_bytes(v, b"false") {
        return Some(false);
    }
    None
}

// ---- digits

// The number that few enough digits stand for.
pub fn short_digits(v: &[u8]) -> Option<u64>
    requires { length v.now ≤ safe_digits }
    ensures { result ≡ decimal v.now }
{
    if v.is_empty() {
        return None;
    }
    let mut n: u64 = 0;
    for &b in v {
        if !b.is_ascii_digit() {
            return None;
        }
        n = n * 10 + u64::from(b - b'0');
    }
    Some(n)
}

// ---- whole numbers

// Few enough digits, as far as they stay in bounds.
fn whole_digits(v: &[u8]) -> Option<u64>
    requires { length v.now ≤ safe_digits }
    ensures { result ≡ in_bounds (decimal v.now) }
{
    let n = short_digits(v)?;
    if MOST < n {
        return None;
    }
    Some(n)
}

// The whole number that the value is: digits without sign, fraction, exponent or leading zero.
pub fn whole_of(v: &[u8]) -> Option<u64>
    ensures { result ≡ whole v.now }
{
    if SAFE_DIGITS < v.len() {
        return None;
    }
    if 1 < v.len() && v[0] == b'0' {
        return None;
    }
    whole_digits(v)
}
