// Numbers of JSON: [ minus ] int [ frac ] [ exp ].
ghost use Rattle.std.specs.Prelude.{◌≡◌, ◌≤◌, ◌+◌, length, drop};
ghost use Rattle.rules.specs.Numbers.{is_digit};
ghost use Rattle.rules.specs.Json.Numbers.{digits, digits1, minus, sign, int, frac, exp, number};
ghost use Rattle.json_tokens.specs.Answers.{Answer, Skips};

const ZERO: u8 = b'0';

const MINUS: u8 = b'-';

const PLUS: u8 = b'+';

const DOT: u8 = b'.';

// 0 to 9.
fn is_digit(b: u8) -> bool
    ensures { result ≡ is_digit b }
{
    b.is_ascii_digit()
}

// Passes digits from `at` on, eight at a time; there may be more of them.
fn skip_eights(s: &[u8], at: usize) -> usize
    requires { at ≤ length s.now }
    ensures { (at ≤ result) × (result ≤ length s.now) × (digits (drop at s.now) ≡ digits (drop result s.now)) }
{
    let mut i = at;
    while 8 <= s.len() - i {
        let bad = bytes_eights::non_digits(bytes_eights::word_at(s, i));
        if bad != 0 {
            return i + bytes_eights::zero_bytes(bad);
        }
        i += 8;
    }
    i
}

// Digits, as many as there are.
fn skip_digits(s: &[u8], at: usize) -> usize
    requires { at ≤ length s.now }
    ensures { Skips (digits (drop at s.now)) s.now at result }
{
    for i in skip_eights(s, at)..s.len() {
        if !is_digit(s[i]) {
            return i;
        }
    }
    s.len()
}

// One digit or more.
fn skip_digits1(s: &[u8], at: usize) -> Option<usize>
    requires { at ≤ length s.now }
    ensures { Answer (digits1 (drop at s.now)) s.now (at + 1) result }
{
    if s.len() <= at {
        return None;
    }
    if is_digit(s[at]) {
        Some(skip_digits(s, at + 1))
    } else {
        None
    }
}

// A minus, where there is one.
fn skip_minus(s: &[u8], at: usize) -> usize
    requires { at ≤ length s.now }
    ensures { Skips (minus (drop at s.now)) s.now at result }
{
    if s.len() <= at {
        return at;
    }
    if s[at] == MINUS { at + 1 } else { at }
}

// A minus or a plus, where there is one.
fn skip_sign(s: &[u8], at: usize) -> usize
    requires { at ≤ length s.now }
    ensures { Skips (sign (drop at s.now)) s.now at result }
{
    if s.len() <= at {
        return at;
    }
    let b = s[at];
    if b == MINUS {
        return at + 1;
    }
    if b == PLUS { at + 1 } else { at }
}

// The digits before the point: a zero alone, or digits that begin with another.
fn skip_int(s: &[u8], at: usize) -> Option<usize>
    requires { at ≤ length s.now }
    ensures { Answer (int (drop at s.now)) s.now (at + 1) result }
{
    if s.len() <= at {
        return None;
    }
    if s[at] == ZERO {
        Some(at + 1)
    } else {
        skip_digits1(s, at)
    }
}

// A point and its digits, where there is a point.
fn skip_frac(s: &[u8], at: usize) -> Option<usize>
    requires { at ≤ length s.now }
    ensures { Answer (frac (drop at s.now)) s.now at result }
{
    if s.len() <= at {
        return Some(at);
    }
    if s[at] == DOT {
        skip_digits1(s, at + 1)
    } else {
        Some(at)
    }
}

// An exponent, its sign and its digits, where there is an e.
fn skip_exp(s: &[u8], at: usize) -> Option<usize>
    requires { at ≤ length s.now }
    ensures { Answer (exp (drop at s.now)) s.now at result }
{
    if s.len() <= at {
        return Some(at);
    }
    match s[at] {
        b'e' | b'E' => skip_digits1(s, skip_sign(s, at + 1)),
        _ => Some(at),
    }
}

// A number, with its sign, fraction and exponent.
pub fn skip_number(s: &[u8], at: usize) -> Option<usize>
    requires { at ≤ length s.now }
    ensures { Answer (number (drop at s.now)) s.now (at + 1) result }
{
    let i = skip_int(s, skip_minus(s, at))?;
    let j = skip_frac(s, i)?;
    skip_exp(s, j)
}
