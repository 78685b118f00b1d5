// What a name in the bundle says: a version file, a checkpoint, the marker, or nothing that is read.
// Every byte string has an answer.
#![tactic(auto)]

ghost use Rattle.std.specs.Prelude.{◌≡◌, ◌≤◌, length, take, [], ◌∷◌};
ghost use Rattle.rules.specs.Numbers.{decimal, decimal_from};
ghost use Rattle.rules.specs.Bytes.{begins};
ghost use Rattle.rules.specs.Names.{name_of};
ghost use Rattle.file_names.specs.Names.{name_is, digits_is, two_zeros};

use bytes_values::{MOST, SAFE_DIGITS};

// The number of a version. It is never compared with a time.
#[derive(Clone, Copy)]
pub struct Version(pub u64);

// A time in milliseconds. It is never compared with a version.
#[derive(Clone, Copy)]
pub struct Millis(pub u64);

// What a name says.
#[derive(Clone, Copy)]
pub enum Name {
    VersionFile(Version),
    Checkpoint(Version),
    Marker,
    Other,
    TooLarge,
}

// How many digits a version's name begins with.
pub const DIGITS: usize = 20;

// The highest number with room for one more digit.
const ROOM: u64 = 922337203685477580;

// The twentieth digit, b, behind digits that stand for n: the version, or what the name says without one.
fn last_digit(n: u64, b: u8) -> Result<Version, Name>
    ensures { result ≡ digits_is (decimal_from n (b ∷ [])) }
{
    if !b.is_ascii_digit() {
        return Err(Name::Other);
    }
    if ROOM < n {
        return Err(Name::TooLarge);
    }
    let v = n * 10 + u64::from(b - b'0');
    if MOST < v {
        return Err(Name::TooLarge);
    }
    Ok(Version(v))
}

// The same of the first twenty bytes of a name, read in base ten whatever the first digit is. Nineteen digits always fit.
fn twenty_digits(n: &[u8]) -> Result<Version, Name>
    requires { 20 ≤ length n.now }
    ensures { result ≡ digits_is (decimal (take 20 n.now)) }
{
    let v = bytes_values::short_digits(&n[..SAFE_DIGITS]).ok_or(Name::Other)?;
    last_digit(v, n[SAFE_DIGITS])
}

// What the name n says.
pub fn name_of(n: &[u8]) -> Name
    ensures { result ≡ name_is (name_of n.now) }
{
    if bytes_values::same_bytes(n, b"_last_checkpoint") {
        return Name::Marker;
    }
    if n.len() < DIGITS {
        return Name::Other;
    }
    let ending = &n[DIGITS..];
    if bytes_values::same_bytes(ending, b".json") {
        return match twenty_digits(n) {
            Ok(v) => Name::VersionFile(v),
            Err(name) => name,
        };
    }
    if bytes_values::same_bytes(ending, b".checkpoint.json") {
        return match twenty_digits(n) {
            Ok(v) => Name::Checkpoint(v),
            Err(name) => name,
        };
    }
    Name::Other
}

// Whether the name begins with two zeros: a version in twenty digits is then not too large (`low-name`).
pub fn begins_low(n: &[u8]) -> bool
    ensures { result ≡ begins two_zeros n.now }
{
    2 <= n.len() && n[0] == b'0' && n[1] == b'0'
}
