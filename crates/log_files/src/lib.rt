// The files of a log in a well-formed bundle, found by what their names say. Names ascend, so that each look halves what is left.
#![tactic(auto)]

ghost use Rattle.std.specs.Prelude.{◌≡◌, None, ◌++◌, ◌≤◌, ◌<◌, length, take, drop};
ghost use Rattle.rules.specs.Numbers.{most};
ghost use Rattle.rules.specs.Bundle.{IsBundle};
ghost use Rattle.rules.specs.Starts.{log_of};
ghost use Rattle.rules.specs.Keyed.{lookup};
ghost use Rattle.file_bundle.specs.Files.{files_in};
ghost use Rattle.log_files.specs.Logs.{title, twenty, PlaceIs};

use bytes_values::MOST;
use file_names::{DIGITS, Version};
use std::cmp::Ordering;

// How far from `near` the first guess lies; halved with each look: three guesses, then bisection.
const NEAR: usize = 4;

// How many files the well-formed bundle s has.
pub fn count(s: &[u8]) -> usize
    requires { IsBundle s.now }
    ensures { result ≡ length (files_in s.now) }
{
    file_bundle::u32_at(s, 0)
}

// The place from lo on and before hi to look at: in the middle, or the nearest to `near` for the first looks.
fn place_between(lo: usize, hi: usize, near: usize, looks: usize) -> usize
    requires { lo < hi }
    ensures { (lo ≤ result) × (result < hi) }
{
    if looks == 0 {
        return lo + (hi - lo) / 2;
    }
    if near < lo {
        return lo;
    }
    if near < hi {
        return near;
    }
    hi - 1
}

// Where the file of this name stands. `near` is where it may be: a search that begins there ends soon if it is, and else it halves.
fn find(s: &[u8], name: &[u8], near: usize) -> Option<usize>
    requires { IsBundle s.now }
    ensures { PlaceIs s.now (lookup title name.now (files_in s.now)) result }
{
    let mut lo = 0;
    let mut hi = count(s);
    let mut looks = NEAR;
    while lo < hi {
        let mid = place_between(lo, hi, near, looks);
        looks /= 2;
        match bytes_values::order_bytes(file_bundle::name_in(s, mid), name) {
            Ordering::Less => {
                lo = mid + 1;
            }
            Ordering::Equal => {
                return Some(mid);
            }
            Ordering::Greater => {
                hi = mid;
            }
        }
    }
    None
}

// Writes v in twenty digits over the front of t, which holds twenty zeros.
fn write_digits(t: &mut [u8], v: u64)
    requires { (20 ≤ length t.old) × (take 20 t.old ≡ twenty 0) }
    ensures { t.new ≡ twenty v ++ drop 20 t.old }
{
    let mut left = v;
    for i in (0..DIGITS).rev() {
        if left == 0 {
            return;
        }
        t[i] = b'0' + (left % 10) as u8;
        left /= 10;
    }
}

// Where the file stands whose name is v in twenty digits and the ending that `name` has behind twenty zeros; there is none above the highest version.
fn numbered_file<const N: usize>(
    s: &[u8],
    mut name: [u8; N],
    v: Version,
    near: usize,
) -> Option<usize>
    requires { IsBundle s.now × (take 20 name ≡ twenty 0) }
    ensures above { most < v.0 → result ≡ None }
    ensures within { v.0 ≤ most → PlaceIs s.now (lookup title (twenty v.0 ++ drop 20 name.entry) (files_in s.now)) result }
{
    if MOST < v.0 {
        return None;
    }
    write_digits(&mut name, v.0);
    find(s, &name, near)
}

// Where the version file of v stands.
pub fn version_file(s: &[u8], v: Version, near: usize) -> Option<usize>
    requires { IsBundle s.now }
    ensures { PlaceIs s.now ((log_of (files_in s.now)).version_file v.0) result }
{
    numbered_file(s, *b"00000000000000000000.json", v, near)
}

// Where the checkpoint at v stands.
pub fn checkpoint_file(s: &[u8], v: Version, near: usize) -> Option<usize>
    requires { IsBundle s.now }
    ensures { PlaceIs s.now ((log_of (files_in s.now)).checkpoint_file v.0) result }
{
    numbered_file(s, *b"00000000000000000000.checkpoint.json", v, near)
}

// Where the marker stands.
pub fn marker_file(s: &[u8]) -> Option<usize>
    requires { IsBundle s.now }
    ensures { PlaceIs s.now (log_of (files_in s.now)).marker_file result }
{
    find(s, b"_last_checkpoint", count(s))
}
