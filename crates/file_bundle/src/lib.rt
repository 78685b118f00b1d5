// The bundle: which byte strings are well-formed, and of one that is, each file's name, body and modified time.
// Names and bodies are handed on as parts of the bundle; nothing is copied.
#![tactic(auto)]

mod sized;

ghost use Rattle.std.specs.Prelude.{◌≡◌, true, ◌+◌, ◌*◌, ◌≤◌, ◌<◌, length, drop, get_or};
ghost use Rattle.rules.specs.Bytes.{among, is_some};
ghost use Rattle.rules.specs.Numbers.{little};
ghost use Rattle.rules.specs.Bundle.{field, zeros, name_in, bundle as rule_bundle, IsBundle};
ghost use Rattle.rules.specs.Names.{name_of, is_too_large, any_too_large};
ghost use Rattle.file_names.specs.Names.{name_is};
ghost use Rattle.file_bundle.specs.Files.{files_in, file_in, name_size, first_two, left, left_fits};
ghost use Rattle.file_bundle.specs.Answers.{Passed, OpenedAs, EntryIs};

use file_names::{Millis, Name};

// The count's bytes, an entry's, and those of its name.
const COUNT: usize = 4;

const ENTRY: usize = 112;

const NAME: usize = 96;

// The most bytes, and the most entries, that a bundle may have.
const MOST_BYTES: usize = 1048576;

const MOST_ENTRIES: usize = 1024;

// ---- numbers, little-endian

fn byte_at(s: &[u8], i: usize) -> usize
    requires { i < length s.now }
    ensures { (result ≡ get_or s.now i 0) × (result < 256) }
{
    s[i] as usize
}

// The number in the four bytes from `at` on.
pub fn u32_at(s: &[u8], at: usize) -> usize
    requires { at + 4 ≤ length s.now }
    ensures { (result ≡ little (field at 4 s.now)) × (result < 4294967296) }
{
    let a = byte_at(s, at);
    let b = byte_at(s, at + 1);
    let c = byte_at(s, at + 2);
    let d = byte_at(s, at + 3);
    a + 256 * (b + 256 * (c + 256 * d))
}

// The number in the eight bytes from `at` on.
fn u64_at(s: &[u8], at: usize) -> u64
    requires { at + 8 ≤ length s.now }
    ensures { result ≡ little (field at 8 s.now) }
{
    let a = u32_at(s, at) as u64;
    let b = u32_at(s, at + 4) as u64;
    a + 4294967296 * b
}

// ---- a name and its padding

// Whether a name may have this byte.
fn visible(b: u8) -> bool
    ensures { result ≡ among 0x21 0x7E b }
{
    b.is_ascii_graphic()
}

// Passes zeros from place `at` on, eight at a time; there may be more of them.
fn skip_zeros(p: &[u8], at: usize) -> usize
    requires { at ≤ length p.now }
    ensures { (result ≤ length p.now) × (zeros (drop at p.now) ≡ zeros (drop result p.now)) }
{
    let mut i = at;
    while 8 <= p.len() - i {
        if bytes_eights::word_at(p, i) != 0 {
            return i;
        }
        i += 8;
    }
    i
}

// Whether p is zeros from place `at` on.
fn zeros_from(p: &[u8], at: usize) -> bool
    requires { at ≤ length p.now }
    ensures { result ≡ zeros (drop at p.now) }
{
    for i in skip_zeros(p, at)..p.len() {
        if p[i] != 0 {
            return false;
        }
    }
    true
}

// Whether p is a name of one byte at least, then zeros.
fn name_fits(p: &[u8]) -> bool
    requires { 1 ≤ length p.now }
    ensures { result ≡ is_some (name_in p.now) }
{
    if !visible(p[0]) {
        return false;
    }
    for i in 1..p.len() {
        if !visible(p[i]) {
            return zeros_from(p, i);
        }
    }
    true
}

// How many bytes p has before its first zero.
fn name_size(p: &[u8]) -> usize
    ensures { (result ≡ name_size p.now) × (result ≤ length p.now) }
{
    for i in sized::skip_filled(p)..p.len() {
        if p[i] == 0 {
            return i;
        }
    }
    p.len()
}

// ---- the entries, one after another

// Whether the name of entry k of n is less than the next one's, as 96 bytes; the last has no next.
fn ascends(s: &[u8], n: usize, k: usize) -> bool
    requires { (k < n) × (4 + 112 * n ≤ length s.now) }
    ensures { result ≡ first_two (left s.now n k) }
{
    if k + 1 == n {
        return true;
    }
    let a = COUNT + ENTRY * k;
    let a_end = a + NAME;
    let b = a + ENTRY;
    let b_end = b + NAME;
    bytes_values::order_bytes(&s[a..a_end], &s[b..b_end]).is_lt()
}

// Passes entry k of n, whose body is to start at `at`.
fn pass_entry(s: &[u8], n: usize, k: usize, at: usize) -> Option<usize>
    requires { (k < n) × (4 + 112 * n ≤ length s.now) × (at ≤ length s.now) }
    ensures { Passed s.now n k at result }
{
    let e = COUNT + ENTRY * k;
    let e_start = e + NAME;
    if !name_fits(&s[e..e_start]) {
        return None;
    }
    if !ascends(s, n, k) {
        return None;
    }
    if u32_at(s, e_start) != at {
        return None;
    }
    let size = u32_at(s, e_start + 4);
    if s.len() - at < size {
        return None;
    }
    Some(at + size)
}

// Whether n entries and their bodies fill the bundle.
fn filled(s: &[u8], n: usize) -> bool
    requires { 4 + 112 * n ≤ length s.now }
    ensures { result ≡ left_fits s.now n 0 (4 + 112 * n) }
{
    let mut at = COUNT + ENTRY * n;
    for k in 0..n {
        let Some(next) = pass_entry(s, n, k, at) else {
            return false;
        };
        at = next;
    }
    at == s.len()
}

// How many files the bundle s has, where it is well-formed.
pub fn open(s: &[u8]) -> Option<usize>
    ensures { OpenedAs (rule_bundle s.now) result }
{
    if s.len() < COUNT {
        return None;
    }
    if MOST_BYTES < s.len() {
        return None;
    }
    let n = u32_at(s, 0);
    if MOST_ENTRIES < n {
        return None;
    }
    if s.len() < COUNT + ENTRY * n {
        return None;
    }
    if filled(s, n) {
        return Some(n);
    }
    None
}

// ---- the files of a well-formed bundle

// An entry of the contents: the length of its name, and the start and length of its body.
#[derive(Clone, Copy)]
pub struct Entry {
    pub name: usize,
    pub start: usize,
    pub size: usize,
    pub time: Millis,
}

// Entry k of the bundle s.
pub fn entry_at(s: &[u8], k: usize) -> Entry
    requires { k < length (files_in s.now) }
    ensures { EntryIs s.now (file_in s.now k) k result }
{
    let e = COUNT + ENTRY * k;
    let e_start = e + NAME;
    let name = name_size(&s[e..e_start]);
    let start = u32_at(s, e_start);
    let size = u32_at(s, e_start + 4);
    let time = u64_at(s, e_start + 8);
    Entry {
        name,
        start,
        size,
        time: Millis(time),
    }
}

// The name of file k, as a part of the bundle.
pub fn name_in<'a>(s: &'a [u8], k: usize) -> &'a [u8]
    requires { k < length (files_in s.now) }
    ensures { result.now ≡ (file_in s.now k).name }
{
    let a = COUNT + ENTRY * k;
    let a_end = a + NAME;
    let b = a + name_size(&s[a..a_end]);
    &s[a..b]
}

// The body of file k, as a part of the bundle.
pub fn body_in<'a>(s: &'a [u8], k: usize) -> &'a [u8]
    requires { k < length (files_in s.now) }
    ensures { result.now ≡ (file_in s.now k).body }
{
    let e_start = COUNT + ENTRY * k + NAME;
    let a = u32_at(s, e_start);
    let b = a + u32_at(s, e_start + 4);
    &s[a..b]
}

// What the name of file k says.
pub fn kind(s: &[u8], k: usize) -> Name
    requires { k < length (files_in s.now) }
    ensures { result ≡ name_is (name_of (file_in s.now k).name) }
{
    file_names::name_of(name_in(s, k))
}

// Whether the version in the name of file k is too large.
fn too_large(s: &[u8], k: usize) -> bool
    requires { k < length (files_in s.now) }
    ensures { result ≡ is_too_large (name_of (file_in s.now k).name) }
{
    if file_names::begins_low(name_in(s, k)) {
        return false; // as in most names
    }
    matches!(kind(s, k), Name::TooLarge)
}

// Whether the version in some name of the well-formed bundle s is too large.
pub fn any_too_large(s: &[u8]) -> bool
    requires { IsBundle s.now }
    ensures { result ≡ any_too_large (files_in s.now) }
{
    (0..u32_at(s, 0)).any(|k| too_large(s, k))
}
