// Bytes of lent texts, eight at a time: what two texts have in common, and how many bytes are plain characters.
#![tactic(auto)]

mod eights;

ghost use Rattle.std.specs.Prelude.{◌+◌, ◌≤◌, length};
ghost use Rattle.bytes_eights.specs.Alike.{Common};

use eights::{common_in, differ};
pub use eights::{non_digits, stops, word_at, zero_bytes};

// Of eight bytes.
fn common_eight(s: &[u8], i: usize, t: &[u8], j: usize) -> usize
    requires { (i + 8 ≤ length s.now) × (j + 8 ≤ length t.now) }
    ensures { Common s.now i t.now j 8 result }
{
    common_in(word_at(s, i), word_at(t, j))
}

// By single bytes.
fn common_few(s: &[u8], i: usize, t: &[u8], j: usize, room: usize) -> usize
    requires { (i + room ≤ length s.now) × (j + room ≤ length t.now) }
    ensures { Common s.now i t.now j room result }
{
    for n in 0..room {
        if s[i + n] != t[j + n] {
            return n;
        }
    }
    room
}

// By eights, of which the last may begin among those before.
fn common_long(s: &[u8], i: usize, t: &[u8], j: usize, room: usize) -> usize
    requires { (8 ≤ room) × (i + room ≤ length s.now) × (j + room ≤ length t.now) }
    ensures { Common s.now i t.now j room result }
{
    let last = room - 8;
    let mut n = 0;
    while n < last {
        let d = differ(word_at(s, i + n), word_at(t, j + n));
        if d != 0 {
            return n + zero_bytes(d);
        }
        n += 8;
    }
    last + common_eight(s, i + last, t, j + last)
}

// How many bytes the text s from i on and the text t from j on have in common, counted up to `room`.
pub fn common(s: &[u8], i: usize, t: &[u8], j: usize, room: usize) -> usize
    requires { (i + room ≤ length s.now) × (j + room ≤ length t.now) }
    ensures { Common s.now i t.now j room result }
{
    if room < 8 {
        return common_few(s, i, t, j, room);
    }
    common_long(s, i, t, j, room)
}
