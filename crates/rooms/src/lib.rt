// The rooms that an entry is lent: how long each is at least, what fits in it, and zeros.
#![tactic(auto)]

ghost use Rattle.std.specs.Prelude.{◌≡◌, ◌≤◌, length};
ghost use Rattle.facts.specs.Moves.{zeroed};

// The least length of a room for rows, in numbers.
pub const ROWS_ROOM: usize = 6144;

// The least length of a room for the entries that are named.
pub const NAMES_ROOM: usize = 1024;

// The least length of a room for the numbers of manifests.
pub const KEPT_ROOM: usize = 256;

// The most files that may be live after a line: so many rows fit in their room.
pub const MOST_LIVE: usize = 1024;

// The most manifests that a state manifest may have.
pub const MOST_MANIFESTS: usize = 256;

// Writes zeros from place `from` up to place `to`; all else stays.
pub fn zero(t: &mut [u64], from: usize, to: usize)
    requires { (from ≤ to) × (to ≤ length t.old) }
    ensures { t.new ≡ zeroed from to t.old }
{
    t[from..to].fill(0);
}

// The same in numbers of 32 bits.
pub fn zero_u32(t: &mut [u32], from: usize, to: usize)
    requires { (from ≤ to) × (to ≤ length t.old) }
    ensures { t.new ≡ zeroed from to t.old }
{
    t[from..to].fill(0u32);
}
