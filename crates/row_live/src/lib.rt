// The live table: the live files as rows in a lent slice, in the order of the bytes that their paths stand for, found by halving.
#![tactic(auto)]

ghost use Rattle.std.specs.Prelude.{ℕ, ◌+◌, ◌≤◌, ◌<◌, map, drop};
ghost use Rattle.rules.specs.Live.{put, take_out, change};
ghost use Rattle.json_strings.specs.Decoded.{decoded, WellSpelled};
ghost use Rattle.row_table.specs.Table.{Room, rows, behind, Changed};
ghost use Rattle.row_live.specs.Live.{places, path_at, key, Packed, Table, Finds, Became, marked, bared};

use row_table::Cells;
use std::cmp::Ordering;

// Positions in a bundle are below this.
pub const PLACES: u64 = 2_097_152;

// The head of a row while a log is read: where its line stands in the bundle, and where its path is spelled.
pub fn pack(place: usize, path: usize) -> u64
    requires { (place < places) × (path < places) }
    ensures { Packed place path result }
{
    (place as u64) + (path as u64) * PLACES
}

// Where among the n rows the path stands that is spelled in src behind `path`, or would stand. Each look halves what is left.
pub fn find(src: &[u8], t: &[u64], n: usize, path: usize) -> Result<usize, usize>
    requires { Table src.now n t.now × WellSpelled src.now path }
    ensures { Finds src.now (decoded (drop path src.now)) n t.now result }
{
    // Handed on anew, so that the compiler keeps it in registers here.
    let end = json_strings::raw_end(&src[0..], path);
    let mut lo = 0;
    let mut hi = n;
    while lo < hi {
        let mid = lo + (hi - lo) / 2;
        let c = row_table::row_at(t, mid);
        let at = (c.head / PLACES) as usize;
        match json_strings::order_raw(src, at, src, path, end) {
            Ordering::Less => {
                lo = mid + 1;
            }
            Ordering::Equal => {
                return Ok(mid);
            }
            Ordering::Greater => {
                hi = mid;
            }
        }
    }
    Err(lo)
}

// Where the rows of a table stand in their room: how many free ones stand before them, and how many they are.
#[derive(Clone, Copy)]
pub struct Standing {
    pub base: usize,
    pub live: usize,
}

// Puts the row c into the table of n rows behind `base` others, in place of the row with the same path if there is one.
// Answers where the rows stand then, in a room of `limit` rows.
pub fn store(src: &[u8], t: &mut [u64], base: usize, n: usize, limit: usize, c: Cells) -> Standing
    requires { Table src.now n (behind base t.old) × WellSpelled src.now (path_at c) × (n < limit) × (base + n ≤ limit) × Room limit t.old }
    ensures { Became
        src.now
        (put (key src.now) c (rows n (behind base t.old)))
        limit
        t.old
        result
        t.new }
{
    let path = (c.head / PLACES) as usize;
    let from = base * row_table::ROW;
    match find(src, &t[from..], n, path) {
        Ok(k) => {
            row_table::set_row(t, base + k, c);
            Standing { base, live: n }
        }
        Err(k) => {
            let before = row_table::put_in(t, base, n, k, limit, c);
            Standing {
                base: before,
                live: n + 1,
            }
        }
    }
}

// Takes the row out whose path is spelled in src behind `path`, if there is one. Answers where the rows stand then.
pub fn take_out(
    src: &[u8],
    t: &mut [u64],
    base: usize,
    n: usize,
    limit: usize,
    path: usize,
) -> Standing
    requires { Table src.now n (behind base t.old) × WellSpelled src.now path × (base + n ≤ limit) × Room limit t.old }
    ensures { Became
        src.now
        (take_out (key src.now) (decoded (drop path src.now)) (rows n (behind base t.old)))
        limit
        t.old
        result
        t.new }
{
    let from = base * row_table::ROW;
    match find(src, &t[from..], n, path) {
        Ok(k) => {
            let before = row_table::take_away(t, base, n, k, limit);
            Standing {
                base: before,
                live: n - 1,
            }
        }
        Err(_) => Standing { base, live: n },
    }
}

// Writes how often its file was skipped, and when it may be tried again, into the row whose path is spelled in src behind `path`, if there is one.
pub fn mark(src: &[u8], t: &mut [u64], base: usize, n: usize, path: usize, skips: u64, retry: u64)
    requires { Table src.now n (behind base t.old) × WellSpelled src.now path × Room (base + n) t.old }
    ensures { (limit : ℕ) → base + n ≤ limit → Room limit t.old → Became
        src.now
        (change (key src.now) (decoded (drop path src.now)) (marked skips retry) (rows n (behind base t.old)))
        limit
        t.old
        (record { base = base; live = n })
        t.new }
{
    let from = base * row_table::ROW;
    match find(src, &t[from..], n, path) {
        Ok(k) => {
            let at = base + k;
            let was = row_table::row_at(t, at);
            let c = Cells {
                skips,
                retry,
                ..was
            };
            row_table::set_row(t, at, c);
        }
        Err(_) => {}
    }
}

// The last pass: the head of each of the n rows becomes the position of its line alone.
pub fn bare(t: &mut [u64], n: usize)
    requires { Room n t.old }
    ensures { Changed n (map bared (rows n t.old)) n t.old t.new }
{
    for k in 0..n {
        let at = k * row_table::ROW;
        t[at] %= PLACES;
    }
}
