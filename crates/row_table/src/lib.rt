// A table of rows in a lent slice: six numbers a row, the rows one after another from the front. What the numbers mean,
// and how many rows are in use, is the callers' affair.
#![tactic(auto)]

mod windows;

ghost use Rattle.std.specs.Prelude.{ℕ, ◌+◌, ◌-◌, ◌≤◌, ◌<◌, ◌≡◌};
ghost use Rattle.facts.specs.Rows.{insert_at, remove_at};
ghost use Rattle.row_table.specs.Table.{Room, rows, row_at, Changed, Stored, Copied};

pub use windows::{put_in, settle, take_away};

// How many numbers a row has.
pub const ROW: usize = 6;

// A row: its numbers, in the order in which they lie.
#[derive(Clone, Copy)]
pub struct Cells {
    pub head: u64,
    pub len: u64,
    pub size: u64,
    pub time: u64,
    pub skips: u64,
    pub retry: u64,
}

// Row k of a table, counted from 0.
pub fn row_at(t: &[u64], k: usize) -> Cells
    requires { Room (k + 1) t.now }
    ensures { (n : ℕ) → k < n → result ≡ row_at (rows n t.now) k }
{
    let at = k * ROW;
    Cells {
        head: t[at],
        len: t[at + 1],
        size: t[at + 2],
        time: t[at + 3],
        skips: t[at + 4],
        retry: t[at + 5],
    }
}

// Writes c over row k; all else stays.
pub fn set_row(t: &mut [u64], k: usize, c: Cells)
    requires { Room (k + 1) t.old }
    ensures { Stored k c t.old t.new }
{
    let at = k * ROW;
    t[at] = c.head;
    t[at + 1] = c.len;
    t[at + 2] = c.size;
    t[at + 3] = c.time;
    t[at + 4] = c.skips;
    t[at + 5] = c.retry;
}

// Writes row `from` over row `to`; all else stays.
fn copy_row(t: &mut [u64], from: usize, to: usize)
    requires { Room (from + 1) t.old × Room (to + 1) t.old }
    ensures { Copied from to t.old t.new }
{
    let c = row_at(t, from);
    set_row(t, to, c);
}

// Makes c row k of a table of n rows, which then has one more: the rows from k on move up, the last first, four a turn as long as there are.
pub fn insert_row(t: &mut [u64], n: usize, k: usize, c: Cells)
    requires { (k ≤ n) × Room (n + 1) t.old }
    ensures { Changed (n + 1) (insert_at k c (rows n t.old)) (n + 1) t.old t.new }
{
    let mut j = n;
    while 4 <= j - k {
        copy_row(t, j - 1, j);
        copy_row(t, j - 2, j - 1);
        copy_row(t, j - 3, j - 2);
        copy_row(t, j - 4, j - 3);
        j -= 4;
    }
    for i in (k..j).rev() {
        copy_row(t, i, i + 1);
    }
    set_row(t, k, c);
}

// Takes row k out of a table of n rows, which then has one less: the rows behind it move down, the first first, four a turn
// as long as there are.
pub fn remove_row(t: &mut [u64], n: usize, k: usize)
    requires { (k < n) × Room n t.old }
    ensures { Changed (n - 1) (remove_at k (rows n t.old)) n t.old t.new }
{
    let last = n - 1;
    let mut j = k;
    while 4 <= last - j {
        copy_row(t, j + 1, j);
        copy_row(t, j + 2, j + 1);
        copy_row(t, j + 3, j + 2);
        copy_row(t, j + 4, j + 3);
        j += 4;
    }
    for i in j..last {
        copy_row(t, i + 1, i);
    }
}
