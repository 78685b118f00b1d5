// Rows that stand somewhere in a room, with free ones before and behind them: where one is put in or taken out, the shorter side moves.
ghost use Rattle.std.specs.Prelude.{◌≡◌, true, false, ◌+◌, ◌-◌, ◌≤◌, ◌<◌};
ghost use Rattle.facts.specs.Rows.{insert_at, remove_at};
ghost use Rattle.row_table.specs.Table.{Room, rows, behind, Changed, Stood};

use crate::{Cells, copy_row, insert_row, remove_row, row_at, set_row};

// Whether the rows before row k move, to make room for it: where there is a free one
// before them, and they are fewer than those behind or no free one is left there.
fn goes_left(base: usize, n: usize, k: usize, limit: usize) -> bool
    requires { (k ≤ n) × (n < limit) × (base + n ≤ limit) }
    ensures { (result ≡ true → 0 < base) × (result ≡ false → base + n < limit) }
{
    if base == 0 {
        return false;
    }
    if base + n < limit {
        return k < n - k;
    }
    true
}

// Makes c row k of the n rows that stand behind `base` others, in a room of `limit` rows. Answers behind how many they stand then.
pub fn put_in(t: &mut [u64], base: usize, n: usize, k: usize, limit: usize, c: Cells) -> usize
    requires { (k ≤ n) × (n < limit) × (base + n ≤ limit) × Room limit t.old }
    ensures { Stood result (n + 1) (insert_at k c (rows n (behind base t.old))) limit t.old t.new }
{
    let place = base + k;
    if goes_left(base, n, k, limit) {
        remove_row(t, place, base - 1);
        set_row(t, place - 1, c);
        return base - 1;
    }
    insert_row(t, base + n, place, c);
    base
}

// Takes row k out of the n rows that stand behind `base` others. Answers behind how many the rest stand.
pub fn take_away(t: &mut [u64], base: usize, n: usize, k: usize, limit: usize) -> usize
    requires { (k < n) × (base + n ≤ limit) × Room limit t.old }
    ensures { Stood result (n - 1) (remove_at k (rows n (behind base t.old))) limit t.old t.new }
{
    let place = base + k;
    if n - k <= k {
        remove_row(t, base + n, place);
        return base;
    }
    let first = row_at(t, base);
    insert_row(t, place, base, first);
    base + 1
}

// Moves the n rows that stand behind `base` others to the front, the first first.
pub fn settle(t: &mut [u64], base: usize, n: usize)
    requires { Room (base + n) t.old }
    ensures { Changed n (rows n (behind base t.old)) (base + n) t.old t.new }
{
    for k in 0..n {
        copy_row(t, base + k, k);
    }
}
