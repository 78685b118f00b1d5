// Which live files are due for a second merge: by the numbers of their rows alone.
ghost use Rattle.std.specs.Prelude.{◌≡◌};
ghost use Rattle.row_table.specs.Table.{Room};
ghost use Rattle.query_picking.specs.Picked.{due_row, Dues};

use row_table::Cells;

// Whether the file of a row is due at the time: skipped before, and to be tried again not later.
fn is_due(c: Cells, time: u64) -> bool
    ensures { result ≡ due_row time c }
{
    if c.skips > 0 {
        return c.retry <= time;
    }
    false
}

// Moves the rows of the files that are due at the time to the front, in order. Answers how many they are; what else stands in the n rows
// may be anything.
pub fn pick_due(t: &mut [u64], n: usize, time: u64) -> usize
    requires { Room n t.old }
    ensures { Dues time n t.old result t.new }
{
    let mut m = 0;
    for k in 0..n {
        let c = row_table::row_at(t, k);
        if is_due(c, time) {
            row_table::set_row(t, m, c);
            m += 1;
        }
    }
    m
}
