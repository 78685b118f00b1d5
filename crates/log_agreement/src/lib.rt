// Whether two states agree, as the cleaner tests it: the metadata and the protocols in force, and the live files row by row, each by the
// facts in the line of its add.
#![tactic(auto)]

mod features;
mod partitions;
mod tables;

ghost use Rattle.std.specs.Prelude.{◌≡◌, map, ◌+◌};
ghost use Rattle.facts.specs.Parts.{part};
ghost use Rattle.rules.specs.Actions.{Facts};
ghost use Rattle.rules.specs.Agreement.{agree_records, agree_facts, agree_row, agree_rows, agree as rule_agree};
ghost use Rattle.line_actions.specs.Line.{AddIs};
ghost use Rattle.row_table.specs.Table.{rows};
ghost use Rattle.row_live.specs.Live.{place_of};
ghost use Rattle.log_replay.specs.Views.{facts_at, row_of, state_of, Stands};
ghost use Rattle.log_agreement.specs.Held.{Held, HeldRows};
ghost use Rattle.log_agreement.specs.Stating.{Adding};

use features::same_protocols;
use field_containers::Usual;
use line_actions::Added;
use log_replay::State;
use partitions::same_pairs;
use row_table::Cells;
use tables::same_tables;

// ---- one file

// Whether two adds state the same number of records: null is as missing.
fn same_records(a: Option<u64>, b: Option<u64>) -> bool
    ensures { result ≡ agree_records a b }
{
    a == b
}

// Whether the adds x of the line s and y of the line t state the same facts.
fn same_adds(s: &[u8], x: Added, t: &[u8], y: Added) -> bool
    requires { Adding s.now x × Adding t.now y }
    ensures { (f g : Facts) → AddIs s.now f x → AddIs t.now g y → result ≡ agree_facts f g }
{
    let numbers = x.size == y.size && x.time == y.time;
    numbers
        && same_records(x.records, y.records)
        && json_strings::same_strings(s, x.path, t, y.path)
        && same_pairs(s, x.values, t, y.values)
}

// The add of a row's line.
fn add_of(src: &[u8], c: Cells) -> Added
    requires { Stands src.now c }
    ensures { AddIs (part src.now (place_of c) (place_of c + c.len)) (facts_at src.now c) result }
{
    let at = (c.head % row_live::PLACES) as usize;
    let end = at + c.len as usize;
    let usual = Usual {
        end: 0,
        second: 0,
        close: 0,
    };
    let none = Added {
        path: 0,
        end: 0,
        size: 0,
        time: 0,
        records: None,
        values: 0,
        usual,
    };
    match line_actions::add_of(&src[at..end]) {
        Some(a) => a,
        None => none, // never: the line of a row is an add
    }
}

// Whether the files of two rows have the same facts.
fn same_facts(src: &[u8], c: Cells, d: Cells) -> bool
    requires { Stands src.now c × Stands src.now d }
    ensures { result ≡ agree_facts (facts_at src.now c) (facts_at src.now d) }
{
    let x = add_of(src, c);
    let y = add_of(src, d);
    let at = (c.head % row_live::PLACES) as usize;
    let end = at + c.len as usize;
    let from = (d.head % row_live::PLACES) as usize;
    let to = from + d.len as usize;
    same_adds(&src[at..end], x, &src[from..to], y)
}

// Whether two rows are of files with the same facts, of which the same was said since.
fn same_files(src: &[u8], c: Cells, d: Cells) -> bool
    requires { Stands src.now c × Stands src.now d }
    ensures { result ≡ agree_row (row_of src.now c) (row_of src.now d) }
{
    let skips = c.skips == d.skips && c.retry == d.retry;
    skips && same_facts(src, c, d)
}

// ---- all files

// Whether the first n rows of two tables are of the same files, one after the other.
fn same_rows(src: &[u8], ta: &[u64], tb: &[u64], n: usize) -> bool
    requires { HeldRows src.now n ta.now × HeldRows src.now n tb.now }
    ensures { result ≡ agree_rows (map (row_of src.now) (rows n ta.now)) (map (row_of src.now) (rows n tb.now)) }
{
    for k in 0..n {
        let c = row_table::row_at(ta, k);
        let d = row_table::row_at(tb, k);
        if !same_files(src, c, d) {
            return false;
        }
    }
    true
}

// Whether the state a with the table ta agrees with the state b with the table tb.
pub fn agree(src: &[u8], a: State, ta: &[u64], b: State, tb: &[u64]) -> bool
    requires { Held src.now a ta.now × Held src.now b tb.now }
    ensures { result ≡ rule_agree (state_of src.now a ta.now) (state_of src.now b tb.now) }
{
    let n = a.live;
    let here = a.base * row_table::ROW;
    let there = b.base * row_table::ROW;
    n == b.live
        && same_tables(src, a.table, b.table)
        && same_protocols(src, a.protocol, b.protocol)
        && same_rows(src, &ta[here..], &tb[there..], n)
}
