// Whether the conditions of a query are on partition columns of the table.
ghost use Rattle.std.specs.Prelude.{◌≡◌, List, ◌≤◌, length};
ghost use Rattle.rules.specs.Bytes.{Bytes, all_among};
ghost use Rattle.field_containers.specs.Strung.{Listed, IsList};
ghost use Rattle.query_conditions.specs.Reading.{columns_of, Sounds};
ghost use Rattle.log_replay.specs.Views.{table_at, or_no_table, Inside};

use log_replay::Span;
use query_conditions::{Condition, Query};

// `at` is just after the bracket of the partition columns. Whether the columns of the first n conditions are all among them.
fn all_held(line: &[u8], at: usize, q: &[u8], conditions: [Condition; 8], n: usize) -> bool
    requires { (at ≤ length line.now) × IsList line.now at × Sounds q.now n conditions }
    ensures { (names : List Bytes) → Listed line.now at names → result ≡ all_among names (columns_of q.now n conditions) }
{
    for k in 0..n {
        let c = conditions[k];
        let column = c.column;
        if !field_containers::holds_string(line, at, q, column) {
            return false;
        }
    }
    true
}

// Whether the columns of the first n conditions are all partition columns of the
// metaData whose line stands at `at`; where that line is none, there are no columns.
fn columns_at(src: &[u8], at: Span, q: &[u8], conditions: [Condition; 8], n: usize) -> bool
    requires { Inside src.now at × Sounds q.now n conditions }
    ensures { result ≡ all_among (or_no_table (table_at src.now at)).partition_columns (columns_of q.now n conditions) }
{
    let from = at.at;
    let to = from + at.size;
    match line_actions::table_of(&src[from..to]) {
        Some(x) => all_held(&src[from..to], x.columns, q, conditions, n),
        None => n == 0,
    }
}

// Whether every condition of the query is on a partition column of the metaData whose line stands at `at`.
pub fn all_columns(src: &[u8], at: Span, q: &[u8], asked: Query) -> bool
    requires { Inside src.now at × Sounds q.now asked.count asked.conditions }
    ensures { result
        ≡ all_among (or_no_table (table_at src.now at)).partition_columns (columns_of q.now asked.count asked.conditions) }
{
    let conditions = asked.conditions;
    columns_at(src, at, q, conditions, asked.count)
}
