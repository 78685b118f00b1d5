// Which live files a query picks: each by the partition values in the line of its add. And which are due for a second merge.
#![tactic(auto)]

mod columns;
mod due;

ghost use Rattle.std.specs.Prelude.{◌≡◌, ◌&&◌};
ghost use Rattle.facts.specs.Lists.{All};
ghost use Rattle.rules.specs.Actions.{Facts, Pairs};
ghost use Rattle.rules.specs.Picking.{value_at, meets_value, meets_all, out_of, any_out_of};
ghost use Rattle.field_containers.specs.Nested.{Pairing, Paired};
ghost use Rattle.query_conditions.specs.Conditions.{condition_of, Sound};
ghost use Rattle.query_conditions.specs.Reading.{conditions_of, Sounds};
ghost use Rattle.query_comparisons.specs.Judging.{judged_is};
ghost use Rattle.row_table.specs.Table.{Room, rows};
ghost use Rattle.log_replay.specs.Views.{facts_at, Stands};
ghost use Rattle.query_picking.specs.Picked.{PickedBy};

pub use columns::all_columns;
pub use due::pick_due;
use field_containers::IN_FIELD;
use query_comparisons::OutOfRange;
use query_conditions::{As, Condition, Query};
use row_table::Cells;

// `at` is just after the brace of a file's partition values. What the condition c of the query q says of them.
fn judge_one(line: &[u8], at: usize, q: &[u8], c: Condition) -> Result<bool, OutOfRange>
    requires { Paired line.now at × Sound q.now c }
    ensures { (ps : Pairs) → Pairing line.now at ps
        → result
        ≡ judged_is (out_of (condition_of q.now c) (value_at (condition_of q.now c).column ps))
        (meets_value (condition_of q.now c) (value_at (condition_of q.now c).column ps)) }
{
    let column = c.column;
    let Some((v, e)) = field_objects::find_name(line, at, IN_FIELD, q, column) else {
        return Ok(false); // a missing value meets none
    };
    let Some((p, _)) = field_scalars::string_at(line, v, e) else {
        return Ok(false); // null meets none
    };
    query_comparisons::judge_at(q, c, line, p)
}

// The same after other conditions, of which `met` says whether they are met. Once one is not, a text is not looked up:
// it is never out of range.
fn judge_next(line: &[u8], at: usize, q: &[u8], c: Condition, met: bool) -> Result<bool, OutOfRange>
    requires { Paired line.now at × Sound q.now c }
    ensures { (ps : Pairs) → Pairing line.now at ps
        → result
        ≡ judged_is (out_of (condition_of q.now c) (value_at (condition_of q.now c).column ps))
        (met && meets_value (condition_of q.now c) (value_at (condition_of q.now c).column ps)) }
{
    if met {
        return judge_one(line, at, q, c);
    }
    let kind = c.kind;
    match kind {
        As::Text => Ok(false),
        As::Number => {
            judge_one(line, at, q, c)?;
            Ok(false)
        }
    }
}

// What the first `count` conditions say of them: all are looked at, whether one is unmet or not, for a value out of range.
fn judge_each(
    line: &[u8],
    at: usize,
    q: &[u8],
    conditions: [Condition; 8],
    count: usize,
) -> Result<bool, OutOfRange>
    requires { Paired line.now at × Sounds q.now count conditions }
    ensures { (f : Facts) → Pairing line.now at f.partition_values
        → result ≡ judged_is (any_out_of (conditions_of q.now count conditions) f) (meets_all (conditions_of q.now count conditions) f) }
{
    let mut met = true;
    for k in 0..count {
        met = judge_next(line, at, q, conditions[k], met)?;
    }
    Ok(met)
}

// What the query says of the file of a row: it is picked where all conditions are met.
pub fn judge_row(src: &[u8], c: Cells, q: &[u8], asked: Query) -> Result<bool, OutOfRange>
    requires { Stands src.now c × Sounds q.now asked.count asked.conditions }
    ensures { result
        ≡ judged_is (any_out_of (conditions_of q.now asked.count asked.conditions) (facts_at src.now c))
        (meets_all (conditions_of q.now asked.count asked.conditions) (facts_at src.now c)) }
{
    let at = (c.head % row_live::PLACES) as usize;
    let end = at + c.len as usize;
    let conditions = asked.conditions;
    match line_actions::add_of(&src[at..end]) {
        Some(a) => judge_each(&src[at..end], a.values, q, conditions, asked.count),
        None => Ok(false), // never: the line of a row is an add
    }
}

// Moves the rows of the picked files to the front, in order, each row judged.
fn move_picked(
    src: &[u8],
    t: &mut [u64],
    n: usize,
    q: &[u8],
    asked: Query,
) -> Result<usize, OutOfRange>
    requires { Room n t.old × All (Stands src.now) (rows n t.old) × Sounds q.now asked.count asked.conditions }
    ensures { PickedBy src.now (conditions_of q.now asked.count asked.conditions) n t.old t.new result }
{
    let mut m = 0;
    for k in 0..n {
        let c = row_table::row_at(t, k);
        let picked = judge_row(src, c, q, asked)?;
        if picked {
            row_table::set_row(t, m, c);
            m += 1;
        }
    }
    Ok(m)
}

// Moves the rows of the picked files to the front, in order. Answers how many they are; what else stands in the n rows may be anything.
// Where a file has a value out of range, what stands in the n rows may be anything.
pub fn pick(
    src: &[u8],
    t: &mut [u64],
    n: usize,
    q: &[u8],
    asked: Query,
) -> Result<usize, OutOfRange>
    requires { Room n t.old × All (Stands src.now) (rows n t.old) × Sounds q.now asked.count asked.conditions }
    ensures { PickedBy src.now (conditions_of q.now asked.count asked.conditions) n t.old t.new result }
{
    if asked.count == 0 {
        return Ok(n); // no condition: every file is picked, and no line has to be read again
    }
    move_picked(src, t, n, q, asked)
}
