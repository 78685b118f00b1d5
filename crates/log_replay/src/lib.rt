// The lines of a log's files, applied in order to a lent table of live rows. Beside the table a state is carried by the
// places of lines in the bundle, and of the columns in the metaData's: nothing is copied.
#![tactic(auto)]

mod begin;

ghost use Rattle.std.specs.Prelude.{◌≡◌, ◌+◌, ◌≤◌, ◌<◌, length, Some};
ghost use Rattle.rules.specs.Actions.{Facts, add, action};
ghost use Rattle.rules.specs.History.{read_file, fits as rule_fits};
ghost use Rattle.json_strings.specs.Decoded.{WellSpelled};
ghost use Rattle.file_bundle.specs.Files.{files_in, file_in};
ghost use Rattle.row_table.specs.Table.{Room, behind};
ghost use Rattle.row_live.specs.Live.{path_at, Table};
ghost use Rattle.field_containers.specs.Nested.{UsualIs, Pairing, Paired};
ghost use Rattle.line_actions.specs.Line.{ActionIs};
ghost use Rattle.line_actions.specs.declared.line.Action.TheVariants.{Add};
ghost use Rattle.log_replay.specs.Views.{Lies, table_at, or_no_table, Inside, TableSaid, state_of, Carries};
ghost use Rattle.log_replay.specs.Answers.{origin, body_as, PutIs, LineIs, OutcomeIs};

pub use begin::{nothing_live, read_zero};
use field_containers::Usual;
use line_actions::{Action, Added};
use refusals::Refusal;
use row_live::Standing;
use row_table::Cells;

// A line of the bundle; of size 0 where there is none.
#[derive(Clone, Copy)]
pub struct Span {
    pub at: usize,
    pub size: usize,
}

// What a log says so far: the lines of the metaData and the protocol in force, where the strings of the partition columns begin in the
// first (behind the bracket), and how many rows of the table are live, behind so many that are free.
#[derive(Clone, Copy)]
pub struct State {
    pub table: Span,
    pub columns: usize,
    pub protocol: Span,
    pub base: usize,
    pub live: usize,
}

// ---- one line

// Puts the row c into the table of n rows behind `base` others, in place of the row with the same path if there is one, unless it makes
// more than `limit`.
fn put_row(
    src: &[u8],
    t: &mut [u64],
    base: usize,
    n: usize,
    limit: usize,
    c: Cells,
) -> Option<Standing>
    requires { Table src.now n (behind base t.old) × WellSpelled src.now (path_at c) × (base + n ≤ limit) × Room limit t.old }
    ensures { PutIs src.now c base n limit t.old t.new result }
{
    if n < limit {
        return Some(row_live::store(src, t, base, n, limit, c));
    }
    let path = (c.head / row_live::PLACES) as usize;
    let from = base * row_table::ROW;
    match row_live::find(src, &t[from..], n, path) {
        Ok(k) => {
            row_table::set_row(t, base + k, c);
            Some(Standing { base, live: n })
        }
        Err(_) => None,
    }
}

// Whether an add may stand where it is. Where adds are held, its partition keys, which begin at `values` of its line and stand as `usual`
// tells, are the partition columns in force: they are listed from `columns` on in the line of the metaData, and where there is none there
// are no columns.
fn fits(
    src: &[u8],
    line: &[u8],
    values: usize,
    usual: Usual,
    table: Span,
    columns: usize,
    held: bool,
) -> bool
    requires paired { Paired line.now values × UsualIs line.now values usual × Inside src.now table }
    requires table_said { 0 < table.size → TableSaid src.now table columns }
    ensures { (f : Facts) → Pairing line.now values f.partition_values
        → result ≡ rule_fits (origin held) (add f) (or_no_table (table_at src.now table)) }
{
    if held {
        if table.size == 0 {
            return field_containers::keys_fit(line, values, b"]", 0);
        }
        let from = table.at;
        let to = from + table.size;
        if field_containers::usual_fit(line, values, usual, &src[from..to], columns) {
            return true;
        }
        return field_containers::keys_fit(line, values, &src[from..to], columns);
    }
    true
}

// Applies line number `number` of entry number `entry`, which stands in the bundle at `from` and is the add a.
fn apply_add(
    src: &[u8],
    line: &[u8],
    from: usize,
    entry: usize,
    number: usize,
    a: Added,
    st: State,
    t: &mut [u64],
    limit: usize,
    held: bool,
) -> Result<State, Refusal>
    requires carries { Carries src.now limit st t.old × Lies src.now from line.now × (0 < length line.now) }
    requires action_is { ActionIs (action line.now) line.now (Some (Add a)) }
    ensures { LineIs src.now limit held from line.now entry number st t.old t.new result }
{
    let head = row_live::pack(from, from + a.path);
    let c = Cells {
        head,
        len: line.len() as u64,
        size: a.size,
        time: a.time,
        skips: 0,
        retry: 0,
    };
    if !fits(src, line, a.values, a.usual, st.table, st.columns, held) {
        return Err(Refusal::ForeignKeys(entry, number));
    }
    let r = put_row(src, t, st.base, st.live, limit, c).ok_or(Refusal::TooManyLive(entry, number))?;
    Ok(State {
        base: r.base,
        live: r.live,
        ..st
    })
}

// Applies line number `number` of entry number `entry`, which is not empty and stands in the bundle at `from`; its add is held to the
// partition columns in force, or not. Refused, it changes nothing in the table.
pub fn apply(
    src: &[u8],
    line: &[u8],
    from: usize,
    entry: usize,
    number: usize,
    st: State,
    t: &mut [u64],
    limit: usize,
    held: bool,
) -> Result<State, Refusal>
    requires { Carries src.now limit st t.old × Lies src.now from line.now × (0 < length line.now) }
    ensures { LineIs src.now limit held from line.now entry number st t.old t.new result }
{
    let here = Span {
        at: from,
        size: line.len(),
    };
    match line_actions::classify(line) {
        Some(Action::Add(a)) => apply_add(src, line, from, entry, number, a, st, t, limit, held),
        Some(Action::Remove(p)) => {
            let r = row_live::take_out(src, t, st.base, st.live, limit, from + p);
            Ok(State {
                base: r.base,
                live: r.live,
                ..st
            })
        }
        Some(Action::Protocol(_)) => Ok(State {
            protocol: here,
            ..st
        }),
        Some(Action::MetaData(m)) => Ok(State {
            table: here,
            columns: m.columns,
            ..st
        }),
        Some(Action::Mergeskip(k)) => {
            row_live::mark(src, t, st.base, st.live, from + k.path, k.count, k.retry);
            Ok(st)
        }
        Some(Action::Other) => Ok(st),
        None => Err(Refusal::Malformed(entry, number)),
    }
}

// ---- one file

// Reads the lines of the body of entry number `entry`, which stands in the bundle at `from`. A fault that is met at the body's end is
// that of line number 0. After a refusal the first `limit` rows of the table may hold anything. Adds are held to the partition columns in
// force, or not.
pub fn read_lines(
    src: &[u8],
    body: &[u8],
    from: usize,
    entry: usize,
    st: State,
    t: &mut [u64],
    limit: usize,
    held: bool,
) -> Result<State, Refusal>
    requires { Carries src.now limit st t.old × Lies src.now from body.now }
    ensures { OutcomeIs
        src.now
        limit
        (read_file limit (origin held) (body_as entry from body.now) (state_of src.now st t.old))
        t.old
        t.new
        result }
{
    let mut at = 0;
    let mut state = st;
    let mut met = false;
    let mut line = 1;
    while at < body.len() {
        let end = file_lines::line_end(body, at, body.len());
        let next = end + 1;
        if at < end {
            state = apply(
                src,
                &body[at..end],
                from + at,
                entry,
                line,
                state,
                t,
                limit,
                held,
            )?;
            met = true;
        }
        at = next;
        line += 1; // an empty line has a number all the same
    }
    if met {
        return Ok(state);
    }
    Err(Refusal::Malformed(entry, 0))
}

// Reads file k of the bundle: a version file, whose adds are held to the partition columns in force, or a checkpoint, whose adds are not.
pub fn read_file(
    src: &[u8],
    k: usize,
    st: State,
    t: &mut [u64],
    limit: usize,
    held: bool,
) -> Result<State, Refusal>
    requires { Carries src.now limit st t.old × (k < length (files_in src.now)) }
    ensures { OutcomeIs
        src.now
        limit
        (read_file limit (origin held) (file_in src.now k) (state_of src.now st t.old))
        t.old
        t.new
        result }
{
    let e = file_bundle::entry_at(src, k);
    let from = e.start;
    let to = from + e.size;
    read_lines(src, &src[from..to], from, k, st, t, limit, held)
}
