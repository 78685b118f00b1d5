// The three entries of reading: the files of a table at a version, or at the latest, that a query picks, as rows in a lent room; and those of
// the latest that are due for a second merge.
#![tactic(auto)]

ghost use Rattle.std.specs.Prelude.{◌≡◌};
ghost use Rattle.rules.specs.Bundle.{IsBundle};
ghost use Rattle.rules.specs.Live.{most_live};
ghost use Rattle.rules.specs.Starts.{log_of};
ghost use Rattle.rules.specs.Marker.{latest as rule_latest};
ghost use Rattle.rules.specs.Refusals.{refused};
ghost use Rattle.rules.specs.Reading.{the_latest, the_version, listing, listing_at};
ghost use Rattle.file_bundle.specs.Files.{files_in};
ghost use Rattle.refusals.specs.Numbered.{numbered};
ghost use Rattle.row_table.specs.Table.{Room};
ghost use Rattle.query_conditions.specs.Reading.{conditions_of, Sounds};
ghost use Rattle.log_replay.specs.Views.{state_of, Carries};
ghost use Rattle.log_gate.specs.Judged.{Passes};
ghost use Rattle.reading.specs.Answers.{asked_is, answering, AnswerIs, ReadIs, DueIs};

use file_names::{Millis, Version};
use log_gate::Numbers;
use log_replay::State;
use query_conditions::Query;
use refusals::Refusal;
use rooms::ROWS_ROOM;

// ---- what is answered

// The version, how many rows are in the room, the numbers of the protocol, and whether the table is writable.
#[derive(Clone, Copy)]
pub struct Listing {
    pub version: Version,
    pub rows: usize,
    pub reader: u64,
    pub writer: u64,
    pub writable: bool,
}

// ---- from the state at a version

// A refusal that leaves zeros.
fn refuse(t: &mut [u64], x: Refusal) -> Result<Listing, Refusal>
    requires { Room most_live t.old × ((numbered x).number ≡ 1 → ⊥) }
    ensures { AnswerIs (refused (numbered x)) t.old t.new result }
{
    rooms::zero(t, 0, ROWS_ROOM);
    Err(x)
}

// What the state st at version v answers, where the gate passed its protocol with the numbers n.
fn list_picked(
    src: &[u8],
    q: &[u8],
    asked: Query,
    v: Version,
    st: State,
    n: Numbers,
    t: &mut [u64],
) -> Result<Listing, Refusal>
    requires { Carries src.now most_live st t.old × Sounds q.now asked.count asked.conditions
        × Passes (state_of src.now st t.old).in_force n }
    ensures { AnswerIs
        (listing (conditions_of q.now asked.count asked.conditions) v.0 (state_of src.now st t.old))
        t.old
        t.new
        result }
{
    let columns = st.table;
    let base = st.base;
    let live = st.live;
    if query_picking::all_columns(src, columns, q, asked) {
        row_table::settle(t, base, live);
        return match query_picking::pick(src, t, live, q, asked) {
            Ok(picked) => {
                row_live::bare(t, picked);
                let end = picked * row_table::ROW;
                rooms::zero(t, end, ROWS_ROOM);
                let listed = Listing {
                    version: v,
                    rows: picked,
                    reader: n.reader,
                    writer: n.writer,
                    writable: n.writable,
                };
                Ok(listed)
            }
            Err(_) => refuse(t, Refusal::ValueOutOfRange),
        };
    }
    refuse(t, Refusal::NoSuchColumn)
}

// What the state st at version v answers.
fn list_state(
    src: &[u8],
    q: &[u8],
    asked: Query,
    v: Version,
    st: State,
    t: &mut [u64],
) -> Result<Listing, Refusal>
    requires { Carries src.now most_live st t.old × Sounds q.now asked.count asked.conditions }
    ensures { AnswerIs
        (listing (conditions_of q.now asked.count asked.conditions) v.0 (state_of src.now st t.old))
        t.old
        t.new
        result }
{
    let protocol = st.protocol;
    match log_gate::judge(src, protocol) {
        Ok(n) => list_picked(src, q, asked, v, st, n, t),
        Err(unreadable) => refuse(t, unreadable),
    }
}

// ---- from a bundle

// What the well-formed bundle src answers at version v.
fn list_at(
    src: &[u8],
    q: &[u8],
    asked: Query,
    v: Version,
    t: &mut [u64],
) -> Result<Listing, Refusal>
    requires { IsBundle src.now × Room most_live t.old × Sounds q.now asked.count asked.conditions }
    ensures { AnswerIs
        (listing_at (conditions_of q.now asked.count asked.conditions) (log_of (files_in src.now)) v.0)
        t.old
        t.new
        result }
{
    match log_history::state_at(src, v, t) {
        Ok(st) => list_state(src, q, asked, v, st, t),
        Err(x) => refuse(t, x),
    }
}

// What the well-formed bundle src answers at its latest version.
fn list_latest(src: &[u8], q: &[u8], asked: Query, t: &mut [u64]) -> Result<Listing, Refusal>
    requires { IsBundle src.now × Room most_live t.old × Sounds q.now asked.count asked.conditions }
    ensures { AnswerIs
        (listing_at (conditions_of q.now asked.count asked.conditions) (log_of (files_in src.now))
        (rule_latest (log_of (files_in src.now))))
        t.old
        t.new
        result }
{
    let newest = log_history::state_at_latest(src, t);
    let version = newest.version;
    let reached = newest.reached;
    match reached {
        Ok(st) => list_state(src, q, asked, version, st, t),
        Err(x) => refuse(t, x),
    }
}

// What the well-formed bundle src answers at the version that is asked for.
fn list_asked(
    src: &[u8],
    q: &[u8],
    asked: Query,
    version: Option<Version>,
    t: &mut [u64],
) -> Result<Listing, Refusal>
    requires { IsBundle src.now × Room most_live t.old × Sounds q.now asked.count asked.conditions }
    ensures { AnswerIs
        (answering (conditions_of q.now asked.count asked.conditions) (files_in src.now) (asked_is version))
        t.old
        t.new
        result }
{
    if file_bundle::any_too_large(src) {
        return refuse(t, Refusal::VersionTooLarge);
    }
    match version {
        None => list_latest(src, q, asked, t),
        Some(v) => list_at(src, q, asked, v, t),
    }
}

// ---- the entries

// The refusals in the paper's order: the room, the query, the bundle, then what its files say.
fn read_asked(
    src: &[u8],
    q: &[u8],
    version: Option<Version>,
    rows: &mut [u64],
) -> Result<Listing, Refusal>
    ensures { ReadIs src.now q.now (asked_is version) rows.old rows.new result }
{
    if rows.len() < ROWS_ROOM {
        return Err(Refusal::RoomTooShort);
    }
    let Some(asked) = query_conditions::read(q) else {
        return refuse(rows, Refusal::QueryMalformed);
    };
    let Some(_) = file_bundle::open(src) else {
        return refuse(rows, Refusal::BundleMalformed);
    };
    list_asked(src, q, asked, version, rows)
}

// The files that the query q picks at version v of the bundle src, as rows in a room of at least 6,144 numbers; the rest of the
// 6,144 are zero, and any beyond stay.
pub fn read_at(src: &[u8], q: &[u8], v: Version, rows: &mut [u64]) -> Result<Listing, Refusal>
    ensures { ReadIs src.now q.now (the_version v.0) rows.old rows.new result }
{
    read_asked(src, q, Some(v), rows)
}

// The same at the latest version of the bundle.
pub fn read_latest(src: &[u8], q: &[u8], rows: &mut [u64]) -> Result<Listing, Refusal>
    ensures { ReadIs src.now q.now the_latest rows.old rows.new result }
{
    read_asked(src, q, None, rows)
}

// The files of the latest version that are due for a second merge at a time: skipped before, and to be tried again not later. All files are
// listed, then those that are not due go.
pub fn read_due(src: &[u8], time: Millis, rows: &mut [u64]) -> Result<Listing, Refusal>
    ensures { DueIs src.now time.0 rows.old rows.new result }
{
    let all = read_latest(src, b"[]", rows)?;
    let version = all.version;
    let due = query_picking::pick_due(rows, all.rows, time.0);
    let end = due * row_table::ROW;
    rooms::zero(rows, end, ROWS_ROOM);
    Ok(Listing {
        version,
        rows: due,
        reader: all.reader,
        writer: all.writer,
        writable: all.writable,
    })
}
