// The state of a log at a version: version 0 is read first, then the start that reaches the version, then the version files
// behind it, one after the other.
ghost use Rattle.std.specs.Prelude.{◌<◌, length};
ghost use Rattle.rules.specs.Bundle.{IsBundle};
ghost use Rattle.rules.specs.Live.{most_live};
ghost use Rattle.rules.specs.Starts.{log_of, way_to};
ghost use Rattle.rules.specs.Reading.{state_by};
ghost use Rattle.file_bundle.specs.Files.{files_in, file_in};
ghost use Rattle.row_table.specs.Table.{Room};
ghost use Rattle.log_replay.specs.Views.{Carries};
ghost use Rattle.log_replay.specs.Answers.{OutcomeIs};
ghost use Rattle.log_history.specs.Ends.{Reaches, GoesOn, OnwardIs, FollowIs, ReadIs};

use file_names::Version;
use log_replay::State;
use log_starts::Start;
use refusals::Refusal;
use rooms::MOST_LIVE;

// ---- from a start

// Reads the version files behind version s up to that of v, all of which are there, the first of them near the place `near`.
pub fn onward(
    src: &[u8],
    st: State,
    s: Version,
    v: Version,
    near: usize,
    t: &mut [u64],
    limit: usize,
) -> Result<State, Refusal>
    requires { IsBundle src.now × Carries src.now limit st t.old × GoesOn src.now s.0 v.0 }
    ensures { OnwardIs src.now limit s.0 v.0 st t.old t.new result }
{
    let mut state = st;
    let mut place = near;
    for w in s.0..v.0 {
        let Some(k) = log_files::version_file(src, Version(w + 1), place) else {
            return Ok(state); // never: they are all there
        };
        state = log_replay::read_file(src, k, state, t, limit, true)?;
        place = k + 1;
    }
    Ok(state)
}

// The state at the end of the way from `start` to version v, read into the table t from what version 0 gave.
pub fn follow(
    src: &[u8],
    z: State,
    start: Start,
    v: Version,
    t: &mut [u64],
    limit: usize,
) -> Result<State, Refusal>
    requires { IsBundle src.now × Carries src.now limit z t.old × Reaches src.now v.0 start }
    ensures { FollowIs src.now limit v.0 z start t.old t.new result }
{
    match start {
        Start::Zero => onward(src, z, Version(0), v, 0, t, limit),
        Start::Checkpoint(k, s) => {
            let empty = log_replay::nothing_live(z);
            let st = log_replay::read_file(src, k, empty, t, limit, false)?;
            onward(src, st, s, v, k, t, limit)
        }
    }
}

// ---- at a version

// Reads file k as version 0, and then the way from `start` to version v.
fn from_zero(
    src: &[u8],
    k: usize,
    start: Start,
    v: Version,
    t: &mut [u64],
) -> Result<State, Refusal>
    requires { IsBundle src.now × Room most_live t.old × (k < length (files_in src.now)) × Reaches src.now v.0 start }
    ensures { ReadIs src.now (file_in src.now k) v.0 start t.old t.new result }
{
    let z = log_replay::read_zero(src, k)?;
    follow(src, z, start, v, t, MOST_LIVE)
}

// The state at version v, read into the table t by way of the highest start that reaches it; or refusal 4, 5, 6, 21 or 7, after which the
// first rows of the table may hold anything.
pub fn state_at(src: &[u8], v: Version, t: &mut [u64]) -> Result<State, Refusal>
    requires { IsBundle src.now × Room most_live t.old }
    ensures { OutcomeIs
        src.now
        most_live
        (state_by (log_of (files_in src.now)) (way_to (log_of (files_in src.now)) v.0))
        t.old
        t.new
        result }
{
    let zero = log_files::version_file(src, Version(0), 0).ok_or(Refusal::NoVersionZero)?;
    let start = log_starts::start_for(src, v, 0).ok_or(Refusal::NotKept)?;
    from_zero(src, zero, start, v, t)
}
