// The state of a log at its latest version. The checkpoint that the marker names is read once: that its lines are read to the end and say
// the metadata shows that it is a start, and what they give is where the version files behind it go on from.
ghost use Rattle.std.specs.Prelude.{◌≡◌};
ghost use Rattle.rules.specs.Bundle.{IsBundle};
ghost use Rattle.rules.specs.Live.{most_live};
ghost use Rattle.row_table.specs.Table.{Room};
ghost use Rattle.log_history.specs.Answers.{Begun, MarkedIs, LatestIs};

use crate::history;
use file_names::Version;
use log_replay::State;
use refusals::Refusal;
use rooms::MOST_LIVE;

// The latest version, and the state there or a refusal.
#[derive(Clone, Copy)]
pub struct Latest {
    pub version: Version,
    pub reached: Result<State, Refusal>,
}

// By the start that a search from the latest version downward finds.
fn by_search(src: &[u8], t: &mut [u64]) -> Latest
    requires { IsBundle src.now × Room most_live t.old }
    ensures { LatestIs src.now t.old t.new result }
{
    let version = log_starts::latest(src);
    let reached = history::state_at(src, version, t);
    Latest { version, reached }
}

// From the checkpoint of entry k at version n, which gave st, unless a higher start reaches the latest version.
fn from_checkpoint(src: &[u8], k: usize, n: Version, st: State, t: &mut [u64]) -> Latest
    requires { IsBundle src.now × Begun src.now k n.0 st t.old }
    ensures { LatestIs src.now t.old t.new result }
{
    let version = log_starts::climb(src, n, k);
    if log_starts::passes(src, n, version, k) {
        let reached = history::onward(src, st, n, version, k, t, MOST_LIVE);
        return Latest { version, reached };
    }
    let reached = history::state_at(src, version, t);
    Latest { version, reached }
}

// Reads version 0, and then the checkpoint that the marker names.
fn read_marked(src: &[u8], t: &mut [u64]) -> Option<(usize, Version, State)>
    requires { IsBundle src.now × Room most_live t.old }
    ensures { MarkedIs src.now t.old t.new result }
{
    let n = log_starts::named(src)?;
    let k = log_files::checkpoint_file(src, Version(n), 0)?;
    let f = log_files::version_file(src, Version(0), 0)?;
    let Ok(z) = log_replay::read_zero(src, f) else {
        return None;
    };
    let empty = log_replay::nothing_live(z);
    let Ok(st) = log_replay::read_file(src, k, empty, t, MOST_LIVE, false) else {
        return None;
    };
    if st.table.size == 0 {
        return None; // it is no start
    }
    Some((k, Version(n), st))
}

// The latest version of the well-formed bundle src, and the state there, read into the table t; or refusal 4, 5, 6, 21 or 7.
pub fn state_at_latest(src: &[u8], t: &mut [u64]) -> Latest
    requires { IsBundle src.now × Room most_live t.old }
    ensures { LatestIs src.now t.old t.new result }
{
    // `read_marked` returns before the rest is read, which goes deepest: the rest needs no more stack for it
    match read_marked(src, t) {
        Some((k, n, st)) => from_checkpoint(src, k, n, st, t),
        None => by_search(src, t),
    }
}
