// Whether the version files before the marker's checkpoint may go: the checkpoint is read into one table, the way of the
// highest other start into another, and the two states are compared.
ghost use Rattle.std.specs.Prelude.{◌≡◌, true, ◌<◌, length, Some};
ghost use Rattle.rules.specs.Bundle.{IsBundle};
ghost use Rattle.rules.specs.Live.{most_live};
ghost use Rattle.rules.specs.Starts.{log_of, start_at};
ghost use Rattle.file_bundle.specs.Files.{files_in};
ghost use Rattle.log_files.specs.Logs.{PlaceIs};
ghost use Rattle.row_table.specs.Table.{Room};
ghost use Rattle.log_replay.specs.Views.{state_of, Carries};
ghost use Rattle.log_replay.specs.Answers.{Left};
ghost use Rattle.log_history.specs.Ends.{Reaches};
ghost use Rattle.cleaning.specs.Ruled.{weighing, ComparedIs, WithIs, CompareIs, ruled_at, ruled, RulingIs};

use file_names::Version;
use log_replay::State;
use log_starts::Start;
use refusals::Refusal;
use rooms::MOST_LIVE;

// ---- two states

// Weighs the checkpoint's state, in table one, against the other start's, in table two.
fn weigh(src: &[u8], mine: State, one: &[u64], theirs: State, two: &[u64]) -> Result<(), Refusal>
    requires { Carries src.now most_live mine one.now × Carries src.now most_live theirs two.now }
    ensures { ComparedIs (weighing (state_of src.now mine one.now) (state_of src.now theirs two.now)) result }
{
    let protocol = mine.protocol;
    let same = log_agreement::agree(src, mine, one, theirs, two);
    let n = log_gate::judge(src, protocol)?;
    if !n.writable {
        return Err(Refusal::NotWritable);
    }
    if !same {
        return Err(Refusal::CheckpointDisagrees);
    }
    Ok(())
}

// Reads the other start's way to c into table two, where version 0 gave z, and weighs the checkpoint's state, in table one, against it.
fn compare_with(
    src: &[u8],
    z: State,
    start: Start,
    c: Version,
    mine: State,
    one: &[u64],
    two: &mut [u64],
) -> Result<(), Refusal>
    requires { IsBundle src.now × Carries src.now most_live z two.old × Reaches src.now c.0 start × Carries src.now most_live mine one.now }
    ensures { WithIs src.now z start c.0 mine one.now two.old two.new result }
{
    let theirs = log_history::follow(src, z, start, c, two, MOST_LIVE)?;
    weigh(src, mine, one, theirs, two)
}

// Reads version 0, which is file `zero`, into no table, then the checkpoint at c, which is file k, into table one, then the way from
// `start` to c into table two, and compares.
fn compare(
    src: &[u8],
    zero: usize,
    k: usize,
    start: Start,
    c: Version,
    one: &mut [u64],
    two: &mut [u64],
) -> Result<(), Refusal>
    requires { IsBundle src.now × (zero < length (files_in src.now)) × (k < length (files_in src.now)) × Reaches src.now c.0 start
        × Room most_live one.old × Room most_live two.old }
    ensures { CompareIs src.now zero k start c.0 result × Left most_live one.old one.new
        × Left most_live two.old two.new }
{
    let z = log_replay::read_zero(src, zero)?;
    let empty = log_replay::nothing_live(z);
    let mine = log_replay::read_file(src, k, empty, one, MOST_LIVE, false)?;
    compare_with(src, z, start, c, mine, one, two)
}

// ---- the ruling

// The ruling where version 0 is file `zero`, and the marker's checkpoint at c is file k.
fn rule_at(
    src: &[u8],
    zero: usize,
    k: usize,
    c: Version,
    one: &mut [u64],
    two: &mut [u64],
) -> Result<Option<Version>, Refusal>
    requires { IsBundle src.now × (zero < length (files_in src.now)) × PlaceIs src.now (start_at (log_of (files_in src.now)) c.0) (Some k)
        × Room most_live one.old × Room most_live two.old }
    ensures { RulingIs src.now (ruled_at src.now zero c.0) result × Left most_live one.old one.new
        × Left most_live two.old two.new }
{
    let Some(other) = log_starts::other_start_for(src, c) else {
        return Ok(None);
    };
    compare(src, zero, k, other, c, one, two)?;
    Ok(Some(c))
}

// The ruling on a bundle: refusals 2 to 4; nothing where no marker is usable; then as above.
pub fn rule(src: &[u8], one: &mut [u64], two: &mut [u64]) -> Result<Option<Version>, Refusal>
    requires { Room most_live one.old × Room most_live two.old }
    ensures { RulingIs src.now (ruled src.now) result × Left most_live one.old one.new
        × Left most_live two.old two.new }
{
    let Some(_) = file_bundle::open(src) else {
        return Err(Refusal::BundleMalformed);
    };
    if file_bundle::any_too_large(src) {
        return Err(Refusal::VersionTooLarge);
    }
    let Some(zero) = log_files::version_file(src, Version(0), 0) else {
        return Err(Refusal::NoVersionZero);
    };
    let Some(c) = log_starts::marked(src) else {
        return Ok(None);
    };
    let Some(k) = log_starts::start_at(src, c, 0) else {
        return Ok(None); // never: the marker is usable
    };
    rule_at(src, zero, k, c, one, two)
}
