// The cleaner: which version files may go, once the checkpoint that the marker names agrees with the history behind it.
#![tactic(auto)]

mod comparing;

ghost use Rattle.std.specs.Prelude.{◌≡◌, ◌&&◌, ◌≤◌, ◌<◌, ltb, length};
ghost use Rattle.rules.specs.Bundle.{IsBundle};
ghost use Rattle.rules.specs.Cleaning.{is_old, may_go, named};
ghost use Rattle.file_bundle.specs.Files.{files_in, file_in};
ghost use Rattle.cleaning.specs.Naming.{Naming};
ghost use Rattle.cleaning.specs.Answers.{CleanIs};

use comparing::rule;
use file_names::{Millis, Name, Version};
use refusals::Refusal;
use rooms::{NAMES_ROOM, ROWS_ROOM};

// ---- the files that may go

// Whether version w is behind version 0 and before c.
fn is_between(w: Version, c: Version) -> bool
    ensures { result ≡ (ltb 0 w.0 && ltb w.0 c.0) }
{
    if 0 < w.0 {
        return w.0 < c.0;
    }
    false
}

// Whether what was modified then is older today than the retention.
fn is_old(today: Millis, retention: Millis, modified: Millis) -> bool
    ensures { result ≡ is_old today.0 retention.0 modified.0 }
{
    if today.0 < modified.0 {
        return false;
    }
    retention.0 < today.0 - modified.0
}

// Whether file k is a version file before c that may go.
fn may_go(src: &[u8], k: usize, c: Version, today: Millis, retention: Millis) -> bool
    requires { k < length (files_in src.now) }
    ensures { result ≡ may_go c.0 today.0 retention.0 (file_in src.now k) }
{
    let e = file_bundle::entry_at(src, k);
    match file_bundle::kind(src, k) {
        Name::VersionFile(w) => {
            if is_between(w, c) {
                let modified = e.time;
                return is_old(today, retention, modified);
            }
            false
        }
        Name::Checkpoint(_) => false,
        Name::Marker => false,
        Name::Other => false,
        Name::TooLarge => false,
    }
}

// The numbers of the files before c that may go, ascending, in front of the room. Answers how many there are.
fn name_old(src: &[u8], c: Version, today: Millis, retention: Millis, names: &mut [u32]) -> usize
    requires { IsBundle src.now × (1024 ≤ length names.old) }
    ensures { Naming (named c.0 today.0 retention.0 (files_in src.now)) names.old names.new result }
{
    let count = log_files::count(src);
    let mut n = 0;
    for k in 0..count {
        if may_go(src, k, c, today, retention) {
            names[n] = k as u32;
            n += 1;
        }
    }
    n
}

// ---- the entry

// The numbers, from 0 and ascending, of the entries that may go, into a room of at least 1,024; the rest of the 1,024 are
// zero, and any beyond stay. Of the two lent tables, of at least 6,144 each, the first 6,144 are zero at the end.
pub fn clean(
    src: &[u8],
    today: Millis,
    retention: Millis,
    names: &mut [u32],
    one: &mut [u64],
    two: &mut [u64],
) -> Result<usize, Refusal>
    ensures { CleanIs
        src.now
        today.0
        retention.0
        names.old
        names.new
        one.old
        one.new
        two.old
        two.new
        result }
{
    if names.len() < NAMES_ROOM {
        return Err(Refusal::RoomTooShort);
    }
    if one.len() < ROWS_ROOM {
        return Err(Refusal::RoomTooShort);
    }
    if two.len() < ROWS_ROOM {
        return Err(Refusal::RoomTooShort);
    }
    let ruling = rule(src, one, two);
    rooms::zero(one, 0, ROWS_ROOM);
    rooms::zero(two, 0, ROWS_ROOM);
    match ruling {
        Ok(before) => match before {
            Some(c) => {
                let n = name_old(src, c, today, retention, names);
                rooms::zero_u32(names, n, NAMES_ROOM);
                Ok(n)
            }
            None => {
                rooms::zero_u32(names, 0, NAMES_ROOM);
                Ok(0)
            }
        },
        Err(x) => {
            rooms::zero_u32(names, 0, NAMES_ROOM);
            Err(x)
        }
    }
}
