// The start from which a version is read, the marker, and the latest version, in a well-formed bundle.
#![tactic(auto)]

ghost use Rattle.std.specs.Prelude.{◌≡◌, true, ◌-◌, ◌≤◌};
ghost use Rattle.rules.specs.Numbers.{most};
ghost use Rattle.rules.specs.Bundle.{IsBundle};
ghost use Rattle.rules.specs.Starts.{log_of, start_at, way_to, other_way_to, is_start};
ghost use Rattle.rules.specs.Marker.{marker_version, marked as rule_marked, climb as rule_climb, latest as rule_latest};
ghost use Rattle.file_bundle.specs.Files.{files_in};
ghost use Rattle.log_files.specs.Logs.{PlaceIs};
ghost use Rattle.field_scalars.specs.Inside.{Inside};
ghost use Rattle.log_starts.specs.Marks.{format_in, fits, named_by, mark_is};
ghost use Rattle.log_starts.specs.Ways.{StartIs, passing};

use bytes_values::MOST;
use field_names::Kind;
use field_objects::Slot;
use file_names::Version;
use line_actions::IN_LINE;

// ---- the marker's text

// Whether a format is missing, null or "json".
fn format_fits(t: &[u8], slot: Slot) -> bool
    requires { Inside t.now slot }
    ensures { result ≡ fits (format_in t.now slot) }
{
    match field_scalars::optional_in(t, slot) {
        None => false,
        Some(None) => true,
        Some(Some((v, e))) => match field_scalars::string_at(t, v, e) {
            Some((p, _)) => json_strings::string_is(t, p, b"json"),
            None => false,
        },
    }
}

// The version of a marker with this text.
pub fn marker_version(t: &[u8]) -> Option<u64>
    ensures { result ≡ marker_version t.now }
{
    let f = field_objects::object_of(t, Kind::Marker, IN_LINE)?;
    let version = f.slots[0];
    let parts = f.slots[1];
    let format = f.slots[2];
    if parts.seen != 0 {
        return None;
    }
    if format_fits(t, format) {
        return field_scalars::whole_in(t, version);
    }
    None
}

// ---- starts

// Whether a checkpoint with this body is a start: every line of it is well formed, and one of them says the metadata.
pub fn is_start(body: &[u8]) -> bool
    ensures { result ≡ is_start body.now }
{
    let mut from = 0;
    let mut told = false;
    while from < body.len() {
        let end = file_lines::line_end(body, from, body.len());
        if from < end {
            match line_actions::speaks(&body[from..end]) {
                None => return false,
                Some(table) => told |= table,
            }
        }
        from = end + 1;
    }
    told
}

// Where the checkpoint at v stands, if it is a start.
pub fn start_at(s: &[u8], v: Version, near: usize) -> Option<usize>
    requires { IsBundle s.now }
    ensures { PlaceIs s.now (start_at (log_of (files_in s.now)) v.0) result }
{
    let k = log_files::checkpoint_file(s, v, near)?;
    if is_start(file_bundle::body_in(s, k)) {
        return Some(k);
    }
    None
}

// From where a version is read: from version file 0, from the checkpoint of entry k at a version, or from nowhere.
#[derive(Clone, Copy)]
pub enum Start {
    Zero,
    Checkpoint(usize, Version),
}

// The highest start that reaches v, on equal versions the checkpoint.
pub fn start_for(s: &[u8], v: Version, near: usize) -> Option<Start>
    requires { IsBundle s.now }
    ensures { StartIs s.now v.0 (way_to (log_of (files_in s.now)) v.0) result }
{
    let mut w = v.0;
    let mut place = near;
    loop {
        if let Some(k) = start_at(s, Version(w), place) {
            return Some(Start::Checkpoint(k, Version(w)));
        }
        if w == 0 {
            return Some(Start::Zero);
        }
        let k = log_files::version_file(s, Version(w), place)?;
        w -= 1;
        place = k.saturating_sub(1);
    }
}

// The highest start that reaches c, other than the checkpoint at c.
pub fn other_start_for(s: &[u8], c: Version) -> Option<Start>
    requires { IsBundle s.now }
    ensures { StartIs s.now c.0 (other_way_to (log_of (files_in s.now)) c.0) result }
{
    if c.0 == 0 {
        return Some(Start::Zero);
    }
    let k = log_files::version_file(s, c, 0)?;
    start_for(s, Version(c.0 - 1), k)
}

// Whether the way to v goes through version n: no start is above n, and no version file is missing from there up to v.
pub fn passes(s: &[u8], n: Version, v: Version, near: usize) -> bool
    requires { IsBundle s.now × (n.0 ≤ v.0) }
    ensures { result ≡ passing (log_of (files_in s.now)) n.0 (v.0 - n.0) }
{
    let mut place = near;
    for w in (n.0..v.0).rev() {
        let above = Version(w + 1);
        if start_at(s, above, place).is_some() {
            return false;
        }
        let Some(k) = log_files::version_file(s, above, place) else {
            return false;
        };
        place = k.saturating_sub(1);
    }
    true
}

// ---- the latest version

// The version that the marker's text names, whatever stands there.
pub fn named(s: &[u8]) -> Option<u64>
    requires { IsBundle s.now }
    ensures { result ≡ named_by (log_of (files_in s.now)) }
{
    let m = log_files::marker_file(s)?;
    marker_version(file_bundle::body_in(s, m))
}

// What the marker of the log names.
pub fn marked(s: &[u8]) -> Option<Version>
    requires { IsBundle s.now }
    ensures { result ≡ mark_is (rule_marked (log_of (files_in s.now))) }
{
    let n = named(s)?;
    start_at(s, Version(n), 0)?;
    Some(Version(n))
}

// Up from v as far as there is no gap.
pub fn climb(s: &[u8], v: Version, near: usize) -> Version
    requires { IsBundle s.now }
    ensures { result.0 ≡ rule_climb most (log_of (files_in s.now)) v.0 }
{
    let mut place = near;
    for w in v.0..MOST {
        let Some(k) = log_files::version_file(s, Version(w + 1), place) else {
            return Version(w);
        };
        place = k + 1;
    }
    Version(v.0.max(MOST)) // no version is above MOST
}

// The latest version: up from what the marker names, or from version 0.
pub fn latest(s: &[u8]) -> Version
    requires { IsBundle s.now }
    ensures { result.0 ≡ rule_latest (log_of (files_in s.now)) }
{
    match marked(s) {
        Some(v) => climb(s, v, 0),
        None => climb(s, Version(0), 0),
    }
}
