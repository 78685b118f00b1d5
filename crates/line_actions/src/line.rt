// A line: its one member, and the action that the member states.
ghost use Rattle.std.specs.Prelude.{◌≡◌, ◌≤◌, ◌<◌, length, drop};
ghost use Rattle.rules.specs.Actions.{action};
ghost use Rattle.line_actions.specs.Begun.{ends, kind_at, Braced, Begun, KeyedIs, FoundIs, Lined};
ghost use Rattle.line_actions.specs.Line.{ActionIs};

use crate::acts::{add_in, mergeskip_in, meta_data_in, protocol_in, remove_in};
use field_containers::Usual;
use field_names::Kind;
use field_objects::Fields;
use json_tokens::{CLOSE_BRACE, OPEN_BRACE};
use json_values::Tail;

// How deep values may nest inside of a line's object, or of the marker's.
pub const IN_LINE: usize = 31;

// How deep values may nest inside of an action.
const IN_ACTION: usize = 30;

// The places of the keys among the names of a line.
const ADD: usize = 0;

const REMOVE: usize = 1;

const PROTOCOL: usize = 2;

const META_DATA: usize = 3;

const MERGESKIP: usize = 4;

// An add: where its path is spelled in the line (behind the opening quote, and at the closing one), its numbers,
// where the members of its partition values begin (behind the brace), and where their names stand.
#[derive(Clone, Copy)]
pub struct Added {
    pub path: usize,
    pub end: usize,
    pub size: u64,
    pub time: u64,
    pub records: Option<u64>,
    pub values: usize,
    pub usual: Usual,
}

// A protocol: its numbers, whether its features are all known to readers and to writers, and where the strings of its
// features begin (behind the bracket; 0 where none are stated).
#[derive(Clone, Copy)]
pub struct Stated {
    pub reader: u64,
    pub writer: u64,
    pub reader_known: bool,
    pub writer_known: bool,
    pub reader_features: usize,
    pub writer_features: usize,
}

// A metaData: where its id is spelled (behind the opening quote), and where the strings of its partition columns begin (behind the bracket).
#[derive(Clone, Copy)]
pub struct Tabled {
    pub id: usize,
    pub columns: usize,
}

// A mergeskip: where its path is spelled (behind the opening quote), how often the file was skipped, and when it may be tried again.
#[derive(Clone, Copy)]
pub struct Skipped {
    pub path: usize,
    pub count: u64,
    pub retry: u64,
}

// What a line says. A remove by the position behind the opening quote of its path.
#[derive(Clone, Copy)]
pub enum Action {
    Add(Added),
    Remove(usize),
    Protocol(Stated),
    MetaData(Tabled),
    Mergeskip(Skipped),
    Other,
}

// ---- the line

// The key of the member that begins at j, and where its value begins.
fn key_at(line: &[u8], j: usize) -> Option<(usize, usize)>
    requires { Braced line.now j }
    ensures { KeyedIs line.now result }
{
    let n = field_names::read_name(line, j)?;
    let end = n.end;
    let v = json_values::skip_colon(line, end)?;
    let k = field_names::which(line, n, Kind::Line);
    Some((k, v))
}

// The line up to the value of its first member, where it begins as most lines do, with no white space; none is also answered where it begins
// otherwise.
fn usual_head(line: &[u8]) -> Option<(usize, usize)>
    ensures { FoundIs line.now result }
{
    if json_tokens::skip_word(line, 0, b"{\"add\":{").is_some() {
        return Some((ADD, 7));
    }
    if json_tokens::skip_word(line, 0, b"{\"remove\":{").is_some() {
        return Some((REMOVE, 10));
    }
    None
}

// The line up to the value of its first member, however it begins.
fn any_head(line: &[u8]) -> Option<(usize, usize)>
    ensures { KeyedIs line.now result }
{
    let first = json_tokens::skip_ws(line, 0);
    let i = json_tokens::skip_byte(line, first, OPEN_BRACE)?;
    match json_values::opening(line, i, CLOSE_BRACE) {
        Tail::More(j) => key_at(line, j),
        _ => None,
    }
}

// The line up to the value of its first member.
fn head(line: &[u8]) -> Option<(usize, usize)>
    ensures { KeyedIs line.now result }
{
    usual_head(line).or_else(|| any_head(line))
}

// Whether the line ends behind the value that ends at `at`.
fn line_ends(line: &[u8], at: usize) -> bool
    requires { at ≤ length line.now }
    ensures { result ≡ ends (drop at line.now) }
{
    match json_values::closing(line, at, CLOSE_BRACE) {
        Tail::Closed(i) => line.len() <= json_tokens::skip_ws(line, i),
        _ => false,
    }
}

// ---- its value

// The kind of the object under the key of place k.
fn kind_at(k: usize) -> Kind
    ensures { result ≡ kind_at k }
{
    if k == ADD {
        return Kind::Add;
    }
    if k == REMOVE {
        return Kind::Remove;
    }
    if k == PROTOCOL {
        return Kind::Protocol;
    }
    if k == META_DATA {
        return Kind::MetaData;
    }
    Kind::Mergeskip
}

// The action of the key of place k by the fields of its object.
fn action_in(line: &[u8], k: usize, f: Fields) -> Option<Action>
    requires { (k ≤ 4) × Lined line.now k f.slots }
    ensures { ActionIs (action line.now) line.now result }
{
    if k == ADD {
        return add_in(
            line, f.slots[0], f.slots[1], f.slots[2], f.slots[3], f.slots[4], f.slots[5],
        );
    }
    if k == REMOVE {
        return remove_in(line, f.slots[0]);
    }
    if k == PROTOCOL {
        return protocol_in(line, f.slots[0], f.slots[1], f.slots[2], f.slots[3]);
    }
    if k == META_DATA {
        return meta_data_in(line, f.slots[0], f.slots[1]);
    }
    mergeskip_in(line, f.slots[0], f.slots[1], f.slots[2])
}

// The action of a key that needs an object, whose value begins at v.
fn object_at(line: &[u8], k: usize, v: usize) -> Option<Action>
    requires { (k ≤ 4) × Begun line.now k v }
    ensures { ActionIs (action line.now) line.now result }
{
    let i = json_tokens::skip_byte(line, v, OPEN_BRACE)?;
    let kind = kind_at(k);
    let f = field_objects::scan(line, i, kind, IN_ACTION)?;
    let end = f.end;
    if line_ends(line, end) {
        return action_in(line, k, f);
    }
    None
}

// The action of a key that any value may stand under, which begins at v.
fn other_at(line: &[u8], k: usize, v: usize) -> Option<Action>
    requires { (4 < k) × Begun line.now k v }
    ensures { ActionIs (action line.now) line.now result }
{
    let e = json_values::value(line, v, IN_LINE)?;
    if line_ends(line, e) {
        return Some(Action::Other);
    }
    None
}

// What the line says, read in one pass for each of its objects.
pub fn classify(line: &[u8]) -> Option<Action>
    ensures { ActionIs (action line.now) line.now result }
{
    let (k, v) = head(line)?;
    if MERGESKIP < k {
        return other_at(line, k, v);
    }
    object_at(line, k, v)
}
