// The objects whose members the paper names: the place of a name among the names of its kind.
// The bottom of the tower: a field that a request adds is named here, and all that stands on it is proved again.
ghost use Rattle.std.specs.Prelude.{◌≡◌, length, map};
ghost use Rattle.rules.specs.Bytes.{same};
ghost use Rattle.field_names.specs.Kinds.{names_of, seek};

// The objects whose members have names of their own.
#[derive(Clone, Copy)]
pub enum Kind {
    Line,
    Add,
    Remove,
    Protocol,
    MetaData,
    Mergeskip,
    Marker,
    State,
    Manifest,
    Bounds,
    Condition,
}

// The names of the kind, in the order of the slots.
fn names(kind: Kind) -> &'static [&'static [u8]]
    ensures { map (λ k. k.now) result.now ≡ names_of kind }
{
    match kind {
        Kind::Line => &[b"add", b"remove", b"protocol", b"metaData", b"mergeskip"],
        Kind::Add => &[
            b"path",
            b"size",
            b"modificationTime",
            b"dataChange",
            b"partitionValues",
            b"numRecords",
        ],
        Kind::Remove => &[b"path"],
        Kind::Protocol => &[
            b"minReaderVersion",
            b"minWriterVersion",
            b"readerFeatures",
            b"writerFeatures",
        ],
        Kind::MetaData => &[b"id", b"partitionColumns"],
        Kind::Mergeskip => &[b"path", b"skipCount", b"retryAfter"],
        Kind::Marker => &[b"version", b"parts", b"format"],
        Kind::State => &[b"manifests"],
        Kind::Manifest => &[b"path", b"partitionBounds"],
        Kind::Bounds => &[b"min", b"max"],
        Kind::Condition => &[b"column", b"as", b"op", b"value"],
    }
}

// Whether the name is the key. Byte by byte: a key's few bytes are known where it is asked for.
fn is_key(name: &[u8], key: &[u8]) -> bool
    ensures { result ≡ same name.now key.now }
{
    name.len() == key.len() && name.iter().zip(key).all(|(a, b)| *a == *b)
}

// The place of the name among the keys; their number where it is none of them.
#[inline(always)]
fn look(name: &[u8], keys: &[&[u8]]) -> usize
    ensures { result ≡ seek name.now (map (λ k. k.now) keys.now) }
{
    keys.iter()
        .position(|key| is_key(name, key))
        .unwrap_or(keys.len())
}

// The place of the bytes among the names of the kind; their number where they are none of them.
// A line for each kind: its names are known at the look, so that the compiler makes a chain of tests of it.
pub fn place_of(name: &[u8], kind: Kind) -> usize
    ensures { result ≡ seek name.now (names_of kind) }
{
    match kind {
        Kind::Line => look(name, names(Kind::Line)),
        Kind::Add => look(name, names(Kind::Add)),
        Kind::Remove => look(name, names(Kind::Remove)),
        Kind::Protocol => look(name, names(Kind::Protocol)),
        Kind::MetaData => look(name, names(Kind::MetaData)),
        Kind::Mergeskip => look(name, names(Kind::Mergeskip)),
        Kind::Marker => look(name, names(Kind::Marker)),
        Kind::State => look(name, names(Kind::State)),
        Kind::Manifest => look(name, names(Kind::Manifest)),
        Kind::Bounds => look(name, names(Kind::Bounds)),
        Kind::Condition => look(name, names(Kind::Condition)),
    }
}

// How many names there are of the kind.
pub fn names_in(kind: Kind) -> usize
    ensures { result ≡ length (names_of kind) }
{
    names(kind).len()
}
