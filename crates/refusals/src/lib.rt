// The refusals of every entry, by the papers' tables: a case for each number. None gives 16 to 20 yet.
#![tactic(auto)]

ghost use Rattle.std.specs.Prelude.{◌≡◌};
ghost use Rattle.rules.specs.Refusals.{plain as names_nothing};
ghost use Rattle.refusals.specs.Numbered.{numbered, said};

// Refusals 6, 7 and 21 name an entry and a line.
#[derive(Clone, Copy)]
pub enum Refusal {
    RoomTooShort,
    BundleMalformed,
    VersionTooLarge,
    NoVersionZero,
    NotKept,
    Malformed(usize, usize),
    TooManyLive(usize, usize),
    ReaderTooHigh,
    UnknownFeature,
    QueryMalformed,
    NoSuchColumn,
    NotWritable,
    CheckpointDisagrees,
    StateMalformed,
    TooManyManifests,
    ListRefused,
    OutputTooShort,
    ValueOutOfRange,
    ContainerMalformed,
    OtherSchema,
    ForeignKeys(usize, usize),
}

// What a refusal says: its number, and the entry and line that 6, 7 and 21 name.
#[derive(Clone, Copy)]
pub struct Numbers {
    pub number: u32,
    pub entry: usize,
    pub line: usize,
}

// A refusal that names neither entry nor line.
fn plain(k: u32) -> Numbers
    ensures { said result ≡ names_nothing k }
{
    Numbers {
        number: k,
        entry: 0,
        line: 0,
    }
}

// The paper's number for a refusal, and what it names.
pub fn numbers_of(x: Refusal) -> Numbers
    ensures { said result ≡ numbered x }
{
    match x {
        Refusal::RoomTooShort => plain(1),
        Refusal::BundleMalformed => plain(2),
        Refusal::VersionTooLarge => plain(3),
        Refusal::NoVersionZero => plain(4),
        Refusal::NotKept => plain(5),
        Refusal::Malformed(entry, line) => Numbers {
            number: 6,
            entry,
            line,
        },
        Refusal::TooManyLive(entry, line) => Numbers {
            number: 7,
            entry,
            line,
        },
        Refusal::ReaderTooHigh => plain(8),
        Refusal::UnknownFeature => plain(9),
        Refusal::QueryMalformed => plain(10),
        Refusal::NoSuchColumn => plain(11),
        Refusal::NotWritable => plain(12),
        Refusal::CheckpointDisagrees => plain(13),
        Refusal::StateMalformed => plain(14),
        Refusal::TooManyManifests => plain(15),
        Refusal::ListRefused => plain(16),
        Refusal::OutputTooShort => plain(17),
        Refusal::ValueOutOfRange => plain(18),
        Refusal::ContainerMalformed => plain(19),
        Refusal::OtherSchema => plain(20),
        Refusal::ForeignKeys(entry, line) => Numbers {
            number: 21,
            entry,
            line,
        },
    }
}
