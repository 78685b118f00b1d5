// The entries over one line.
ghost use Rattle.std.specs.Prelude.{◌≡◌};
ghost use Rattle.rules.specs.Actions.{path_place, records_shown};
ghost use Rattle.entries_c.specs.Shows.{place_by, records_by};

// Where the path stands in the line.
#[repr(C)]
#[derive(Clone, Copy)]
pub struct Place {
    pub start: usize,
    pub length: usize,
}

// The raw path between its quotes, as `shown::path_of`, by its place in the line; both numbers are 0 if the line is no
// well-formed add.
#[unsafe(no_mangle)]
pub extern "C" fn kerumpase_path_of(line: &[u8]) -> Place
    ensures { result ≡ place_by (path_place line.now) }
{
    match shown::judge(line) {
        Some((from, to, _)) => Place {
            start: from,
            length: to - from,
        },
        None => Place {
            start: 0,
            length: 0,
        },
    }
}

const NO_ADD: u32 = 0;

const MISSING: u32 = 1;

const STATED: u32 = 2;

// Whether the line is a well-formed add and states its records; their number, else 0.
#[repr(C)]
#[derive(Clone, Copy)]
pub struct RecordsShown {
    pub stated: u32,
    pub number: u64,
}

// The number of records of the line's add, as `shown::records_of`.
#[unsafe(no_mangle)]
pub extern "C" fn kerumpase_records_of(line: &[u8]) -> RecordsShown
    ensures { result ≡ records_by (records_shown line.now) }
{
    let Some(records) = shown::records_of(line) else {
        return RecordsShown {
            stated: NO_ADD,
            number: 0,
        };
    };
    match records {
        Some(n) => RecordsShown {
            stated: STATED,
            number: n,
        },
        None => RecordsShown {
            stated: MISSING,
            number: 0,
        },
    }
}
