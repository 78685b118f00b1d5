// The entries over a bundle: the files of a table at a version, or at the latest, and those that are due.
ghost use Rattle.std.specs.Prelude.{◌≡◌, length};
ghost use Rattle.rules.specs.Reading.{the_latest, the_version, told, reading as rule_reading, room_after_reading};
ghost use Rattle.rules.specs.Due.{due as rule_due};
ghost use Rattle.reading.specs.Answers.{read_is};
ghost use Rattle.entries_c.specs.Reads.{listed_by};

use crate::codes::{Refused, accepted, refused_as};
use file_names::{Millis, Version};
use reading::Listing;
use refusals::Refusal;

// The version, how many rows are in the room, the numbers of the protocol, and whether the table is writable; all 0 where refused.
#[repr(C)]
#[derive(Clone, Copy)]
pub struct FilesListed {
    pub refused: Refused,
    pub version: u64,
    pub rows: usize,
    pub reader: u64,
    pub writer: u64,
    pub writable: bool,
}

fn listed(r: Result<Listing, Refusal>) -> FilesListed
    ensures { result ≡ listed_by (read_is r) }
{
    match r {
        Ok(l) => {
            let version = l.version;
            FilesListed {
                refused: accepted(),
                version: version.0,
                rows: l.rows,
                reader: l.reader,
                writer: l.writer,
                writable: l.writable,
            }
        }
        Err(x) => FilesListed {
            refused: refused_as(x),
            version: 0,
            rows: 0,
            reader: 0,
            writer: 0,
            writable: false,
        },
    }
}

// The files that a query picks at a version, as `reading::read_at`.
#[unsafe(no_mangle)]
pub extern "C" fn kerumpase_read_at(
    bundle: &[u8],
    q: &[u8],
    version: u64,
    rows: &mut [u64],
) -> FilesListed
    ensures value { result ≡ listed_by (told (rule_reading (length rows.old) bundle.now q.now (the_version version))) }
    ensures rows_after { rows.new
        ≡ room_after_reading (rule_reading (length rows.old) bundle.now q.now (the_version version)) rows.old }
{
    let r = reading::read_at(bundle, q, Version(version), rows);
    listed(r)
}

// The same at the latest version, as `reading::read_latest`.
#[unsafe(no_mangle)]
pub extern "C" fn kerumpase_read_latest(bundle: &[u8], q: &[u8], rows: &mut [u64]) -> FilesListed
    ensures value { result ≡ listed_by (told (rule_reading (length rows.old) bundle.now q.now the_latest)) }
    ensures rows_after { rows.new
        ≡ room_after_reading (rule_reading (length rows.old) bundle.now q.now the_latest) rows.old }
{
    let r = reading::read_latest(bundle, q, rows);
    listed(r)
}

// The files of the latest version that are due for a second merge at a time, as `reading::read_due`.
#[unsafe(no_mangle)]
pub extern "C" fn kerumpase_read_due(bundle: &[u8], time: u64, rows: &mut [u64]) -> FilesListed
    ensures value { result ≡ listed_by (told (rule_due (length rows.old) bundle.now the_latest time)) }
    ensures rows_after { rows.new
        ≡ room_after_reading (rule_due (length rows.old) bundle.now the_latest time) rows.old }
{
    let r = reading::read_due(bundle, Millis(time), rows);
    listed(r)
}
