// The answers of a reading: `r` at a version, `l` at the latest, `q` of what is due at a time.
use crate::{lent, requests, sums, words};
use file_names::{Millis, Version};
use reading::Listing;
use refusals::Refusal;

fn print_listing(l: Listing) {
    program_printing::word(b"0 0 0 ");
    program_printing::number(l.version.0);
    program_printing::word(b" ");
    program_printing::size(l.rows);
    program_printing::word(b" ");
    program_printing::number(l.reader);
    program_printing::word(b" ");
    program_printing::number(l.writer);
    program_printing::word(b" ");
    program_printing::yes_or_no(l.writable);
}

fn print_read(r: Result<Listing, Refusal>) {
    match r {
        Ok(l) => print_listing(l),
        Err(x) => {
            words::print_refusal(x);
            program_printing::word(b" 0 0 0 0 no");
        }
    }
}

// At this version, or else at the latest.
fn read(
    version: Option<Version>,
    bundle: &[u8],
    query: &[u8],
    rows: &mut [u64],
) -> Result<Listing, Refusal> {
    match version {
        Some(v) => reading::read_at(bundle, query, v, rows),
        None => reading::read_latest(bundle, query, rows),
    }
}

fn print_reading(version: Option<Version>, bundle: &[u8], query: &[u8], rows: &mut [u64]) {
    print_read(read(version, bundle, query, rows));
    words::print_last(sums::of_u64(rows));
}

fn answer(version: Option<Version>) -> Option<()> {
    let mut rows_room = lent::table();
    let rows = requests::next_of(&mut rows_room)?;
    let mut query_room = lent::query();
    let query = requests::next_text(&mut query_room)?;
    let mut bundle_room = lent::long();
    let bundle = requests::next_text(&mut bundle_room)?;
    print_reading(version, bundle, query, rows);
    Some(())
}

pub fn version() -> Option<()> {
    let v = Version(requests::next_number()?);
    answer(Some(v))
}

pub fn latest() -> Option<()> {
    answer(None)
}

fn print_due(bundle: &[u8], time: Millis, rows: &mut [u64]) {
    print_read(reading::read_due(bundle, time, rows));
    words::print_last(sums::of_u64(rows));
}

pub fn due() -> Option<()> {
    let time = Millis(requests::next_number()?);
    let mut rows_room = lent::table();
    let rows = requests::next_of(&mut rows_room)?;
    let mut bundle_room = lent::long();
    let bundle = requests::next_text(&mut bundle_room)?;
    print_due(bundle, time, rows);
    Some(())
}
