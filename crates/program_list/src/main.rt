// Lists the latest version of the bundle on standard input, under the query `[]`: a header, then a line for each live file in path order; or the
// refusal. A bundle of more than 65,536 bytes is refused as malformed.
#![tactic(auto)]

use reading::Listing;
use refusals::Refusal;

const MOST_BYTES: usize = 65536;

const MOST_ROWS: usize = 1024;

// A row: the place of its line, the line's length, size, time; how often it was skipped, and from when on it may be tried again.
const ROW: usize = 6;

fn print_refusal(x: Refusal) {
    let n = refusals::numbers_of(x);
    program_printing::word(b"refused ");
    program_printing::number(u64::from(n.number));
    program_printing::word(b" entry ");
    program_printing::size(n.entry);
    program_printing::word(b" line ");
    program_printing::size(n.line);
    program_printing::word(b"\n");
}

fn print_header(l: Listing) {
    program_printing::word(b"version ");
    program_printing::number(l.version.0);
    program_printing::word(b" files ");
    program_printing::size(l.rows);
    program_printing::word(b" reader ");
    program_printing::number(l.reader);
    program_printing::word(b" writer ");
    program_printing::number(l.writer);
    program_printing::word(b" writable ");
    program_printing::yes_or_no(l.writable);
    program_printing::word(b"\n");
}

fn print_records(r: Option<u64>) {
    match r {
        Some(n) => program_printing::number(n),
        None => program_printing::word(b"-"),
    }
}

// A file: the path as its line writes it, size, time, number of records.
fn print_file(line: &[u8], size: u64, time: u64) {
    program_printing::word(b"\"");
    program_printing::word(shown::path_of(line));
    program_printing::word(b"\" ");
    program_printing::number(size);
    program_printing::word(b" ");
    program_printing::number(time);
    program_printing::word(b" ");
    print_records(shown::records_of(line).flatten());
    program_printing::word(b"\n");
}

// What lies at this place of the bundle, of this length. Reading promises that it is there; it is tested here, so that nothing rests on it.
fn line_at(s: &[u8], place: u64, length: u64) -> Option<&[u8]> {
    let start = place as usize;
    let end = start.checked_add(length as usize)?;
    s.get(start..end)
}

fn print_row(s: &[u8], row: &[u64; ROW]) {
    let [place, length, size, time, ..] = *row;
    if let Some(line) = line_at(s, place, length) {
        print_file(line, size, time);
    }
}

fn print_rows(s: &[u8], rows: &[u64], count: usize) {
    let (rows, _) = rows.as_chunks::<ROW>();
    for row in rows.iter().take(count) {
        print_row(s, row);
    }
}

fn print_listed(s: &[u8], rows: &[u64], l: Listing) {
    print_header(l);
    print_rows(s, rows, l.rows);
}

fn list(s: &[u8]) {
    if MOST_BYTES < s.len() {
        print_refusal(Refusal::BundleMalformed);
        return;
    }
    let mut rows = [0; MOST_ROWS * ROW];
    match reading::read_latest(s, b"[]", &mut rows) {
        Ok(l) => print_listed(s, &rows, l),
        Err(x) => print_refusal(x),
    }
}

fn main() {
    // One byte more than a bundle may have here, so that a longer one is seen.
    let mut buffer = [0; MOST_BYTES + 1];
    let got = io::read_full(program_printing::STANDARD_INPUT, &mut buffer);
    list(&buffer[..got]);
}
