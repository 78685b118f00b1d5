// The answers that show a part: `d` the directory of a manifest, `p` the path of a line, and `n` its number of records.
use crate::{lent, requests, sums, words};

fn print_part(part: &[u8]) {
    program_printing::size(part.len());
    words::print_last(sums::of_bytes(part));
}

pub fn directory() -> Option<()> {
    let mut path_room = lent::short();
    let path = requests::next_text(&mut path_room)?;
    let mut state_room = lent::short();
    let state = requests::next_text(&mut state_room)?;
    print_part(manifests::directory(path, state));
    Some(())
}

pub fn path() -> Option<()> {
    let mut room = lent::short();
    let line = requests::next_text(&mut room)?;
    print_part(shown::path_of(line));
    Some(())
}

fn print_records(r: Option<Option<u64>>) {
    match r {
        Some(Some(n)) => {
            program_printing::word(b"number ");
            program_printing::number(n);
            program_printing::word(b"\n");
        }
        Some(None) => program_printing::word(b"missing\n"),
        None => program_printing::word(b"none\n"),
    }
}

pub fn records() -> Option<()> {
    let mut room = lent::short();
    let line = requests::next_text(&mut room)?;
    print_records(shown::records_of(line));
    Some(())
}
