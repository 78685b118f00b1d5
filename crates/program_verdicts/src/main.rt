// Prints what the text layer says of each text on standard input. A text is two bytes, its length (little-endian), and then its bytes.
// A line gives: whether it is JSON; the whole number that it is, or -; the number of a query that it is, `out` or -;
// and, where it is a string, how many bytes it stands for and how it stands to "m".
#![tactic(auto)]

ghost use Rattle.json_strings.specs.Decoded.{WellSpelled};

use json_strings::Spelling;
use json_tokens::QUOTE;
use query_numbers::{NoNumber, Signed};
use std::cmp::Ordering;

const DEPTH: usize = 32;

fn print_whole(t: &[u8]) {
    match bytes_values::whole_of(t) {
        Some(n) => program_printing::number(n),
        None => program_printing::word(b"-"),
    }
}

fn print_signed(n: Signed) {
    if n.negative {
        program_printing::word(b"-");
    }
    program_printing::number(n.size);
}

fn print_numeral(t: &[u8]) {
    match query_numbers::numeral_of(t) {
        Ok(n) => print_signed(n),
        Err(NoNumber::OutOfRange) => program_printing::word(b"out"),
        Err(NoNumber::NotNumber) => program_printing::word(b"-"),
    }
}

fn print_order(o: Ordering) {
    match o {
        Ordering::Less => program_printing::word(b" less"),
        Ordering::Equal => program_printing::word(b" equal"),
        Ordering::Greater => program_printing::word(b" more"),
    }
}

// Of the string behind the first byte.
fn print_spelled(t: &[u8])
    requires { WellSpelled t.now 1 }
{
    program_printing::word(b" ");
    program_printing::size(json_strings::decoded_size(t, 1));
    print_order(json_strings::order_strings(t, 1, b"m\"", 0));
}

fn print_string(t: &[u8]) {
    if t.first() != Some(&QUOTE) {
        return;
    }
    match json_strings::scan_string(t, 1) {
        Spelling::Plain(_) | Spelling::Escaped(_) => print_spelled(t),
        Spelling::Bad => (),
    }
}

fn print_verdict(t: &[u8]) {
    let is_json = json_values::is_json(t, DEPTH);
    if is_json {
        program_printing::word(b"json ");
    } else {
        program_printing::word(b"no ");
    }
    print_whole(t);
    program_printing::word(b" ");
    print_numeral(t);
    if is_json {
        print_string(t);
    }
    program_printing::word(b"\n");
}

fn print_each(texts: &[u8]) {
    let mut left = texts;
    while let [low, high, behind @ ..] = left {
        let size = usize::from(u16::from_le_bytes([*low, *high]));
        let Some((t, after)) = behind.split_at_checked(size) else {
            return;
        };
        print_verdict(t);
        left = after;
    }
}

fn main() {
    let mut buffer = io::large_buffer();
    let got = io::read_full(program_printing::STANDARD_INPUT, &mut buffer);
    print_each(&buffer[..got]);
}
