// Gives every public entry to tests outside: it reads requests from standard input and prints a line for each. A request is a letter, then numbers
// (8 bytes each, little-endian), then byte strings (a number, their length, and the bytes). It stops where the input ends.
#![tactic(auto)]

mod cleanings;
mod lent;
mod readings;
mod requests;
mod showings;
mod states;
mod sums;
mod words;

// The most requests that are answered.
const MOST_REQUESTS: usize = 1000000;

// Answers the request that this letter begins; None if it is cut short, over a limit or of no letter that is known.
fn answer(letter: u8) -> Option<()> {
    match letter {
        b'c' => cleanings::files(),
        b'd' => showings::directory(),
        b'l' => readings::latest(),
        b'm' => states::manifests(),
        b'n' => showings::records(),
        b'p' => showings::path(),
        b'q' => readings::due(),
        b'r' => readings::version(),
        _ => None,
    }
}

// Answers the next request; None if there is none to go on with.
fn answer_next() -> Option<()> {
    let mut letter = [0];
    if io::read_full(program_printing::STANDARD_INPUT, &mut letter) == 0 {
        return None;
    }
    let answered = answer(letter[0]);
    if answered.is_none() {
        program_printing::word(b"end\n");
    }
    answered
}

fn main() {
    for _ in 0..MOST_REQUESTS {
        if answer_next().is_none() {
            return;
        }
    }
}
