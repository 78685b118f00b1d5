// The answer `c`: which files of a log may go.
use crate::{lent, requests, sums, words};
use file_names::Millis;
use refusals::Refusal;

fn print_cleaned(k: Result<usize, Refusal>) {
    match k {
        Ok(count) => {
            program_printing::word(b"0 0 0 ");
            program_printing::size(count);
        }
        Err(x) => {
            words::print_refusal(x);
            program_printing::word(b" 0");
        }
    }
}

fn print_cleaning(
    bundle: &[u8],
    today: Millis,
    retention: Millis,
    names: &mut [u32],
    one: &mut [u64],
    two: &mut [u64],
) {
    print_cleaned(cleaning::clean(bundle, today, retention, names, one, two));
    words::print_sum(sums::of_u32(names));
    words::print_sum(sums::of_u64(one));
    words::print_last(sums::of_u64(two));
}

pub fn files() -> Option<()> {
    let today = Millis(requests::next_number()?);
    let retention = Millis(requests::next_number()?);
    let mut names_room = lent::names();
    let names = requests::next_of(&mut names_room)?;
    let mut one_room = lent::table();
    let one = requests::next_of(&mut one_room)?;
    let mut two_room = lent::table();
    let two = requests::next_of(&mut two_room)?;
    let mut bundle_room = lent::long();
    let bundle = requests::next_text(&mut bundle_room)?;
    print_cleaning(bundle, today, retention, names, one, two);
    Some(())
}
