// The answer `m`: which manifests of a state a query keeps.
use crate::{lent, requests, sums, words};
use refusals::Refusal;

fn print_kept(k: Result<usize, Refusal>) {
    match k {
        Ok(count) => {
            program_printing::word(b"0 ");
            program_printing::size(count);
        }
        Err(x) => {
            program_printing::number(u64::from(refusals::numbers_of(x).number));
            program_printing::word(b" 0");
        }
    }
}

fn print_keeping(state: &[u8], query: &[u8], kept: &mut [u32]) {
    print_kept(manifests::keep(state, query, kept));
    words::print_last(sums::of_u32(kept));
}

pub fn manifests() -> Option<()> {
    let mut kept_room = lent::names();
    let kept = requests::next_of(&mut kept_room)?;
    let mut query_room = lent::query();
    let query = requests::next_text(&mut query_room)?;
    let mut state_room = lent::long();
    let state = requests::next_text(&mut state_room)?;
    print_keeping(state, query, kept);
    Some(())
}
