// What several answers print: a refusal's numbers, and a sum behind what stands before it.
use refusals::Refusal;

// The number, the entry and the line.
pub fn print_refusal(x: Refusal) {
    let n = refusals::numbers_of(x);
    program_printing::number(u64::from(n.number));
    program_printing::word(b" ");
    program_printing::size(n.entry);
    program_printing::word(b" ");
    program_printing::size(n.line);
}

pub fn print_sum(sum: u32) {
    program_printing::word(b" ");
    program_printing::number(u64::from(sum));
}

// A sum that is the last of its line.
pub fn print_last(sum: u32) {
    print_sum(sum);
    program_printing::word(b"\n");
}
