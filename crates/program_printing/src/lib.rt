// What programs print on standard output: words, numbers, yes or no. That they are written is the C library's part.
#![tactic(auto)]

// The descriptors of the two streams that a program begins with.
pub const STANDARD_INPUT: i32 = 0;

const STANDARD_OUTPUT: i32 = 1;

pub fn word(w: &[u8]) {
    io::write_all(STANDARD_OUTPUT, w);
}

pub fn number(n: u64) {
    io::print_decimal(STANDARD_OUTPUT, n);
}

pub fn size(n: usize) {
    number(n as u64);
}

pub fn yes_or_no(b: bool) {
    if b {
        word(b"yes");
    } else {
        word(b"no");
    }
}
