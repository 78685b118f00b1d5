// JSON strings by the bytes that they stand for, with no copy. A string is a slice and the position behind its opening quote.
#![tactic(auto)]

mod cursors;
mod pairs;
mod single;
mod spellings;

pub use cursors::{Cursor, next, utf8_size};
pub use pairs::{order_raw, order_strings, raw_end, same_strings};
pub use single::{decoded_size, string_is};
pub use spellings::{Spelling, scan_string};

pub const SLASH: u8 = b'/';
