// The characters of JSON's strings, as they are, in UTF-8, or escaped; and strings up to their closing quote.
#![tactic(auto)]

mod escapes;
mod plain;
mod strings;
mod utf8;

pub use escapes::escape;
pub use plain::{plain_end, skip_plain};
pub use strings::{skip_char, skip_chars, skip_string};
pub use utf8::skip_unescaped;
