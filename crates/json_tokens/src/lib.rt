// JSON's tokens: white space, single bytes, words, numbers; and the bytes that JSON's text is put together with.
#![tactic(auto)]

mod numbers;
mod tokens;

pub use numbers::skip_number;
pub use tokens::{skip_byte, skip_word, skip_ws};

pub const QUOTE: u8 = b'"';

pub const BACKSLASH: u8 = b'\\';

pub const OPEN_BRACE: u8 = b'{';

pub const CLOSE_BRACE: u8 = b'}';

pub const OPEN_BRACKET: u8 = b'[';

pub const CLOSE_BRACKET: u8 = b']';

pub const COLON: u8 = b':';

pub const COMMA: u8 = b',';
