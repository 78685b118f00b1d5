// The names of members: read where they stand, and compared with a key.
ghost use Rattle.std.specs.Prelude.{◌≡◌, ◌≤◌, length};
ghost use Rattle.rules.specs.Bytes.{same};
ghost use Rattle.field_names.specs.Spelled.{name_in, Named, NameIs};

use json_strings::Spelling;
use json_tokens::QUOTE;

// A name as it stands: behind its opening quote, behind its closing quote, and whether it is spelled as the bytes that it stands for.
#[derive(Clone, Copy)]
pub struct Spell {
    pub at: usize,
    pub end: usize,
    pub plain: bool,
}

// The name whose opening quote is at `at`.
pub fn read_name(s: &[u8], at: usize) -> Option<Spell>
    requires { at ≤ length s.now }
    ensures { NameIs s.now at result }
{
    let i = json_tokens::skip_byte(s, at, QUOTE)?;
    match json_strings::scan_string(s, i) {
        Spelling::Plain(end) => Some(Spell {
            at: i,
            end,
            plain: true,
        }),
        Spelling::Escaped(end) => Some(Spell {
            at: i,
            end,
            plain: false,
        }),
        Spelling::Bad => None,
    }
}

// Whether the name is the key.
pub fn name_is(s: &[u8], n: Spell, key: &[u8]) -> bool
    requires { Named s.now n }
    ensures { result ≡ same (name_in s.now n) key.now }
{
    let at = n.at;
    let end = n.end;
    if n.plain {
        let last = end - 1;
        return bytes_values::same_bytes(&s[at..last], key);
    }
    json_strings::string_is(s, at, key)
}
