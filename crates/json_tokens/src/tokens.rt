// The lexical layer of JSON (RFC 8259) over a lent text: each function reads at a position and answers the position behind what it read.
// Here white space, single bytes and words; numbers, escapes and characters have crates of their own.
ghost use Rattle.std.specs.Prelude.{◌≡◌, ◌≤◌, ◌+◌, length, drop};
ghost use Rattle.rules.specs.Json.Text.{is_ws, ws, byte, word};
ghost use Rattle.json_tokens.specs.Answers.{Answer, Skips};

// Space, tab, line feed or carriage return.
fn is_ws(b: u8) -> bool
    ensures { result ≡ is_ws b }
{
    b == b' ' || b == b'\t' || b == b'\n' || b == b'\r'
}

// White space, as much as there is.
pub fn skip_ws(s: &[u8], at: usize) -> usize
    requires { at ≤ length s.now }
    ensures { Skips (ws (drop at s.now)) s.now at result }
{
    if at < s.len() && b' ' < s[at] {
        return at; // none, as mostly
    }
    let mut i = at;
    while i < s.len() && is_ws(s[i]) {
        i += 1;
    }
    i
}

// The byte b.
pub fn skip_byte(s: &[u8], at: usize, b: u8) -> Option<usize>
    requires { at ≤ length s.now }
    ensures { Answer (byte b (drop at s.now)) s.now (at + 1) result }
{
    if s.len() <= at {
        return None;
    }
    if s[at] == b { Some(at + 1) } else { None }
}

// The bytes of the word w, in order.
pub fn skip_word(s: &[u8], at: usize, w: &[u8]) -> Option<usize>
    requires { at ≤ length s.now }
    ensures { Answer (word w.now (drop at s.now)) s.now at result }
{
    let mut i = at;
    for &b in w {
        i = skip_byte(s, i, b)?;
    }
    Some(i)
}
