// The grammar of JSON (RFC 8259) over a lent text: values, objects and arrays, read at a position; each answers the position behind what it read.
// The four that call each other answer it as a plain number, in a register, and 0 where there is none: no position behind something is 0.
#![tactic(auto)]

ghost use Rattle.std.specs.Prelude.{◌≡◌, ℕ, ◌≤◌, ◌<◌, ◌+◌, length, drop, get_or};
ghost use Rattle.rules.specs.Json.Text.{behind};
ghost use Rattle.rules.specs.Json.Values.{opening as rule_opening, closing as rule_closing, colon, member, contents, elements, scalar, value as rule_value};
ghost use Rattle.json_tokens.specs.Answers.{Answer};
ghost use Rattle.json_values.specs.Follows.{Follows};
ghost use Rattle.json_values.specs.Numbered.{Found, Numbered};
ghost use Rattle.json_values.specs.Whole.{name, is_json};

use json_characters::{plain_end, skip_string};
use json_tokens::{
    CLOSE_BRACE, CLOSE_BRACKET, COLON, COMMA, OPEN_BRACE, OPEN_BRACKET, QUOTE, skip_byte,
    skip_number, skip_word, skip_ws,
};

// What stands behind the byte that opens a container, or behind one of its items: the closing byte, one more item, or neither.
#[derive(Clone, Copy)]
pub enum Tail {
    Closed(usize),
    More(usize),
    Neither,
}

// Behind the opening byte: the closing one at once, or where the first item begins.
pub fn opening(s: &[u8], at: usize, close: u8) -> Tail
    requires { at ≤ length s.now }
    ensures { Follows (rule_opening close (drop at s.now)) s.now at result }
{
    let i = skip_ws(s, at);
    if s.len() <= i {
        return Tail::Neither;
    }
    if s[i] == close {
        Tail::Closed(i + 1)
    } else {
        Tail::More(i)
    }
}

// Behind an item: the closing byte, or a comma and where the next item begins.
pub fn closing(s: &[u8], at: usize, close: u8) -> Tail
    requires { at ≤ length s.now }
    ensures { Follows (rule_closing close (drop at s.now)) s.now (at + 1) result }
{
    let i = skip_ws(s, at);
    if s.len() <= i {
        return Tail::Neither;
    }
    let b = s[i];
    if b == close {
        return Tail::Closed(i + 1);
    }
    if b == COMMA {
        Tail::More(skip_ws(s, i + 1))
    } else {
        Tail::Neither
    }
}

// A colon, with white space around it.
pub fn skip_colon(s: &[u8], at: usize) -> Option<usize>
    requires { at ≤ length s.now }
    ensures { Answer (colon (drop at s.now)) s.now (at + 1) result }
{
    let i = skip_byte(s, skip_ws(s, at), COLON)?;
    Some(skip_ws(s, i))
}

// The name of a member, its colon, and the white space before its value.
pub fn skip_name(s: &[u8], at: usize) -> Option<usize>
    requires { at ≤ length s.now }
    ensures { Answer (name (drop at s.now)) s.now (at + 1) result }
{
    let i = skip_byte(s, at, QUOTE)?;
    let j = skip_string(s, i)?;
    skip_colon(s, j)
}

// Where the member at `at` ends, where it is two strings of plain bytes and a colon, as most are; else 0.
fn plain_member(s: &[u8], at: usize) -> usize
    requires { at ≤ length s.now }
    ensures { (depth : ℕ) → Found (behind (member (rule_value depth) (drop at s.now))) s.now (at + 1) result }
{
    let Some(i) = skip_byte(s, at, QUOTE) else {
        return 0;
    };
    let n = plain_end(s, i);
    if n == 0 {
        return 0;
    }
    if s.len() - n < 2 {
        return 0;
    }
    if s[n] != COLON {
        return 0;
    }
    if s[n + 1] != QUOTE {
        return 0;
    }
    plain_end(s, n + 2)
}

// A value that is no string and holds no others: a number or one of the three words.
fn skip_bare(s: &[u8], at: usize) -> Option<usize>
    requires { (at < length s.now) × (get_or s.now at 0 ≡ 0x22 → ⊥) }
    ensures { Answer (scalar (drop at s.now)) s.now (at + 1) result }
{
    match s[at] {
        b'f' => skip_word(s, at + 1, b"alse"),
        b'n' => skip_word(s, at + 1, b"ull"),
        b't' => skip_word(s, at + 1, b"rue"),
        _ => skip_number(s, at),
    }
}

// A value that holds no others: a string, a number or one of the three words.
pub fn skip_scalar(s: &[u8], at: usize) -> Option<usize>
    requires { at ≤ length s.now }
    ensures { Answer (scalar (drop at s.now)) s.now (at + 1) result }
{
    if s.len() <= at {
        return None;
    }
    if s[at] == QUOTE {
        skip_string(s, at + 1)
    } else {
        skip_bare(s, at)
    }
}

// A value inside of a container: objects and arrays nest in it at most `depth` deep. The position behind it, or 0 where there is none.
#[cycle(array_object_skip_member_value_within)]
fn value_within(s: &[u8], at: usize, depth: usize) -> usize
    requires { at ≤ length s.now }
    ensures { Numbered (rule_value depth (drop at s.now)) s.now (at + 1) result }
{
    if s.len() <= at {
        return 0;
    }
    let b = s[at];
    if b == OPEN_BRACE {
        if depth == 0 { // too deep for an object
            return 0;
        }
        return object(s, at + 1, depth - 1);
    }
    if b == OPEN_BRACKET {
        if depth == 0 { // too deep for an array
            return 0;
        }
        return array(s, at + 1, depth - 1);
    }
    let Some(end) = skip_scalar(s, at) else {
        return 0;
    };
    end
}

// A member: its name, the colon and its value, in which objects and arrays nest at most `depth` deep. The position behind it, or 0.
#[cycle(array_object_skip_member_value_within)]
fn skip_member(s: &[u8], at: usize, depth: usize) -> usize
    requires { at ≤ length s.now }
    ensures { Numbered (behind (member (rule_value depth) (drop at s.now))) s.now (at + 1) result }
{
    let end = plain_member(s, at);
    if 0 < end {
        return end;
    }
    let Some(v) = skip_name(s, at) else {
        return 0;
    };
    value_within(s, v, depth)
}

// Behind the opening brace: the members of an object, whose values nest at most `depth` deep, and its closing brace. The position behind that, or 0.
#[cycle(array_object_skip_member_value_within)]
fn object(s: &[u8], at: usize, depth: usize) -> usize
    requires { at ≤ length s.now }
    ensures { Numbered (behind (contents (rule_value depth) (drop at s.now))) s.now (at + 1) result }
{
    match opening(s, at, CLOSE_BRACE) {
        Tail::Neither => 0,
        Tail::Closed(end) => end,
        Tail::More(first) => {
            let mut i = first;
            loop {
                let j = skip_member(&s[0..], i, depth); // `&s[0..]` on purpose: it stays in registers (docs/PERFORMANCE-HISTORY.md)
                if j == 0 {
                    return 0;
                }
                match closing(s, j, CLOSE_BRACE) {
                    Tail::Neither => return 0,
                    Tail::Closed(end) => return end,
                    Tail::More(k) => i = k,
                }
            }
        }
    }
}

// Behind the opening bracket: the values of an array, which nest at most `depth` deep, and its closing bracket. The position behind that, or 0.
#[cycle(array_object_skip_member_value_within)]
fn array(s: &[u8], at: usize, depth: usize) -> usize
    requires { at ≤ length s.now }
    ensures { Numbered (behind (elements (rule_value depth) (drop at s.now))) s.now (at + 1) result }
{
    match opening(s, at, CLOSE_BRACKET) {
        Tail::Neither => 0,
        Tail::Closed(end) => end,
        Tail::More(first) => {
            let mut i = first;
            loop {
                let j = value_within(s, i, depth);
                if j == 0 {
                    return 0; // no value behind the comma
                }
                match closing(s, j, CLOSE_BRACKET) {
                    Tail::Neither => return 0,
                    Tail::Closed(end) => return end,
                    Tail::More(k) => i = k,
                }
            }
        }
    }
}

// A value in which objects and arrays nest at most `depth` deep; what holds no others is read with no call of those that call each other.
pub fn value(s: &[u8], at: usize, depth: usize) -> Option<usize>
    requires { at ≤ length s.now }
    ensures { Answer (rule_value depth (drop at s.now)) s.now (at + 1) result }
{
    if s.len() <= at {
        return None;
    }
    match s[at] {
        b'"' => skip_string(s, at + 1),
        b'[' | b'{' => {
            let end = value_within(s, at, depth);
            if end == 0 { None } else { Some(end) }
        }
        _ => skip_bare(s, at),
    }
}

// Whether s is one JSON text: a value in which objects and arrays nest at most `depth` deep, white space around it, and nothing more.
pub fn is_json(s: &[u8], depth: usize) -> bool
    ensures { result ≡ is_json depth s.now }
{
    let Some(i) = value(s, skip_ws(s, 0), depth) else {
        return false;
    };
    skip_ws(s, i) == s.len()
}
