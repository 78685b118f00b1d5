// Protocols of two lines: the same numbers, and the same sets of features, in any order and however often each is named.
ghost use Rattle.std.specs.Prelude.{◌≡◌, List, ◌≤◌, length, drop};
ghost use Rattle.rules.specs.Bytes.{Bytes, holds, all_among, same_set};
ghost use Rattle.rules.specs.Actions.{Protocol as RuleProtocol};
ghost use Rattle.rules.specs.History.{or_unstated};
ghost use Rattle.rules.specs.Agreement.{agree_protocols};
ghost use Rattle.json_strings.specs.Decoded.{decoded, WellSpelled};
ghost use Rattle.field_containers.specs.Strung.{Onward};
ghost use Rattle.field_containers.specs.Featured.{FeaturesAt};
ghost use Rattle.line_actions.specs.Line.{ProtocolIs};
ghost use Rattle.log_replay.specs.Views.{line_at, protocol_at, Inside};
ghost use Rattle.log_agreement.specs.Stating.{Featured, Protocolled};

use json_tokens::CLOSE_BRACKET;
use json_values::Tail;
use line_actions::Stated;
use log_replay::Span;

// `j` is just after a string's opening quote in s, `from` just after the bracket of t's features, or 0 where t states none. Whether that
// string is one of these features.
fn feature_held(t: &[u8], from: usize, s: &[u8], j: usize) -> bool
    requires { Featured t.now from × WellSpelled s.now j }
    ensures { (ys : List Bytes) → FeaturesAt t.now from ys → result ≡ holds (decoded (drop j s.now)) ys }
{
    from != 0 && field_containers::holds_string(t, from, s, j)
}

// Whether each string of the array of s, from the element at `at` on, is a feature of t.
fn features_from(s: &[u8], at: usize, t: &[u8], from: usize) -> bool
    requires { (at ≤ length s.now) × Featured t.now from }
    ensures { (xs ys : List Bytes) → Onward s.now at xs → FeaturesAt t.now from ys → result ≡ all_among ys xs }
{
    let mut i = at;
    while let Some(n) = field_names::read_name(s, i) {
        if !feature_held(t, from, s, n.at) {
            return false;
        }
        let Tail::More(k) = json_values::closing(s, n.end, CLOSE_BRACKET) else {
            return true;
        };
        i = k;
    }
    true
}

// `at` and `from` are just after the brackets of the features of s and of t, or 0 where none are stated. Whether each feature of s is one of t.
fn features_held(s: &[u8], at: usize, t: &[u8], from: usize) -> bool
    requires { Featured s.now at × Featured t.now from }
    ensures { (xs ys : List Bytes) → FeaturesAt s.now at xs → FeaturesAt t.now from ys → result ≡ all_among ys xs }
{
    if at == 0 {
        return true;
    }
    match json_values::opening(s, at, CLOSE_BRACKET) {
        Tail::More(first) => features_from(s, first, t, from),
        _ => true,
    }
}

// Whether the features of s and of t are the same set.
fn same_features(s: &[u8], at: usize, t: &[u8], from: usize) -> bool
    requires { Featured s.now at × Featured t.now from }
    ensures { (xs ys : List Bytes) → FeaturesAt s.now at xs → FeaturesAt t.now from ys → result ≡ same_set xs ys }
{
    features_held(s, at, t, from) && features_held(t, from, s, at)
}

// Whether the protocols x of the line s and y of the line t are the same.
fn same_stated(s: &[u8], x: Stated, t: &[u8], y: Stated) -> bool
    requires { Protocolled s.now x × Protocolled t.now y }
    ensures { (p q : RuleProtocol) → ProtocolIs s.now p x → ProtocolIs t.now q y → result ≡ agree_protocols p q }
{
    let numbers = x.reader == y.reader && x.writer == y.writer;
    numbers
        && same_features(s, x.reader_features, t, y.reader_features)
        && same_features(s, x.writer_features, t, y.writer_features)
}

// The protocol that a line states: (1, 1) and no features where it is no protocol.
fn stated_at(src: &[u8], line: Span) -> Stated
    requires { Inside src.now line }
    ensures { ProtocolIs (line_at src.now line) (or_unstated (protocol_at src.now line)) result }
{
    let unstated = Stated {
        reader: 1,
        writer: 1,
        reader_known: true,
        writer_known: true,
        reader_features: 0,
        writer_features: 0,
    };
    line_actions::protocol_of(&src[line.at..line.at + line.size]).unwrap_or(unstated)
}

// Whether the protocols in force by two lines are the same.
pub fn same_protocols(src: &[u8], a: Span, b: Span) -> bool
    requires { Inside src.now a × Inside src.now b }
    ensures { result ≡ agree_protocols (or_unstated (protocol_at src.now a)) (or_unstated (protocol_at src.now b)) }
{
    let x = stated_at(src, a);
    let y = stated_at(src, b);
    same_stated(&src[a.at..a.at + a.size], x, &src[b.at..b.at + b.size], y)
}
