// Partition values of two lines: the same columns with the same values, in any order; null is a value.
ghost use Rattle.std.specs.Prelude.{◌≡◌, ◌-◌, ◌≤◌, length, take, drop, Option, Some};
ghost use Rattle.rules.specs.Bytes.{Bytes};
ghost use Rattle.rules.specs.Actions.{Pairs};
ghost use Rattle.rules.specs.Json.Fields.{string_or_null};
ghost use Rattle.rules.specs.Picking.{value_at};
ghost use Rattle.rules.specs.Agreement.{agree_value, agree_found, agree_pairs};
ghost use Rattle.json_strings.specs.Decoded.{decoded, WellSpelled};
ghost use Rattle.field_containers.specs.Nested.{Pairing, Paired};
ghost use Rattle.log_agreement.specs.OneWay.{held_in, Onward};

use field_containers::IN_FIELD;
use json_tokens::CLOSE_BRACE;
use json_values::Tail;

// Whether the value of s from v to e is that of t from w to f: null, or a string that stands for the same bytes.
fn same_values(s: &[u8], v: usize, e: usize, t: &[u8], w: usize, f: usize) -> bool
    requires { (v ≤ e) × (e ≤ length s.now) × (w ≤ f) × (f ≤ length t.now) }
    ensures { (x y : Option Bytes) → string_or_null (take (e - v) (drop v s.now)) ≡ Some x
        → string_or_null (take (f - w) (drop w t.now)) ≡ Some y → result ≡ agree_value x y }
{
    match (
        field_scalars::string_at(s, v, e),
        field_scalars::string_at(t, w, f),
    ) {
        (Some((i, _)), Some((j, _))) => json_strings::same_strings(s, i, t, j),
        (None, None) => true,
        _ => false,
    }
}

// `from` is just after the brace of t's partition values. Whether the column that s names from `begin` on has in t the value that stands in s
// from v to e.
fn pair_held(s: &[u8], begin: usize, v: usize, e: usize, t: &[u8], from: usize) -> bool
    requires { WellSpelled s.now begin × (v ≤ e) × (e ≤ length s.now) × Paired t.now from }
    ensures { (x : Option Bytes) (qs : Pairs) → string_or_null (take (e - v) (drop v s.now)) ≡ Some x → Pairing t.now from qs
        → result ≡ agree_found (Some x) (value_at (decoded (drop begin s.now)) qs) }
{
    match field_objects::find_name(t, from, IN_FIELD, s, begin) {
        Some((w, f)) => same_values(s, v, e, t, w, f),
        None => false,
    }
}

// Whether each pair of s, from the member at `at` on, is one of those of t.
fn held_from(s: &[u8], at: usize, t: &[u8], from: usize) -> bool
    requires { (at ≤ length s.now) × Paired t.now from }
    ensures { (ps qs : Pairs) → Onward s.now at ps → Pairing t.now from qs → result ≡ held_in ps qs }
{
    let mut i = at;
    while let Some((n, v, e)) = field_objects::read_member(s, i, IN_FIELD) {
        if !pair_held(s, n.at, v, e, t, from) {
            return false;
        }
        let Tail::More(k) = json_values::closing(s, e, CLOSE_BRACE) else {
            return true;
        };
        i = k;
    }
    true
}

// `at` and `from` are just after the braces of the partition values of s and of t. Whether each pair of s is one of t.
fn pairs_held(s: &[u8], at: usize, t: &[u8], from: usize) -> bool
    requires { Paired s.now at × Paired t.now from }
    ensures { (ps qs : Pairs) → Pairing s.now at ps → Pairing t.now from qs → result ≡ held_in ps qs }
{
    match json_values::opening(s, at, CLOSE_BRACE) {
        Tail::More(first) => held_from(s, first, t, from),
        _ => true,
    }
}

// `at` and `from` are just after the braces of the partition values of s and of t. Whether both hold the same pairs.
pub fn same_pairs(s: &[u8], at: usize, t: &[u8], from: usize) -> bool
    requires { Paired s.now at × Paired t.now from }
    ensures { (ps qs : Pairs) → Pairing s.now at ps → Pairing t.now from qs → result ≡ agree_pairs ps qs }
{
    pairs_held(s, at, t, from) && pairs_held(t, from, s, at)
}
