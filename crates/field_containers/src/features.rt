// The features of a protocol: an array of strings, and whether all of them are known.
ghost use Rattle.std.specs.Prelude.{◌≡◌, List, ◌≤◌, length};
ghost use Rattle.rules.specs.Bytes.{Bytes, holds, all_among};
ghost use Rattle.rules.specs.Gate.{reader_names, writer_names};
ghost use Rattle.field_names.specs.Spelled.{name_in, Named};
ghost use Rattle.field_scalars.specs.Inside.{Proper};
ghost use Rattle.field_containers.specs.Strung.{Listed, IsList};
ghost use Rattle.field_containers.specs.Featured.{known_names, features_in, FeaturesIs};

use crate::nested::array_at;
use field_names::Spell;
use field_objects::Slot;
use json_tokens::CLOSE_BRACKET;
use json_values::Tail;

// Whether the name is a feature that readers know.
fn reader_knows(s: &[u8], n: Spell) -> bool
    requires { Named s.now n }
    ensures { result ≡ holds (name_in s.now n) reader_names }
{
    field_names::name_is(s, n, b"skippedFiles")
        || field_names::name_is(s, n, b"extendedMetadata")
        || field_names::name_is(s, n, b"footerOffsets")
        || field_names::name_is(s, n, b"schemaDeduplication")
}

// Whether the name is a feature that writers know.
fn writer_knows(s: &[u8], n: Spell) -> bool
    requires { Named s.now n }
    ensures { result ≡ holds (name_in s.now n) writer_names }
{
    field_names::name_is(s, n, b"checkpoint")
        || field_names::name_is(s, n, b"optimizeWrite")
        || reader_knows(s, n)
}

// Whether the name is a feature that is known: to writers, or to readers.
fn is_known(s: &[u8], n: Spell, writer: bool) -> bool
    requires { Named s.now n }
    ensures { result ≡ holds (name_in s.now n) (known_names writer) }
{
    if writer {
        writer_knows(s, n)
    } else {
        reader_knows(s, n)
    }
}

// `at` is just after the bracket of an array of strings. Whether each of them names a known feature: of writers, or of readers.
pub fn all_known(s: &[u8], at: usize, writer: bool) -> bool
    requires { (at ≤ length s.now) × IsList s.now at }
    ensures { (ss : List Bytes) → Listed s.now at ss → result ≡ all_among (known_names writer) ss }
{
    match json_values::opening(s, at, CLOSE_BRACKET) {
        Tail::Neither => true,
        Tail::Closed(_) => true,
        Tail::More(first) => {
            let mut i = first;
            loop {
                let Some(n) = field_names::read_name(s, i) else {
                    return true;
                };
                if is_known(s, n, writer) {
                    let end = n.end;
                    match json_values::closing(s, end, CLOSE_BRACKET) {
                        Tail::Neither => return true,
                        Tail::Closed(_) => return true,
                        Tail::More(k) => i = k,
                    }
                } else {
                    return false;
                }
            }
        }
    }
}

// The features of a field that may be missing or null, which are alike; known to writers, or to readers.
pub fn features_in(s: &[u8], slot: Slot, writer: bool) -> Option<(usize, bool)>
    requires { Proper s.now slot }
    ensures { FeaturesIs (features_in s.now slot) s.now writer result }
{
    let Some((v, e)) = field_scalars::optional_in(s, slot)? else {
        return Some((0, true));
    };
    let (at, _) = array_at(s, v, e)?;
    Some((at, all_known(s, at, writer)))
}
