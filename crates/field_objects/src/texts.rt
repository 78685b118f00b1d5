// A text that is one JSON object, and nothing more.
ghost use Rattle.rules.specs.Json.Values.{object_of};
ghost use Rattle.field_names.specs.Kinds.{names_of};
ghost use Rattle.field_objects.specs.Texts.{ObjectIs};

use crate::notes::Fields;
use crate::objects::scan;
use field_names::Kind;
use json_tokens::OPEN_BRACE;

// The object that the text is, with the places of the members that its kind names; values nest at most `depth` deep inside of it.
pub fn object_of(t: &[u8], kind: Kind, depth: usize) -> Option<Fields>
    ensures { ObjectIs (object_of depth t.now) t.now (names_of kind) result }
{
    let at = json_tokens::skip_byte(t, json_tokens::skip_ws(t, 0), OPEN_BRACE)?;
    let f = scan(t, at, kind, depth)?;
    let end = f.end;
    if json_tokens::skip_ws(t, end) < t.len() {
        return None;
    }
    Some(f)
}
