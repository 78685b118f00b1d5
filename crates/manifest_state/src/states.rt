// The manifests of a state manifest: where their array stands, and what the text of one of them says.
ghost use Rattle.rules.specs.Manifests.{manifest_of, manifests};
ghost use Rattle.field_scalars.specs.Inside.{Inside};
ghost use Rattle.manifest_state.specs.States.{columns_stated, StatedIs, ManifestIs, ArrayIs};

use crate::columns::columns_of;
use field_names::Kind;
use field_objects::Slot;

// How deep values may nest inside of the state manifest, and inside of a manifest.
const IN_STATE: usize = 31;

const IN_MANIFEST: usize = 29;

// ---- a manifest

// The columns of a field.
fn columns_stated(t: &[u8], slot: Slot) -> Option<Option<(usize, usize, usize)>>
    requires { Inside t.now slot }
    ensures { StatedIs (columns_stated t.now slot) t.now result }
{
    let Some((v, e)) = field_scalars::optional_in(t, slot)? else {
        return Some(None);
    };
    let at = columns_of(&t[v..e])?;
    Some(Some((v, e, at)))
}

// The manifest that the text is, by its columns.
pub fn manifest_of(t: &[u8]) -> Option<Option<(usize, usize, usize)>>
    ensures { ManifestIs (manifest_of t.now) t.now result }
{
    let f = field_objects::object_of(t, Kind::Manifest, IN_MANIFEST)?;
    field_scalars::some_string_in(t, f.slots[0])?;
    columns_stated(t, f.slots[1])
}

// ---- the state manifest

pub fn array_in(s: &[u8]) -> Option<(usize, usize)>
    ensures { ArrayIs (manifests s.now) s.now result }
{
    let f = field_objects::object_of(s, Kind::State, IN_STATE)?;
    let slot = f.slots[0];
    if slot.seen != 1 {
        return None;
    }
    Some((slot.start, slot.end))
}
