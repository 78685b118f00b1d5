// What a state manifest says of a column's values: the least and the greatest, where both are stated.
ghost use Rattle.std.specs.Prelude.{◌≡◌};
ghost use Rattle.rules.specs.Manifests.{bounds_of};
ghost use Rattle.field_scalars.specs.Inside.{Inside};
ghost use Rattle.manifest_state.specs.Ranges.{optional_string_in, BoundIs, RangeIs};

use field_names::Kind;
use field_objects::Slot;

// How deep values may nest inside of the object of a column.
const IN_COLUMN: usize = 27;

// The string of a field.
fn bound_in(t: &[u8], slot: Slot) -> Option<Option<usize>>
    requires { Inside t.now slot }
    ensures { BoundIs (optional_string_in t.now slot) t.now result }
{
    let Some((v, e)) = field_scalars::optional_in(t, slot)? else {
        return Some(None);
    };
    let (p, _) = field_scalars::string_at(t, v, e)?;
    Some(Some(p))
}

// The bounds that the text of a column's value says.
pub fn range_of(t: &[u8]) -> Option<Option<(usize, usize)>>
    ensures { RangeIs (bounds_of t.now) t.now result }
{
    let f = field_objects::object_of(t, Kind::Bounds, IN_COLUMN)?;
    let min = bound_in(t, f.slots[0])?;
    let max = bound_in(t, f.slots[1])?;
    Some(min.zip(max))
}
