// Actions by the slots of their fields, in the order of the names of their kinds.
ghost use Rattle.std.specs.Prelude.{◌≡◌, [], ◌∷◌};
ghost use Rattle.rules.specs.Actions.{action};
ghost use Rattle.line_actions.specs.Begun.{Lined};
ghost use Rattle.line_actions.specs.Line.{ActionIs};

use crate::line::{Action, Added, Skipped, Stated, Tabled};
use field_objects::Slot;

// The facts of the file that is added.
pub fn add_in(
    s: &[u8],
    path: Slot,
    size: Slot,
    time: Slot,
    change: Slot,
    values: Slot,
    records: Slot,
) -> Option<Action>
    requires { Lined s.now 0 (path ∷ size ∷ time ∷ change ∷ values ∷ records ∷ []) }
    ensures { ActionIs (action s.now) s.now result }
{
    let _ = field_scalars::path_in(s, path)?;
    let size = field_scalars::whole_in(s, size)?;
    let time = field_scalars::whole_in(s, time)?;
    let _ = field_scalars::truth_in(s, change)?;
    let (values, usual) = field_containers::values_in(s, values)?;
    let records = field_scalars::records_in(s, records)?;
    Some(Action::Add(Added {
        path: path.start + 1,
        end: path.end - 1,
        size,
        time,
        records,
        values,
        usual,
    }))
}

// The path of the file that is removed.
pub fn remove_in(s: &[u8], path: Slot) -> Option<Action>
    requires { Lined s.now 1 (path ∷ []) }
    ensures { ActionIs (action s.now) s.now result }
{
    let p = field_scalars::path_in(s, path)?;
    Some(Action::Remove(p))
}

// The numbers and the features of a protocol.
pub fn protocol_in(
    s: &[u8],
    reader: Slot,
    writer: Slot,
    readers: Slot,
    writers: Slot,
) -> Option<Action>
    requires { Lined s.now 2 (reader ∷ writer ∷ readers ∷ writers ∷ []) }
    ensures { ActionIs (action s.now) s.now result }
{
    let reader = field_scalars::version_in(s, reader)?;
    let writer = field_scalars::version_in(s, writer)?;
    let (readers, readable) = field_containers::features_in(s, readers, false)?;
    let (writers, writable) = field_containers::features_in(s, writers, true)?;
    Some(Action::Protocol(Stated {
        reader,
        writer,
        reader_known: readable,
        writer_known: writable,
        reader_features: readers,
        writer_features: writers,
    }))
}

// The id and the partition columns of a table.
pub fn meta_data_in(s: &[u8], id: Slot, columns: Slot) -> Option<Action>
    requires { Lined s.now 3 (id ∷ columns ∷ []) }
    ensures { ActionIs (action s.now) s.now result }
{
    let (place, _) = field_scalars::some_string_in(s, id)?;
    let at = field_containers::columns_in(s, columns)?;
    Some(Action::MetaData(Tabled {
        id: place,
        columns: at,
    }))
}

// The path of the file that was skipped, how often, and when it may be tried again: at once, where nothing is said of that.
pub fn mergeskip_in(s: &[u8], path: Slot, count: Slot, retry: Slot) -> Option<Action>
    requires { Lined s.now 4 (path ∷ count ∷ retry ∷ []) }
    ensures { ActionIs (action s.now) s.now result }
{
    let path = field_scalars::path_in(s, path)?;
    let count = field_scalars::count_in(s, count)?;
    let retry = field_scalars::records_in(s, retry)?;
    Some(Action::Mergeskip(Skipped {
        path,
        count,
        retry: retry.unwrap_or(0),
    }))
}
