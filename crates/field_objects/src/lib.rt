// The members of JSON objects by their names, in one pass over a lent text.
#![tactic(auto)]

mod lookup;
mod notes;
mod objects;
mod texts;

pub use lookup::find_name;
pub use notes::{Fields, Slot};
pub use objects::{distinct_names, read_member, same_names, scan};
pub use texts::object_of;
