// The names of members: read as they stand, compared, and known by their place among the names of their kind of object.
#![tactic(auto)]

mod keys;
mod kinds;
mod places;

pub use keys::{Spell, name_is, read_name};
pub use kinds::{Kind, names_in};
pub use places::{read_known, which};
