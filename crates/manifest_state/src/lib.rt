// State manifests: what the text of one says, its manifests with the bounds of their columns.
#![tactic(auto)]

mod bounds;
mod columns;
mod states;

pub use bounds::range_of;
pub use columns::IN_BOUNDS;
pub use states::{array_in, manifest_of};
