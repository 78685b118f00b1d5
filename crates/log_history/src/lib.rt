// The state of a log at a version, and at the latest one: version 0, the start, and the version files behind it.
#![tactic(auto)]

mod history;
mod latest;

pub use history::{follow, onward, state_at};
pub use latest::{Latest, state_at_latest};
