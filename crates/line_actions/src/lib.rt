// What a line of a log says: its action, with the facts that the fields of the action state.
#![tactic(auto)]

mod acts;
mod asked;
mod line;

pub use asked::{add_of, protocol_of, speaks, table_of};
pub use line::{Action, Added, IN_LINE, Skipped, Stated, Tabled, classify};
