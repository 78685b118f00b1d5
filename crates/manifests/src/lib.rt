// Manifests: which of a state manifest's a query keeps, and the directory in which one lies.
#![tactic(auto)]

mod directories;
mod judging;
mod keeping;
mod notes;

pub use directories::directory;
pub use judging::judge;
pub use keeping::keep;
pub use notes::note_array;
