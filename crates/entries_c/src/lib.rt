// The entries for firmware that is not Rattle, over C's calling convention: a slice is a pointer and a length, an answer a struct by value.
// include/kerumpase.h declares them.
#![tactic(auto)]

mod cleans;
mod codes;
mod reads;
mod shows;
mod states;

pub use cleans::kerumpase_clean;
pub use codes::{Counted, Refused};
pub use reads::{FilesListed, kerumpase_read_at, kerumpase_read_due, kerumpase_read_latest};
pub use shows::{Place, RecordsShown, kerumpase_path_of, kerumpase_records_of};
pub use states::{DirectoryShown, kerumpase_directory, kerumpase_keep};
