// Queries: conditions on partition columns, read from their text in place.
#![tactic(auto)]

mod conditions;
mod members;
mod reading;
mod words;

pub use conditions::{Condition, condition_at};
pub use reading::{Query, read};
pub use words::{As, Op, fit_at, kind_at, numeral_in, operator_at};

// How deep values may nest inside of an array and an object.
const IN_CONDITION: usize = 30;
