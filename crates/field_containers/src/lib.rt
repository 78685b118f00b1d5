// Fields that hold others: arrays of strings, partition values, features, columns.
#![tactic(auto)]

mod features;
mod fitting;
mod lists;
mod nested;

pub use features::{all_known, features_in};
pub use fitting::{keys_fit, usual_fit};
pub use lists::{distinct_strings, holds_string, same_lists, strings_in};
pub use nested::{IN_FIELD, Usual, columns_in, values_in};
