//! The words of conditions on records: which times records may have, and the tests of their fields.
//!
//! [`read_conditions`] reads them from the values that `clap` has matched, as a function of the rows
//! of a parse.
#![tactic(auto)]

mod conditions;
mod tests_asked;
mod times;
mod word_tests;

pub use conditions::read_conditions;
