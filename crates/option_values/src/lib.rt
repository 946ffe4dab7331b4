//! The tables of options and commands, and what the values of options say: numbers, times, and how frames are read.
//!
//! Each function reads values that `clap` has matched, as a function of the rows of a parse. A value
//! that is refused is told with the option that does not take it.
#![tactic(auto)]

mod clock_values;
pub mod commands;
mod given;
mod numbers;
mod option_row;
pub mod options;
mod reading_values;
mod time_values;

pub use given::{is_given, needed, value, values};
pub use numbers::{number, number_within, optional_number, size};
pub use option_row::{
    CommandRow, FILES_MAX, Form, Kind, OptionRow, PATTERN_MAX, Refusal, refusal_text,
};
pub use reading_values::reading_of_matches;
pub use time_values::optional_instant;
