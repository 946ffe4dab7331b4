//! How far an input was read, as a line that is drawn over itself on a terminal.
//!
//! [`Progress`] counts, and is told the time by its caller. It says when a line is due, which octets draw
//! the line, and which clear it. It reads no clock and writes nowhere.
#![tactic(auto)]

mod line;
mod pace;
#[cfg(test)]
mod tests;
mod unit;

pub use pace::{LINE_MICROS, Progress};
pub use unit::ProgressUnit;
