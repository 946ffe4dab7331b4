//! `show` on a terminal: each line of a record between the sequences of its severity's color.
//!
//! [`ColoredShow`] writes what `Show` writes, octet for octet, but for these sequences. `Show` escapes
//! each octet of a record that is not printable, so no sequence of a record reaches the terminal.
#![tactic(auto)]

mod color;
mod colored_show;
mod coloring;
mod painting;

pub use colored_show::ColoredShow;
