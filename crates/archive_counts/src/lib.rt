//! The records of an archive, counted by what they have in their fields: how many there are of each
//! host, severity or hour, how many octets their archive has, and from when to when they are.
//!
//! [`count_stream`] writes a line for each key as the archive is read from a device.
#![tactic(auto)]

mod bars;
mod count;
mod counting;
mod header;
mod json_lines;
mod key;
mod laws;
mod line;
mod options;
mod order;
mod rows;
mod table;
mod tally;
mod words;

pub use archive_sets::SelectFault as CountFault;
pub use count::count_stream;
pub use key::CountKey;
pub use laws::counts_are_one;
pub use options::{CountForm, CountOptions};
