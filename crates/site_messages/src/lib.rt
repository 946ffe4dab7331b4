//! The messages between two sites that are reconciled, octet by octet.
//!
//! A message is a line ([`Request`], [`Answer`]), and behind it the ranges, parts or records that the
//! line counts. What is read may be the front of a message alone: a [`Gap`] says how many octets are
//! lacking at least, or that none can make it a message.
#![tactic(auto)]

mod answer;
mod gap;
mod limits;
mod part_text;
mod place_text;
mod range_text;
mod record_text;
mod request;
mod values;
mod words;

pub use answer::{Answer, write_answer};
pub use gap::Gap;
pub use limits::{
    LINE_MAX, MESSAGE_MAX, MOST_MAX, MOST_MIN, PART_MAX, PARTS_MAX, PAYLOAD_MAX, PLACE_MAX,
    PUT_COST, PUTS_MAX, RANGES_MAX,
};
pub use part_text::{PartView, read_part, write_part, write_parts};
pub use range_text::{RangeView, range_size, read_range, write_range, write_ranges};
pub use record_text::{entry_size, write_entries};
pub use request::{Request, write_request};
pub use words::read_line;
