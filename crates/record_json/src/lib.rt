//! A syslog record as one line of JSON (RFC 8259), written straight from the octets that it was read from.
#![tactic(auto)]

mod data;
mod encoded;
mod escapes;
mod law;
mod line;
mod stops;
mod view_line;

pub use escapes::put_string;
pub use law::{a_line_has_one_line_feed, a_line_is_its_object, lines_are_injective};
pub use line::{LentParts, put_lent_line};
pub use view_line::put_json_line;
