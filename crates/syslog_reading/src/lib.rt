//! What octets are as a syslog record (RFC 5424, section 6): a view that lends its parts, a record
//! with memory of its own, or the fault with its field and octet.
#![tactic(auto)]

mod decoding;
mod distinct;
mod element;
mod fault;
mod few_ids;
pub mod first_element;
mod header;
mod id_hash;
mod id_keys;
mod id_table;
mod message;
mod owned;
mod parts;
mod record_view;
pub mod repeated;
mod same;
mod structured_data;
pub mod syntax;
pub mod whole;

pub use decoding::{DecodeFault, decode};
pub use element::{ElementView, ParamView};
pub use fault::{Fault, Field};
pub use message::MessageView;
pub use owned::{known_word, to_message, to_word};
pub use parts::{Elements, Params};
pub use record_view::RecordView;
pub use same::same_value;
