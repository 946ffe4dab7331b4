//! The fields of a syslog record as octets (RFC 5424, section 6): priorities, timestamps, words, names and values are
//! read where they stand, and the escapes of a value are taken out.
#![tactic(auto)]

pub mod appending;
pub mod backslash;
mod character;
pub mod lanes;
pub mod name;
pub mod near;
pub mod priority;
pub mod reading;
pub mod text;
pub mod timestamp;
pub mod unescape;
pub mod value;
pub mod word;
