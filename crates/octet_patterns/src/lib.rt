//! Texts of octets that are like a pattern with `*` and `?`, or have others in them.
#![tactic(auto)]

mod glob;
mod occurrence;

pub use glob::is_like;
pub use occurrence::has_within;
