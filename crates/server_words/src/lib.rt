//! The words of `serve`: what a server listens on, and what it is to do.
//!
//! [`read_serve_words`] reads them from the values that `clap` has matched, as a function of the rows
//! of a parse.
#![tactic(auto)]

mod address;
mod listeners;
mod networks;
mod serve_words;

pub use listeners::{InheritedKind, ListenerWords};
pub use serve_words::{ServeOptions, ServeWords, read_serve_words};
