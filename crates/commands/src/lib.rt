//! What the program does with its arguments, over any devices and files.
//!
//! [`run`] reads the arguments, and runs the command that they ask for; [`run_request`] runs that of
//! a request. [`Files`] finds readers by name; [`MemoryFiles`] holds files in memory, for tests.
#![tactic(auto)]

mod files;
mod joining;
mod memory;
mod proving;
mod running;

pub use files::Files;
pub use memory::{MemoryFile, MemoryFiles};
pub use running::{answer_words_fault, run, run_request};
