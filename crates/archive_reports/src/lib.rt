//! What a command tells of a text that is no archive: [`report_archive_fault`].
#![tactic(auto)]

mod line;

pub use line::report_archive_fault;
