//! A sorted archive in memory: a finite set of syslog records, each kept as its canonical octets.
//!
//! [`VecArchive`] is a [`archive_text::Store`]. [`VecArchive::read`] reads one from the text of an
//! archive, and [`merge`] makes one of two.
#![tactic(auto)]

mod entry_list;
mod merging;
mod reading;
mod span;
mod store;
mod vec_archive;
mod writing;

pub use reading::ReadFault;
pub use vec_archive::{VecArchive, merge};
