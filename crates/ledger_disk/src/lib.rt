//! A disk that keeps the ledger of a store: [`LedgerDisk`] writes a line for each segment that gets its
//! name, once that is on the disk, and for each that goes, before it is removed. What gives names and
//! takes files away need not know of it.
//!
//! Lines are written in [`Turns`], since several processes write to one ledger. What a line costs does
//! not grow with the ledger: its end alone is read.
#![tactic(auto)]

mod appending;
mod counting;
mod fault;
mod keeper;
mod ledger_disk;
mod purpose;
mod reading;
mod removing;
mod segments;
mod streams;
mod tail;
mod turns;
mod writer;

pub use fault::ListFault;
pub use ledger_disk::LedgerDisk;
pub use purpose::Purpose;
pub use turns::{TIME_LEN, Turns};
