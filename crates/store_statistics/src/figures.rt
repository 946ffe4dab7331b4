//! What is told of a file.

use crate::tally::Tally;
use disk::FileName;

/// What is told of files: their records, and how many octets they have.
#[derive(Clone, Copy, Debug)]
pub struct Figures {
    /// Their records.
    pub tally: Tally,
    /// How many octets they have, at most as many as a count of 64 bits tells.
    pub octets: u64,
}

/// What is told of a file.
#[derive(Debug, Drop)]
pub struct FileFigures {
    /// Its name.
    pub name: FileName,
    /// What it has.
    pub figures: Figures,
}
