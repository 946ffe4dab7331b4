//! Proofs that a record is in an archive, or that it is not.

use archive_tree::AuditPath;

/// An entry beside the place of a record.
#[derive(Drop)]
pub struct Neighbour {
    /// The canonical octets of the entry.
    pub octets: Vec<u8>,
    /// Its audit path.
    pub path: AuditPath,
}

/// A proof that a record is in an archive, or that it is not.
#[derive(Drop)]
pub enum Proof {
    /// It is: the audit path of its entry.
    Present(AuditPath),
    /// It is not: the entries right before and right behind its place, if there are any.
    Absent(Option<Neighbour>, Option<Neighbour>),
}

/// What a proof shows.
#[derive(Clone, Copy, Debug, PartialEq, Eq)]
pub enum Answer {
    /// The record is in the archive.
    Present,
    /// The record is not in the archive.
    Absent,
    /// Neither.
    NotShown,
}
