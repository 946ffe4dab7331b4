use archive_text::ArchiveFault;
use thiserror::Error;

/// What is wrong with a journal's octets. Positions count octets from the start of the journal.
#[derive(Clone, Copy, Debug, PartialEq, Eq, Error)]
pub enum JournalDamage {
    /// A batch has something else where an entry has to be.
    #[error("{0}")]
    Archive(ArchiveFault),
    /// What is behind the entries of a batch is not their seal; or nothing is, though a batch before has
    /// its seal.
    #[error("another checksum at {at}")]
    Checksum { at: u64 },
    /// What is behind the batches hides others, or may.
    #[error("a batch that is not open at {at}")]
    Hidden { at: u64 },
}
