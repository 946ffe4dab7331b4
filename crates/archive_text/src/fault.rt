//! Why a text is no archive.

ghost use Rattle.std.specs.Prelude.{◌≡◌, ◌+◌, ◌-◌, ◌^◌, ◌<◌, ◌≤◌};
ghost use Rattle.archive_text.specs.Positions.{later, position_of};

use syslog_grammar::Fault;
use thiserror::Error;

/// Why octets are no entry of an archive.
#[derive(Clone, Copy, Debug, PartialEq, Eq, Error)]
pub enum EntryFault {
    /// The octets are no well-formed record. The offset of the fault counts from the first of them.
    #[error("{0}")]
    Bad(Fault),
    /// The octets are a record, but not its canonical form.
    #[error("not canonical")]
    NotCanonical,
}

/// Why a text is no archive. Positions count octets from the start of the text, from 0; `at` of the
/// last four is the position of the entry's first digit.
#[derive(Clone, Copy, Debug, PartialEq, Eq, Error)]
pub enum ArchiveFault {
    /// No MSG-LEN can continue with the octet there, or the text ends inside an entry.
    #[error("bad frame at {at}")]
    BadFrame { at: u64 },
    /// The entry has more octets than an archive allows.
    #[error("entry too long at {at}")]
    EntryTooLong { at: u64 },
    /// The octets of the entry are no record. The offset in `fault` counts from the first of them.
    #[error("bad entry at {at}: {fault}")]
    BadEntry { at: u64, fault: Fault },
    /// The octets of the entry are a record, but not its canonical form.
    #[error("not canonical at {at}")]
    NotCanonical { at: u64 },
    /// The entry is not above the one before it.
    #[error("not ascending at {at}")]
    NotAscending { at: u64 },
}

impl ArchiveFault {
    /// The same fault in a text that has `octets` octets before this one. A position that would
    /// exceed `u64::MAX` becomes that.
    pub fn later(self, octets: u64) -> ArchiveFault
        ensures fits { octets + position_of self < 2 ^ 64 → result ≡ later octets self }
        ensures passes { 2 ^ 64 ≤ octets + position_of self
            → result ≡ later (2 ^ 64 - 1 - position_of self) self }
    {
        match self {
            ArchiveFault::BadFrame { at } => ArchiveFault::BadFrame {
                at: at.saturating_add(octets),
            },
            ArchiveFault::EntryTooLong { at } => ArchiveFault::EntryTooLong {
                at: at.saturating_add(octets),
            },
            ArchiveFault::BadEntry { at, fault } => ArchiveFault::BadEntry {
                at: at.saturating_add(octets),
                fault,
            },
            ArchiveFault::NotCanonical { at } => ArchiveFault::NotCanonical {
                at: at.saturating_add(octets),
            },
            ArchiveFault::NotAscending { at } => ArchiveFault::NotAscending {
                at: at.saturating_add(octets),
            },
        }
    }
}
