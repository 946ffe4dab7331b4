//! Records that are asked for.

ghost use Rattle.std.specs.Prelude.{◌≡◌, IfOk, MatchResult};
ghost use Rattle.archive_text.specs.EntryViews.{entry_of};
ghost use Rattle.archive_proof.specs.Asking.{IsAsked, IsAskFault, asked_entry};

use archive_text::EntryView;
use std::alloc::Global;
use syslog_grammar::{Fault, view, write_canonical_view};
use syslog_value::Instant;
use thiserror::Error;

/// A record that is asked for, as the entry that it is in an archive.
#[derive(Drop)]
pub struct AskedRecord {
    /// The instant of its TIMESTAMP (RFC 5424, section 6.2.3); None for NILVALUE.
    pub instant: Option<Instant>,
    /// Its canonical octets.
    pub octets: Vec<u8>,
}

/// Why octets were not read as a record.
#[derive(Clone, Copy, Debug, PartialEq, Eq, Error)]
pub enum AskFault {
    /// They are no well-formed record. The offset of the fault counts from the first of them.
    #[error("{0}")]
    Bad(Fault),
    /// An allocation failed.
    #[error("out of memory")]
    Memory,
}

impl AskedRecord {
    /// The record that octets are, in whichever spelling. It fails as the variants of [`AskFault`] say.
    pub fn read(alloc: Global, octets: &[u8]) -> Result<AskedRecord, AskFault>
        ensures record_is { IfOk result (λ asked. IsAsked octets.now (asked_entry asked)) }
        ensures fault { MatchResult result (λ _. Unit {0}) (IsAskFault octets.now) }
    {
        let seen = match view(octets) {
            Ok(seen) => seen,
            Err(fault) => return Err(AskFault::Bad(fault)),
        };
        let mut canonical = Vec::new(alloc);
        if write_canonical_view(alloc, &seen, &mut canonical).is_err() {
            return Err(AskFault::Memory);
        }
        Ok(AskedRecord {
            instant: seen.instant(),
            octets: canonical,
        })
    }

    /// The entry that the record is in an archive.
    pub fn entry(&self) -> EntryView<'_>
        ensures { entry_of result ≡ asked_entry self.now }
    {
        EntryView {
            instant: self.instant,
            octets: self.octets.as_slice(),
        }
    }
}
