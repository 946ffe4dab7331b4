//! Whether octets are an entry.

ghost use Rattle.std.specs.Prelude.{IfErr, IfOk};
ghost use Rattle.archive_text.specs.Entries.{IsEntry};
ghost use Rattle.archive_streams.specs.Judging.{IsJudged};

use archive_text::{ArchiveFault, EntryFault, entry_of_octets};
use syslog_value::Instant;

/// The instant of the entry that the octets are. Positions of the fault count from the first digit
/// of the entry's length.
pub fn instant_of(octets: &[u8]) -> Result<Option<Instant>, ArchiveFault>
    ensures entry { IfOk result (λ i. IsEntry (record { instant = i; octets = octets.now })) }
    ensures fault { IfErr result (λ fault. IsJudged octets.now fault) }
{
    match entry_of_octets(octets) {
        Ok(entry) => Ok(entry.instant),
        Err(EntryFault::Bad(fault)) => Err(ArchiveFault::BadEntry { at: 0, fault }),
        Err(EntryFault::NotCanonical) => Err(ArchiveFault::NotCanonical { at: 0 }),
    }
}
