//! The records of a segment are counted.
ghost use Rattle.std.specs.Prelude.{IfErr, IfOk, length};
ghost use Rattle.syslog_frame.specs.Frames.{framed};
ghost use Rattle.syslog_frame.specs.declared.framing.Framing.TheVariants.{Counted};
ghost use Rattle.std.specs.Prelude.{◌≡◌};
ghost use Rattle.store_reading.specs.Damages.{IsDamagedArchive, OfLeft, Tells, position};
ghost use Rattle.store_statistics.specs.Files.{IsSegmentWith};

use crate::figures::Figures;
use crate::tally::Tally;
use archive_streams::ArchiveEntries;
use itoa::Buffer;
use octet_devices::Input;
use std::alloc::Global;
use store_reading::{CheckFault, FileFault, Period};

// How many octets the text of an entry has.
fn entry_len(octets: &[u8]) -> u64
    ensures { result ≡ position (length (framed Counted octets.now)) }
{
    let digits = Buffer::new().format(octets.len()).len();
    (octets.len() as u64).saturating_add(digits as u64 + 1)
}

/// Reads a segment of a period to its end: it must be an archive whose entries are all of the period.
pub fn count_segment<R: Input>(
    alloc: Global,
    period: &Period,
    reader: &mut R,
) -> Result<Figures, CheckFault>
    ensures counted { IfOk result (λ figures. OfLeft (R.state reader.old) (λ file.
        IsSegmentWith period.now file figures)) }
    ensures damaged { IfErr result (λ fault. OfLeft (R.state reader.old) (λ file.
        Tells fault (IsDamagedArchive period.now file))) }
{
    let mut entries = ArchiveEntries::new(alloc)?;
    let mut at: u64 = 0;
    let mut tally = Tally::new();
    'entries: while entries.next(reader)? {
        let entry = entries.entry();
        if !period.may_have(entry.instant) {
            return Err(CheckFault::Damaged(FileFault::OtherDay { at }));
        }
        at = at.saturating_add(entry_len(entry.octets));
        tally.add(&entry);
    }
    Ok(Figures { tally, octets: at })
}
