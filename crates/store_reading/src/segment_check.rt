//! A segment is checked.
ghost use Rattle.std.specs.Prelude.{IfErr, IfOk, OnOk};
ghost use Rattle.store_reading.specs.Damages.{IsDamagedArchive, IsDamagedSegment, OfLeft, Tells};
ghost use Rattle.store_reading.specs.Segments.{IsHashed};
ghost use Rattle.store_reading.specs.Whole.{IsWholeSegment};

use crate::fault::{CheckFault, FileFault};
use crate::hashing::{HEX_LEN, check_digest, hash_entry, hexadecimal};
use crate::period::Period;
use archive_streams::ArchiveEntries;
use octet_devices::Input;
use sha2::{Digest, Sha256};
use std::alloc::Global;

/// Reads a segment of a period to its end, and hashes it: it must be an archive whose entries are all
/// of the period. Gives its SHA-256 in lower-case hexadecimal.
pub fn hash_segment<R: Input>(
    alloc: Global,
    period: &Period,
    reader: &mut R,
) -> Result<[u8; HEX_LEN], CheckFault>
    ensures hashed { IfOk result (λ hex. IsHashed period.now (R.state reader.old) (R.state reader.new)
        hex) }
    ensures damaged { IfErr result (λ fault. OfLeft (R.state reader.old) (λ file.
        Tells fault (IsDamagedArchive period.now file))) }
{
    let mut entries = ArchiveEntries::new(alloc)?;
    let mut hasher = Sha256::new();
    let mut at: u64 = 0;
    'entries: while entries.next(reader)? {
        let entry = entries.entry();
        if !period.may_have(entry.instant) {
            return Err(CheckFault::Damaged(FileFault::OtherDay { at }));
        }
        at = at.saturating_add(hash_entry(&mut hasher, entry.octets));
    }
    Ok(hexadecimal(hasher))
}

/// Reads a segment of a period, which has this name, to its end: it must be an archive whose entries
/// are all of the period, and its name must have the SHA-256 of its octets.
pub fn check_segment<R: Input>(
    alloc: Global,
    name: &[u8],
    period: &Period,
    reader: &mut R,
) -> Result<(), CheckFault>
    ensures whole { OnOk result (OfLeft (R.state reader.old) (IsWholeSegment period.now name.now)) }
    ensures damaged { IfErr result (λ fault. OfLeft (R.state reader.old) (λ file.
        Tells fault (IsDamagedSegment period.now name.now file))) }
{
    let hex = hash_segment(alloc, period, reader)?;
    check_digest(alloc, name, period, &hex)
}
