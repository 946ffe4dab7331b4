//! What a segment has.
ghost use Rattle.std.specs.Prelude.{IfErr, IfOk, ℕ};
ghost use Rattle.disk.specs.Calls.{IsUnchanged};
ghost use Rattle.disk.specs.States.{Files};
ghost use Rattle.journal.specs.Journals.{IsSound};
ghost use Rattle.record_store.specs.Names.{IsSegment};
ghost use Rattle.store_reading.specs.Damages.{IsDamagedArchive, OfLeft, Tells};
ghost use Rattle.store_upkeep.specs.Compaction.{shown};
ghost use Rattle.store_expiry.specs.Causes.{IsDamagedFile, IsExpireCause};
ghost use Rattle.store_expiry.specs.Surveys.{IsSurveyed, IsSurveyedAt};
ghost use Rattle.store_expiry.specs.declared.expired.Expired.{Expired as expired_Expired};

use crate::expired::Expired;
use crate::fault::ExpireFault;
use crate::tally::Tally;
use archive_streams::ArchiveEntries;
use disk::FileName;
use octet_devices::Input;
use sha2::{Digest, Sha256};
use std::alloc::Global;
use store_reading::{
    CheckFault, FileFault, HEX_LEN, Period, check_digest, hash_entry, hexadecimal,
};
use store_upkeep::{StreamDisk, check_fault, open_file};

/// What a segment has: its records, how many octets they take, and their SHA-256 in lower-case
/// hexadecimal.
#[derive(Drop)]
pub struct Survey {
    /// Its records.
    pub tally: Tally,
    /// Its octets.
    pub octets: u64,
    /// Their SHA-256.
    pub hex: [u8; HEX_LEN],
}

/// A segment that has an expired record.
#[derive(Drop)]
pub struct Found {
    /// What it is called after.
    pub period: Period,
    /// What it has.
    pub survey: Survey,
}

// Reads a segment of a period to its end: it must be an archive whose entries are all of the period.
fn survey_archive<R: Input>(
    alloc: Global,
    expired: &Expired,
    period: &Period,
    reader: &mut R,
) -> Result<Survey, CheckFault>
    ensures surveyed { IfOk result (IsSurveyed expired.now period.now (R.state reader.old)
        (R.state reader.new)) }
    ensures damaged { IfErr result (λ fault. OfLeft (R.state reader.old) (λ file.
        Tells fault (IsDamagedArchive period.now file))) }
{
    let mut entries = ArchiveEntries::new(alloc)?;
    let mut hasher = Sha256::new();
    let mut at: u64 = 0;
    let mut tally = Tally::new();
    'entries: while entries.next(reader)? {
        let entry = entries.entry();
        if !period.may_have(entry.instant) {
            return Err(CheckFault::Damaged(FileFault::OtherDay { at }));
        }
        at = at.saturating_add(hash_entry(&mut hasher, entry.octets));
        tally.add(expired.has(&entry));
    }
    Ok(Survey {
        tally,
        octets: at,
        hex: hexadecimal(hasher),
    })
}

// Why a segment was not read to its end, or is damaged.
fn survey_fault(alloc: Global, name: &FileName, fault: CheckFault) -> ExpireFault
    ensures { (x : expired_Expired) (files : Files) → Tells fault (IsDamagedFile files name.now) → (n : ℕ)
        → IsExpireCause x files n n result }
{
    match fault {
        CheckFault::Damaged(damage) => match name.copy(alloc) {
            Ok(name) => ExpireFault::Damaged { name, damage },
            Err(fault) => ExpireFault::from(fault),
        },
        CheckFault::Input(fault) => {
            ExpireFault::Store(check_fault(alloc, name, CheckFault::Input(fault)))
        }
        CheckFault::Memory => ExpireFault::Store(check_fault(alloc, name, CheckFault::Memory)),
    }
}

/// Reads a segment of a period to its end: it must be an archive whose entries are all of the period, and
/// its name must have the SHA-256 of its octets.
pub fn survey_segment<D: StreamDisk>(
    alloc: Global,
    disk: &mut D,
    expired: &Expired,
    name: &FileName,
    period: &Period,
) -> Result<Survey, ExpireFault>
    ensures surveyed { IfOk result (λ s. D.tells disk.new → IsSound (D.state disk.old)
        → IsSegment period.now name.now
        → IsSurveyedAt expired.now (shown (D.state disk.old)) name.now period.now s) }
    ensures cause { IfErr result (λ fault. D.tells disk.new → IsSound (D.state disk.old)
        → IsSegment period.now name.now → (n : ℕ)
        → IsExpireCause expired.now (shown (D.state disk.old)) n n fault) }
    ensures same { D.tells disk.new → IsUnchanged (D.state disk.old) (D.state disk.new) }
    ensures told { D.tells disk.new → D.tells disk.old }
{
    let mut file = open_file(alloc, disk, name)?;
    let found = match survey_archive(alloc, expired, period, &mut file) {
        Ok(found) => found,
        Err(fault) => return Err(survey_fault(alloc, name, fault)),
    };
    match check_digest(alloc, name.as_octets(), period, &found.hex) {
        Ok(()) => Ok(found),
        Err(fault) => Err(survey_fault(alloc, name, fault)),
    }
}
