//! The octets of a journal.
ghost use Rattle.std.specs.Prelude.{◌≡◌, ◌↔◌, ◌++◌, IfErr, IfNone, IfOk, IfSome, IsSomeAnd, IsTrue, Some};
ghost use Rattle.journal.specs.Batches.{IsBody, IsClosed, open_batch};
ghost use Rattle.store_reading.specs.Causes.{IsCause, open_causes};
ghost use Rattle.store_reading.specs.Damages.{HidesNothing, IsHiddenAt, Tells};
ghost use Rattle.store_reading.specs.Journals.{GivesAll, IsJournalFile};

use crate::fault::{CheckFault, ReadFault};
use crate::folder::Folder;
use crate::segment::open_file;
use archive_streams::InputFault;
use disk::FileName;
use journal::batch_len;
use octet_devices::{Input, ReadAllFault, read_all};
use record_store::hides_batches;
use std::alloc::Global;

// the most octets of a journal that is read
const JOURNAL_MAX: usize = 1 << 40;

// the octets before those of a batch
const HEAD: usize = 5;

/// A journal that was read.
#[derive(Debug, Drop)]
pub enum JournalFile {
    /// Its octets.
    Octets(Vec<u8>),
    /// What is behind its batches, from this position on, hides others.
    Hidden { at: u64 },
}

/// The first batch of a journal's octets, and what is behind it; None if no batch there is open and
/// whole.
pub(crate) fn first_batch(octets: &[u8]) -> Option<(&[u8], &[u8])>
    ensures some { IfSome result (λ r. IsBody r.0.now
        × (octets.now ≡ open_batch r.0.now ++ r.1.now)) }
    ensures none { IfNone result (IsClosed octets.now) }
{
    let len = batch_len(octets)?;
    let (_, behind) = octets.split_at(HEAD);
    Some(behind.split_at(len))
}

// Where what is behind the batches of a journal begins, if that hides others.
fn hidden_at(octets: &[u8]) -> Option<u64>
    ensures some { IfSome result (IsHiddenAt octets.now) }
    ensures none { IfNone result (HidesNothing octets.now) }
{
    let mut rest = octets;
    'batches: while let Some((_, behind)) = first_batch(rest) {
        rest = behind;
    }
    if !hides_batches(rest) {
        return None;
    }
    Some((octets.len() as u64).saturating_sub(rest.len() as u64))
}

// Reads all octets of a journal.
fn read_octets<R: Input>(alloc: Global, reader: &mut R) -> Result<Vec<u8>, CheckFault>
    ensures given { IfOk result (λ v. GivesAll (R.state reader.old) (R.state reader.new) v.items) }
    ensures not_damaged { IfErr result (λ fault. Tells fault (λ damage. ⊥)) }
{
    match read_all(alloc, reader, JOURNAL_MAX) {
        Ok(octets) => {
            if octets.len() < JOURNAL_MAX {
                return Ok(octets);
            }
            Err(CheckFault::Input(InputFault::Endless))
        }
        Err(ReadAllFault::Device) => Err(CheckFault::Input(InputFault::Device)),
        Err(ReadAllFault::Endless) => Err(CheckFault::Input(InputFault::Endless)),
        Err(ReadAllFault::Memory) => Err(CheckFault::Memory),
    }
}

// Reads the file of a name.
fn read_file<F: Folder>(
    alloc: Global,
    folder: &mut F,
    name: &FileName,
) -> Result<Vec<u8>, ReadFault>
    ensures given { F.tells folder.new → IfOk result (λ v.
        IsSomeAnd (F.files folder.old name.now) (λ file. v.items ≡ file)) }
    ensures same { F.tells folder.new → F.files folder.new ≡ F.files folder.old }
    ensures told { F.tells folder.new → F.tells folder.old }
    ensures cause { IfErr result (IsCause (open_causes (F.has_failed folder.new) name.now)) }
{
    let mut file = open_file(alloc, folder, name)?;
    match read_octets(alloc, &mut file) {
        Ok(octets) => Ok(octets),
        Err(fault) => Err(fault.of(name.copy(alloc)?)),
    }
}

// Whether a position was found again.
fn is_again(found: Option<u64>, at: u64) -> bool
    ensures { IsTrue result ↔ (found ≡ Some at) }
{
    match found {
        Some(other) => other == at,
        None => false,
    }
}

/// Reads a journal. If what is behind its batches seems to hide others, it is read once more: a server
/// may have opened a batch meanwhile, of which only what comes behind it was seen.
///
/// # Errors
/// `Gone` if there is none, lack of memory, the folder's fault, or the file gave no end, or more than 2^40
/// octets.
pub fn read_journal<F: Folder>(
    alloc: Global,
    folder: &mut F,
    name: &FileName,
) -> Result<JournalFile, ReadFault>
    // its octets, behind whose batches nothing is hidden; or where something is
    ensures read { F.tells folder.new → IfOk result (λ found.
        IsSomeAnd (F.files folder.old name.now) (IsJournalFile found)) }
    ensures same { F.tells folder.new → F.files folder.new ≡ F.files folder.old }
    ensures told { F.tells folder.new → F.tells folder.old }
    ensures cause { IfErr result (IsCause (open_causes (F.has_failed folder.new) name.now)) }
{
    let octets = read_file(alloc, folder, name)?;
    let Some(at) = hidden_at(&octets) else {
        return Ok(JournalFile::Octets(octets));
    };
    let again = read_file(alloc, folder, name)?;
    if is_again(hidden_at(&again), at) {
        return Ok(JournalFile::Hidden { at });
    }
    Ok(JournalFile::Octets(again))
}
