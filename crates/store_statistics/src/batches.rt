//! The records of a journal are counted.
ghost use Rattle.std.specs.Prelude.{◌≡◌, ◌<◌, ◌^◌, ◌++◌, IfErr, IfNone, IfOk, IfSome, List, ℕ, length};
ghost use Rattle.journal.specs.Batches.{IsBody, IsClosed, open_batch};
ghost use Rattle.archive_text.specs.Entries.{Entry};
ghost use Rattle.record_store.specs.Holdings.{IsBatch};
ghost use Rattle.store_reading.specs.Damages.{IsDamagedJournal, Tells};
ghost use Rattle.store_reading.specs.Journals.{IsJournalFile};
ghost use Rattle.store_statistics.specs.Files.{AreOfJournal, IsJournalWith};
ghost use Rattle.store_statistics.specs.Tallies.{IsTallyOf};

use crate::figures::Figures;
use crate::tally::Tally;
use archive_text::{ENTRY_MAX, read_entry};
use journal::batch_len;
use record_store::{JournalDamage, has_entry};
use std::alloc::Global;
use store_reading::{CheckFault, FileFault, JournalFile, check_journal};

// the octets before those of a batch
const HEAD: usize = 5;

// The first batch of a journal's octets, and what is behind it; None if no batch there is open and whole.
fn first_batch(octets: &[u8]) -> Option<(&[u8], &[u8])>
    ensures some { IfSome result (λ r. IsBody r.0.now
        × (octets.now ≡ open_batch r.0.now ++ r.1.now)) }
    ensures none { IfNone result (IsClosed octets.now) }
{
    let len = batch_len(octets)?;
    let (_, behind) = octets.split_at(HEAD);
    Some(behind.split_at(len))
}

// The entries of a batch are counted, one behind the other.
fn count_batch(body: &[u8], tally: &mut Tally)
    ensures { (before es : List Entry) → IsBatch es body.now → IsTallyOf tally.old before
        → IsTallyOf tally.new (before ++ es) }
{
    let mut rest = body;
    'entries: while has_entry(rest) {
        let Ok((entry, behind)) = read_entry(ENTRY_MAX as u64, rest) else {
            return;
        };
        tally.add(&entry);
        rest = behind;
    }
}

// The entries of all batches of a journal.
fn count_batches(file: &[u8]) -> Tally
    ensures { (es : List Entry) → AreOfJournal file.now es → IsTallyOf result es }
{
    let mut rest = file;
    let mut tally = Tally::new();
    'batches: while let Some((body, behind)) = first_batch(rest) {
        count_batch(body, &mut tally);
        rest = behind;
    }
    tally
}

// The figures of a journal of these octets.
fn figures_of(file: &[u8]) -> Figures
    ensures tally { (es : List Entry) → AreOfJournal file.now es → IsTallyOf result.tally es }
    ensures octets { result.octets ≡ length file.now }
    ensures short { length file.now < 2 ^ 64 }
{
    Figures {
        tally: count_batches(file),
        octets: file.len() as u64,
    }
}

/// Checks a journal that was read, as `check_journal` does, and counts the entries of its batches.
pub fn count_journal(alloc: Global, journal: &JournalFile) -> Result<Figures, CheckFault>
    ensures counted { IfOk result (λ figures. (file : List ℕ) → IsJournalFile journal.now file
        → IsJournalWith file figures) }
    ensures damaged { IfErr result (λ fault. (file : List ℕ) → IsJournalFile journal.now file
        → Tells fault (IsDamagedJournal file)) }
{
    check_journal(alloc, journal)?;
    match journal {
        JournalFile::Octets(octets) => Ok(figures_of(octets)),
        JournalFile::Hidden { at } => Err(CheckFault::Damaged(FileFault::Journal(
            JournalDamage::Hidden { at: *at },
        ))),
    }
}
