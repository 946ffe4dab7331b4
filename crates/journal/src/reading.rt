//! The batches of a journal's file.
ghost use Rattle.std.specs.Prelude.{◌≡◌, ◌≤◌, ◌^◌, ◌++◌, length, List, ℕ, IfNone, IfOk, IfSome, IsErrOf, IsNone, Some};
ghost use Rattle.disk.specs.Calls.{AtMostSyncs, IsUnchanged};
ghost use Rattle.disk.specs.Memory.{shown_now};
ghost use Rattle.journal.specs.Batches.{BeginsWithBatch, IsClosed};
ghost use Rattle.journal.specs.Journals.{EndsAt, IsSound};

use crate::JournalFault;
use disk::{Disk, DiskFault, FileName};
use std::alloc::Global;

/// How many octets a journal may have at most to be opened.
pub const OPENED_MAX: usize = 1 << 40;

// the most octets that are asked for in a call
const PIECE: usize = 16_384;

// the octets before those of a batch
const HEAD: usize = 5;

// what opens a batch
const OPEN: u8 = 1;

/// How many octets the batch at the beginning has, without the five before them, if one is there
/// that is open and whole.
pub fn batch_len(octets: &[u8]) -> Option<usize>
    ensures found { IfSome result (λ len. BeginsWithBatch octets.now len) }
    ensures none { IfNone result (IsClosed octets.now) }
{
    if octets.len() < HEAD || octets[0] != OPEN {
        return None;
    }
    let len = u32::from_le_bytes([octets[1], octets[2], octets[3], octets[4]]) as usize;
    if len > octets.len() - HEAD {
        return None;
    }
    Some(len)
}

// where the batches end
pub(crate) fn end_of_batches(file: &[u8]) -> usize
    ensures within { result ≤ length file.now }
    ensures ends { (bodies : List (List ℕ)) × EndsAt file.now bodies result }
{
    let mut end = 0;
    while let Some(len) = batch_len(&file[end..]) {
        end += HEAD + len;
    }
    end
}

/// Reads the file of a journal. It changes nothing, and fails with the disk's fault, for lack of
/// memory or if the file is longer than any journal that is opened.
pub fn read_octets<D: Disk>(
    alloc: Global,
    disk: &mut D,
    name: &FileName,
) -> Result<Vec<u8>, JournalFault>
    ensures octets { IfOk result (λ v. D.tells disk.new → IsSound (D.state disk.old)
        → (file : List ℕ) → shown_now ((D.state disk.old).entries name.now) ≡ Some file
        → v.items ≡ file) }
    ensures same { D.tells disk.new → IsUnchanged (D.state disk.old) (D.state disk.new) }
    ensures syncs { AtMostSyncs 0 (D.syncs disk.old) (D.syncs disk.new) }
    ensures told { D.tells disk.new → D.tells disk.old }
    ensures failed { IsErrOf result (JournalFault.Disk DiskFault.Failed) → D.has_failed disk.new }
    ensures full { IsErrOf result (JournalFault.Disk DiskFault.Full) → D.has_failed disk.new }
    ensures missing { D.tells disk.new → IsErrOf result (JournalFault.Disk DiskFault.Missing)
        → IsNone ((D.state disk.old).entries name.now).now }
    ensures not_exists { D.tells disk.new → ¬ (IsErrOf result (JournalFault.Disk DiskFault.Exists)) }
    ensures too_long { D.tells disk.new → IsErrOf result JournalFault.TooLong
        → IsSound (D.state disk.old) → (file : List ℕ)
        → shown_now ((D.state disk.old).entries name.now) ≡ Some file → 2 ^ 40 ≤ length file }
{
    let mut octets = Vec::new(alloc);
    let mut piece = [0u8; PIECE];
    while octets.len() < OPENED_MAX {
        let n = disk.read(name, octets.len() as u64, &mut piece)?;
        if n == 0 {
            return Ok(octets);
        }
        octets.extend_from_slice(&piece[..n])?;
    }
    Err(JournalFault::TooLong)
}
