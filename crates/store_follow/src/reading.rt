//! Batches are read, one at a time.
ghost use Rattle.std.specs.Prelude.{◌≡◌, ◌≢◌, ◌+◌, ◌^◌, ◌<◌, ◌≤◌, drop, take, List, ℕ, length};
ghost use Rattle.std.specs.Prelude.{false, true};
ghost use Rattle.std.specs.Prelude.{IfErr, IfNone, IfOk, IfSome, IsErrOf, IsNone, IsSome, Some};
ghost use Rattle.disk.specs.Calls.{IsUnchanged};
ghost use Rattle.disk.specs.Memory.{shown_now};
ghost use Rattle.journal.specs.Batches.{IsClosed};
ghost use Rattle.journal.specs.Journals.{IsSound};

use crate::batch::HEAD;
use crate::fault::BatchFault;
use disk::{Disk, DiskFault, FileName};
use std::alloc::Global;

/// How many octets a batch has at most that is followed, its seal among them.
pub const BATCH_MAX: usize = 1 << 30;

// the most octets that are asked for in a call
const PIECE: usize = 16_384;

// no offset that is read is behind this one
const AT_MAX: u64 = 1 << 62;

// what opens a batch
const OPEN: u8 = 1;

// the octet before a batch that is not open, and the one that older programs wrote
const CLOSED: u8 = 254;

const OLDER_CLOSED: u8 = 0;

// Reads the octets of a file from an offset on: so many, or fewer where it ends.
fn read_at<D: Disk>(
    alloc: Global,
    disk: &mut D,
    name: &FileName,
    at: u64,
    len: usize,
) -> Result<Vec<u8>, DiskFault>
    requires small { at < 2 ^ 62 }
    requires fits { len < 2 ^ 32 }
    ensures octets { IfOk result (λ v. D.tells disk.new → IsSound (D.state disk.old)
        → (file : List ℕ) → shown_now ((D.state disk.old).entries name.now) ≡ Some file
        → v.items ≡ take len (drop at file)) }
    ensures within { IfOk result (λ v. length v.items ≤ len) }
    ensures there { 0 < len → IfOk result (λ v. D.tells disk.new → IsSound (D.state disk.old)
        → IsSome ((D.state disk.old).entries name.now).now) }
    ensures same { D.tells disk.new → IsUnchanged (D.state disk.old) (D.state disk.new) }
    ensures told { D.tells disk.new → D.tells disk.old }
    ensures missing { D.tells disk.new → IsErrOf result DiskFault.Missing
        → IsNone ((D.state disk.old).entries name.now).now }
{
    let mut octets = Vec::new(alloc);
    let mut piece = [0u8; PIECE];
    while octets.len() < len {
        let wanted = (len - octets.len()).min(PIECE);
        let n = disk.read(name, at + octets.len() as u64, &mut piece[..wanted])?;
        if n == 0 {
            return Ok(octets);
        }
        octets.extend_from_slice(&piece[..n])?;
    }
    Ok(octets)
}

/// Whether a file ends before an offset. One that is not there does not.
///
/// # Errors
/// The disk's fault; `Failed` too for an offset behind those that a file has.
pub(crate) fn is_shorter<D: Disk>(
    alloc: Global,
    disk: &mut D,
    name: &FileName,
    at: u64,
) -> Result<bool, DiskFault>
    ensures shorter { IfOk result (λ shorter. shorter ≡ true → D.tells disk.new → IsSound (D.state disk.old)
        → (file : List ℕ) × (shown_now ((D.state disk.old).entries name.now) ≡ Some file)
        × (length file < at)) }
    ensures reaches { IfOk result (λ shorter. shorter ≡ false → D.tells disk.new → IsSound (D.state disk.old)
        → (file : List ℕ) → shown_now ((D.state disk.old).entries name.now) ≡ Some file
        → at ≤ length file) }
    ensures same { D.tells disk.new → IsUnchanged (D.state disk.old) (D.state disk.new) }
    ensures told { D.tells disk.new → D.tells disk.old }
{
    if at == 0 {
        return Ok(false);
    }
    if at > AT_MAX {
        return Err(DiskFault::Failed);
    }
    match read_at(alloc, disk, name, at - 1, 1) {
        Ok(octets) => Ok(octets.is_empty()),
        Err(DiskFault::Missing) => Ok(false),
        Err(fault) => Err(fault),
    }
}

// How many octets a batch has of which these are the first ones. None if it is not open. `Damaged` if
// neither is so: no crash leaves an octet there that is none of these, and the length is on the disk
// before the batch is opened.
fn told_len(head: &[u8]) -> Result<Option<usize>, BatchFault>
    ensures closed { IfOk result (λ found. IfNone found ((text : List ℕ)
        → head.now ≡ take HEAD text → IsClosed text)) }
    ensures small { IfOk result (λ found. IfSome found (λ len. len ≤ BATCH_MAX)) }
    ensures damaged { IfErr result (λ fault. fault ≡ BatchFault.Damaged) }
{
    let Some(gate) = head.first() else {
        return Ok(None);
    };
    if head.len() == 1 || *gate == CLOSED || *gate == OLDER_CLOSED {
        return Ok(None);
    }
    if head.len() < HEAD || *gate != OPEN {
        return Err(BatchFault::Damaged);
    }
    let len = u32::from_le_bytes([head[1], head[2], head[3], head[4]]) as usize;
    if len > BATCH_MAX {
        return Err(BatchFault::Damaged);
    }
    Ok(Some(len))
}

/// Reads the octets of the batch that is at an offset of a journal, from the one that opens it on, as
/// far as they are there. None if no batch is open there. The octets before it are read again once it
/// was seen open, since they were written before it was opened.
pub(crate) fn read_batch<D: Disk>(
    alloc: Global,
    disk: &mut D,
    name: &FileName,
    at: u64,
) -> Result<Option<Vec<u8>>, BatchFault>
    requires { at < 2 ^ 62 }
    ensures closed { IfOk result (λ found. IfNone found (D.tells disk.new
        → IsSound (D.state disk.old) → (file : List ℕ)
        → shown_now ((D.state disk.old).entries name.now) ≡ Some file → IsClosed (drop at file))) }
    ensures open { IfOk result (λ found. IfSome found (λ v. D.tells disk.new
        → IsSound (D.state disk.old) → (file : List ℕ)
        → shown_now ((D.state disk.old).entries name.now) ≡ Some file
        → v.items ≡ take (length v.items) (drop at file))) }
    ensures small { IfOk result (λ found. IfSome found (λ v. length v.items ≤ HEAD + BATCH_MAX)) }
    ensures there { IfOk result (λ found. D.tells disk.new → IsSound (D.state disk.old)
        → IsSome ((D.state disk.old).entries name.now).now) }
    ensures same { D.tells disk.new → IsUnchanged (D.state disk.old) (D.state disk.new) }
    ensures told { D.tells disk.new → D.tells disk.old }
    ensures not_write { IfErr result (λ fault. fault ≢ BatchFault.Write) }
    ensures missing { D.tells disk.new → IsErrOf result (BatchFault.Disk DiskFault.Missing)
        → IsNone ((D.state disk.old).entries name.now).now }
{
    let head = read_at(alloc, disk, name, at, HEAD)?;
    let Some(len) = told_len(&head)? else {
        return Ok(None);
    };
    let octets = read_at(alloc, disk, name, at, HEAD + len)?;
    Ok(Some(octets))
}
