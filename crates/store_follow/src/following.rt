//! The batches of a journal are followed.
ghost use Rattle.std.specs.Prelude.{◌≡◌, drop, false, true, List, ℕ, IfErr, IfOk, IsErrOf, IsNone, IsSome, Some};
ghost use Rattle.disk.specs.Calls.{IsUnchanged};
ghost use Rattle.disk.specs.Memory.{shown_now};
ghost use Rattle.journal.specs.Batches.{IsClosed};
ghost use Rattle.journal.specs.Journals.{EndsAt, IsSound};
ghost use Rattle.store_follow.specs.Batches.{Stops, Writes};

use crate::batch::{HEAD, batch_in};
use crate::fault::BatchFault;
use crate::place::Place;
use crate::reading::read_batch;
use disk::{Disk, DiskFault, FileName};
use journal::batch_len;
use octet_devices::{Output, write_all};
use std::alloc::Global;

/// How many batches are written in a look at most.
pub const BATCHES_MAX: u32 = 64;

/// Behind so many octets of batches a look reads no further one.
pub const OCTETS_MAX: u64 = 16_777_216;

// how many octets a journal has at most to which a batch is added
const LENGTH_MAX: u64 = 1 << 62;

// Writes the entries of the batch that is at a place, and moves the place behind it. Whether one is there.
fn follow_batch<D: Disk, W: Output>(
    alloc: Global,
    disk: &mut D,
    output: &mut W,
    name: &FileName,
    place: &mut Place,
) -> Result<bool, BatchFault>
    ensures writes { IfOk result (λ some. D.tells disk.new → IsSound (D.state disk.old)
        → (file : List ℕ) → shown_now ((D.state disk.old).entries name.now) ≡ Some file
        → Writes file place.old.at place.new.at (W.state output.old).taken (W.state output.new).taken) }
    ensures closed { IfOk result (λ some. some ≡ false → D.tells disk.new → IsSound (D.state disk.old)
        → (file : List ℕ) → shown_now ((D.state disk.old).entries name.now) ≡ Some file
        → IsClosed (drop place.new.at file)) }
    ensures stops { IfErr result (λ fault. D.tells disk.new → IsSound (D.state disk.old)
        → (file : List ℕ) → shown_now ((D.state disk.old).entries name.now) ≡ Some file
        → Stops fault file place.old.at place.new.at
        (W.state output.old).taken (W.state output.new).taken) }
    ensures there { IfOk result (λ some. D.tells disk.new → IsSound (D.state disk.old)
        → IsSome ((D.state disk.old).entries name.now).now) }
    ensures absent { IfErr result (λ fault. D.tells disk.new → IsSound (D.state disk.old)
        → IsNone ((D.state disk.old).entries name.now).now
        → (place.new ≡ place.old) × ((W.state output.new).taken ≡ (W.state output.old).taken)) }
    ensures number { place.new.number ≡ place.old.number }
    ensures same { D.tells disk.new → IsUnchanged (D.state disk.old) (D.state disk.new) }
    ensures told { D.tells disk.new → D.tells disk.old }
    ensures missing { D.tells disk.new → IsErrOf result (BatchFault.Disk DiskFault.Missing)
        → IsNone ((D.state disk.old).entries name.now).now }
{
    if place.at >= LENGTH_MAX {
        return Err(BatchFault::Damaged);
    }
    let Some(octets) = read_batch(alloc, disk, name, place.at)? else {
        return Ok(false);
    };
    let Some(batch) = batch_in(&octets, place.is_sealed) else {
        return Err(BatchFault::Damaged);
    };
    match write_all(output, batch.text) {
        Ok(()) => {}
        Err(_) => return Err(BatchFault::Write),
    }
    place.at += batch.len;
    place.is_sealed = batch.is_sealed;
    Ok(true)
}

/// Writes the entries of the batches that come at a place, as many as a look may write, and moves the
/// place behind each that is written. Whether none is left.
pub(crate) fn follow_batches<D: Disk, W: Output>(
    alloc: Global,
    disk: &mut D,
    output: &mut W,
    name: &FileName,
    place: &mut Place,
) -> Result<bool, BatchFault>
    ensures writes { IfOk result (λ ended. D.tells disk.new → IsSound (D.state disk.old)
        → (file : List ℕ) → shown_now ((D.state disk.old).entries name.now) ≡ Some file
        → Writes file place.old.at place.new.at (W.state output.old).taken (W.state output.new).taken) }
    ensures ended { IfOk result (λ ended. ended ≡ true → D.tells disk.new → IsSound (D.state disk.old)
        → (file : List ℕ) → shown_now ((D.state disk.old).entries name.now) ≡ Some file
        → IsClosed (drop place.new.at file)) }
    ensures stops { IfErr result (λ fault. D.tells disk.new → IsSound (D.state disk.old)
        → (file : List ℕ) → shown_now ((D.state disk.old).entries name.now) ≡ Some file
        → Stops fault file place.old.at place.new.at
        (W.state output.old).taken (W.state output.new).taken) }
    ensures there { IfOk result (λ some. D.tells disk.new → IsSound (D.state disk.old)
        → IsSome ((D.state disk.old).entries name.now).now) }
    ensures absent { IfErr result (λ fault. D.tells disk.new → IsSound (D.state disk.old)
        → IsNone ((D.state disk.old).entries name.now).now
        → (place.new ≡ place.old) × ((W.state output.new).taken ≡ (W.state output.old).taken)) }
    ensures number { place.new.number ≡ place.old.number }
    ensures same { D.tells disk.new → IsUnchanged (D.state disk.old) (D.state disk.new) }
    ensures told { D.tells disk.new → D.tells disk.old }
    ensures missing { D.tells disk.new → IsErrOf result (BatchFault.Disk DiskFault.Missing)
        → IsNone ((D.state disk.old).entries name.now).now }
{
    let start = place.at;
    'batches: for _batch in 0..BATCHES_MAX {
        if !follow_batch(alloc, disk, output, name, place)? {
            return Ok(true);
        }
        if place.at.saturating_sub(start) >= OCTETS_MAX {
            return Ok(false);
        }
    }
    Ok(false)
}

/// The end of the batches that come at the start of a journal.
pub(crate) fn end_of<D: Disk>(
    alloc: Global,
    disk: &mut D,
    name: &FileName,
) -> Result<u64, BatchFault>
    ensures ends { IfOk result (λ end. D.tells disk.new → IsSound (D.state disk.old)
        → (file : List ℕ) → shown_now ((D.state disk.old).entries name.now) ≡ Some file
        → (bodies : List (List ℕ)) × EndsAt file bodies end) }
    ensures there { IfOk result (λ end. D.tells disk.new → IsSound (D.state disk.old)
        → IsSome ((D.state disk.old).entries name.now).now) }
    ensures same { D.tells disk.new → IsUnchanged (D.state disk.old) (D.state disk.new) }
    ensures told { D.tells disk.new → D.tells disk.old }
{
    let mut end = 0u64;
    while end < LENGTH_MAX {
        let Some(octets) = read_batch(alloc, disk, name, end)? else {
            return Ok(end);
        };
        let Some(len) = batch_len(&octets) else {
            return Err(BatchFault::Damaged);
        };
        end += (HEAD + len) as u64;
    }
    Err(BatchFault::Damaged)
}
