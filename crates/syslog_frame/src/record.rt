//! What a piece holds of one frame. The octets of a record are copied by slices and never looked
//! at one by one.

ghost use Rattle.std.specs.Prelude.{◌≡◌, ◌≤◌, ◌<◌, ◌+◌, ◌++◌, ◌^◌, ℕ, List, length, take};
ghost use Rattle.std.specs.Prelude.{◌*◌, IfOk, OnErr, OnOk, max, vec_capacity, vec_len};
ghost use Rattle.syslog_frame.specs.Count.{IsCount};
ghost use Rattle.syslog_frame.specs.Scan.{Holds, Keeps};
ghost use Rattle.syslog_frame.specs.State.{Advances, IsOpen, IsSame, IsState, KeepsSize};
ghost use Rattle.syslog_frame.specs.declared.framing.Framing.TheVariants.{Counted, Lf};

use crate::count::{CountStep, count_on};
use crate::framing::Framing;
use crate::limits::{COUNT_MAX, FRAME_MAX};
use crate::phase::Phase;
use memchr::memchr;
use std::alloc::AllocError;

/// How far a piece advanced the frame.
#[derive(Clone, Copy, Debug)]
pub struct Progress {
    /// How many octets of the piece were taken.
    pub used: usize,
    /// Where in the frame the scanner is after them.
    pub phase: Phase,
    /// The count before the record, as far as it was read.
    pub count: u64,
    /// How many octets of the record have come.
    pub size: u64,
}

/// Makes room for octets more: twice as much as there was, but no more than a frame may have.
fn make_room(kept: &mut Vec<u8>, more: usize) -> Result<(), AllocError>
    requires within { vec_len kept.old + more ≤ FRAME_MAX }
    ensures ok { OnOk result (vec_len kept.new + more ≤ vec_capacity kept.new) }
    ensures items { kept.new.items ≡ kept.old.items }
    ensures len { vec_len kept.new ≡ vec_len kept.old }
    ensures capacity { vec_capacity kept.old ≤ vec_capacity kept.new }
    ensures twice { vec_capacity kept.new ≤ max (vec_capacity kept.old) (2 * (vec_len kept.old + more)) }
    ensures few { vec_capacity kept.new ≤ max (vec_capacity kept.old) FRAME_MAX }
    ensures err { OnErr result (IsSame kept.old kept.new) }
    ensures full { OnErr result (vec_capacity kept.old < FRAME_MAX) }
{
    let needed = kept.len() + more;
    if needed <= kept.capacity() {
        return Ok(());
    }
    let room = needed.max(2 * kept.capacity()).min(FRAME_MAX);
    kept.reserve_exact(room - kept.len())
}

/// Appends octets of a record of which `size` have come, unless it gets longer than `FRAME_MAX`. If
/// room for them is refused, nothing changes.
#[inline(always)]
fn keep(kept: &mut Vec<u8>, size: u64, octets: &[u8]) -> Result<(), AllocError>
    requires known { KeepsSize size kept.old }
    requires fits { size + length octets.now < 2 ^ 64 }
    ensures known { OnOk result (KeepsSize (size + length octets.now) kept.new) }
    ensures keeps { OnOk result ((r : List ℕ) → Keeps FRAME_MAX size kept.old.items r
        → Keeps FRAME_MAX (size + length octets.now) kept.new.items (r ++ octets.now)) }
    ensures capacity { vec_capacity kept.old ≤ vec_capacity kept.new }
    ensures err { OnErr result (IsSame kept.old kept.new) }
    ensures full { OnErr result (vec_capacity kept.old < FRAME_MAX) }
{
    if size + octets.len() as u64 > FRAME_MAX as u64 {
        return Ok(());
    }
    make_room(kept, octets.len())?;
    let _ = kept.extend_from_slice(octets);
    Ok(())
}

/// Takes a piece of a line, up to its line feed.
fn take_line(kept: &mut Vec<u8>, size: u64, piece: &[u8]) -> Result<Progress, AllocError>
    requires known { KeepsSize size kept.old }
    requires fits { size + length piece.now < 2 ^ 64 }
    ensures known { IfOk result (λ to. KeepsSize to.size kept.new) }
    ensures advances { IfOk result (Advances Lf size piece.now) }
    ensures holds { IfOk result (λ to. (p : List ℕ) → Holds FRAME_MAX Lf Phase.Inside 0 size kept.old.items p
        → Holds FRAME_MAX Lf to.phase 0 to.size kept.new.items
        (p ++ take to.used piece.now)) }
    ensures capacity { vec_capacity kept.old ≤ vec_capacity kept.new }
    ensures err { OnErr result (IsSame kept.old kept.new) }
    ensures full { OnErr result (vec_capacity kept.old < FRAME_MAX) }
{
    match memchr(b'\n', piece) {
        Some(at) => {
            keep(kept, size, &piece[..at])?;
            Ok(Progress {
                used: at + 1,
                phase: Phase::Ended,
                count: 0,
                size: size + at as u64,
            })
        }
        None => {
            keep(kept, size, piece)?;
            Ok(Progress {
                used: piece.len(),
                phase: Phase::Inside,
                count: 0,
                size: size + piece.len() as u64,
            })
        }
    }
}

/// Takes a piece of a counted record, up to its last octet.
#[inline(always)]
fn take_record(
    kept: &mut Vec<u8>,
    count: u64,
    size: u64,
    piece: &[u8],
) -> Result<Progress, AllocError>
    requires known { KeepsSize size kept.old }
    requires small { count ≤ COUNT_MAX }
    requires less { size < count }
    ensures known { IfOk result (λ to. KeepsSize to.size kept.new) }
    ensures advances { IfOk result (Advances Counted size piece.now) }
    ensures count { IfOk result (λ to. to.count ≡ count) }
    ensures holds { IfOk result (λ to. (p : List ℕ) → Holds FRAME_MAX Counted Phase.Inside count size kept.old.items p
        → Holds FRAME_MAX Counted to.phase count to.size kept.new.items
        (p ++ take to.used piece.now)) }
    ensures capacity { vec_capacity kept.old ≤ vec_capacity kept.new }
    ensures err { OnErr result (IsSame kept.old kept.new) }
    ensures full { OnErr result (vec_capacity kept.old < FRAME_MAX) }
{
    let left = count - size;
    if (piece.len() as u64) < left {
        keep(kept, size, piece)?;
        return Ok(Progress {
            used: piece.len(),
            phase: Phase::Inside,
            count,
            size: size + piece.len() as u64,
        });
    }
    let used = left as usize;
    keep(kept, size, &piece[..used])?;
    Ok(Progress {
        used,
        phase: Phase::Ended,
        count,
        size: count,
    })
}

/// Takes a piece that begins in a count.
fn take_count(kept: &mut Vec<u8>, count: u64, piece: &[u8]) -> Result<Progress, AllocError>
    requires known { KeepsSize 0 kept.old }
    requires small { count ≤ COUNT_MAX }
    ensures known { IfOk result (λ to. KeepsSize to.size kept.new) }
    ensures advances { IfOk result (Advances Counted 0 piece.now) }
    ensures holds { IfOk result (λ to. (p : List ℕ) → IsCount count p
        → Holds FRAME_MAX Counted to.phase to.count to.size kept.new.items
        (p ++ take to.used piece.now)) }
    ensures capacity { vec_capacity kept.old ≤ vec_capacity kept.new }
    ensures err { OnErr result (IsSame kept.old kept.new) }
    ensures full { OnErr result (vec_capacity kept.old < FRAME_MAX) }
{
    match count_on(count, piece) {
        CountStep::Unfinished { count } => Ok(Progress {
            used: piece.len(),
            phase: Phase::Counting,
            count,
            size: 0,
        }),
        CountStep::Broken { count, at } => Ok(Progress {
            used: at,
            phase: Phase::BadCount,
            count,
            size: 0,
        }),
        CountStep::Read { count, used } => {
            let record = take_record(kept, count, 0, &piece[used..])?;
            Ok(Progress {
                used: used + record.used,
                phase: record.phase,
                count,
                size: record.size,
            })
        }
    }
}

/// Takes a piece, up to the end of the frame. If room for its octets is refused, nothing changes.
pub fn take_piece(
    framing: Framing,
    phase: Phase,
    kept: &mut Vec<u8>,
    count: u64,
    size: u64,
    piece: &[u8],
) -> Result<Progress, AllocError>
    requires known { KeepsSize size kept.old }
    requires small { count ≤ COUNT_MAX }
    requires fits { size + length piece.now < 2 ^ 64 }
    requires open { IsOpen phase }
    requires state { IsState framing phase count size }
    ensures known { IfOk result (λ to. KeepsSize to.size kept.new) }
    ensures advances { IfOk result (Advances framing size piece.now) }
    ensures holds { IfOk result (λ to. (p : List ℕ) → Holds FRAME_MAX framing phase count size kept.old.items p
        → Holds FRAME_MAX framing to.phase to.count to.size kept.new.items
        (p ++ take to.used piece.now)) }
    ensures capacity { vec_capacity kept.old ≤ vec_capacity kept.new }
    ensures err { OnErr result (IsSame kept.old kept.new) }
    ensures full { OnErr result (vec_capacity kept.old < FRAME_MAX) }
{
    match framing {
        Framing::Lf => take_line(kept, size, piece),
        Framing::Counted => match phase {
            Phase::Inside => take_record(kept, count, size, piece),
            _ => take_count(kept, count, piece),
        },
    }
}
