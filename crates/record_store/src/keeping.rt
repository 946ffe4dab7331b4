//! A segment is kept under its name, whatever is there already.
ghost use Rattle.std.specs.Prelude.{◌≡◌, ◌≢◌, ◌^◌, ◌<◌, ◌≤◌, ◌⊎◌, IfErr, IfOk, IfSome, IsErr, IsErrOf, IsNone};
ghost use Rattle.std.specs.Prelude.{IsSome, IsTrue, List, ℕ, None, OnOk};
ghost use Rattle.disk.specs.Calls.{AtMostSyncs, IsUnchanged};
ghost use Rattle.disk.specs.Files.{File};
ghost use Rattle.disk.specs.Memory.{shown_now};
ghost use Rattle.journal.specs.Journals.{IsOnDisk, IsSound, Shows};
ghost use Rattle.record_store.specs.Keeping.{AgreeAt, AreOther, AreSame, Brings, DifferAt, ShowsAtMost};
ghost use Rattle.record_store.specs.Names.{IsSegment};
ghost use Rattle.record_store.specs.declared.segment.TheConstants.{SEGMENT_SYNCS};

use crate::RecordStore;
use crate::segment::{SegmentDraft, hexadecimal, name_of_segment, place};
use disk::{Disk, DiskFault, FileName};
use std::alloc::{AllocError, Global};
use thiserror::Error;

// the most octets that are asked for in a call
const PIECE: usize = 16_384;

// the most octets that are compared
const COMPARED_MAX: u64 = 1 << 62;

/// Why a segment was not kept.
#[derive(Debug, Drop, Error)]
pub enum KeepFault {
    /// The disk's fault, or out of memory.
    #[error("{0}")]
    Disk(DiskFault),
    /// A file's name cannot begin with this day.
    #[error("not the name of a day")]
    Day,
    /// The file with the segment's name has other octets: it is damaged, unless SHA-256 collides.
    /// It stays.
    #[error("a file with its name has other octets")]
    Differs { name: FileName },
}

impl From<DiskFault> for KeepFault {
    ghost use Rattle.std.specs.Prelude.{◌≡◌};
    ghost use Rattle.record_store.specs.declared.keeping.KeepFault.TheVariants.{Disk};

    ghost from_gives = { λ fault wrapped. wrapped ≡ Disk fault };

    fn from(fault: DiskFault) -> KeepFault {
        KeepFault::Disk(fault)
    }
}

impl From<AllocError> for KeepFault {
    ghost use Rattle.std.specs.Prelude.{◌≡◌};
    ghost use Rattle.disk.specs.declared.fault.DiskFault.TheVariants.{Memory};
    ghost use Rattle.record_store.specs.declared.keeping.KeepFault.TheVariants.{Disk};

    ghost from_gives = { λ _ wrapped. wrapped ≡ Disk Memory };

    fn from(_: AllocError) -> KeepFault {
        KeepFault::Disk(DiskFault::Memory)
    }
}

// The octets that two files have in common from an offset on, as far as a read gives them: how many,
// or `None` where some differ or one file ends before the other. There are none where both end.
fn compare_at<D: Disk>(
    disk: &mut D,
    one: &FileName,
    other: &FileName,
    at: u64,
) -> Result<Option<usize>, DiskFault>
    ensures agree { IfOk result (λ found. D.tells disk.new → IfSome found
        (AgreeAt (D.state disk.old) one.now other.now at)) }
    ensures differ { IfOk result (λ found. D.tells disk.new → IsNone found
        → DifferAt (D.state disk.old) one.now other.now) }
    ensures within { IfOk result (λ found. IfSome found (λ n. n ≤ PIECE)) }
    ensures same { D.tells disk.new → IsUnchanged (D.state disk.old) (D.state disk.new) }
    ensures syncs { AtMostSyncs 0 (D.syncs disk.old) (D.syncs disk.new) }
    ensures told { D.tells disk.new → D.tells disk.old }
    ensures failed { IsErrOf result DiskFault.Failed → D.has_failed disk.new }
    ensures full { IsErrOf result DiskFault.Full → D.has_failed disk.new }
    ensures missing { D.tells disk.new → IsErrOf result DiskFault.Missing
        → IsNone ((D.state disk.old).entries one.now).now
        ⊎ IsNone ((D.state disk.old).entries other.now).now }
    ensures not_exists { D.tells disk.new → ¬ (IsErrOf result DiskFault.Exists) }
{
    let mut left = [0u8; PIECE];
    let mut right = [0u8; PIECE];
    let n = disk.read(one, at, &mut left)?;
    let m = disk.read(other, at, &mut right)?;
    let both = n.min(m);
    if both == 0 {
        if n == m {
            return Ok(Some(0));
        }
        return Ok(None);
    }
    if left[..both] == right[..both] {
        return Ok(Some(both));
    }
    Ok(None)
}

// Whether a read shows the same octets of two files.
fn are_same<D: Disk>(disk: &mut D, one: &FileName, other: &FileName) -> Result<bool, DiskFault>
    ensures same_octets { IfOk result (λ same. IsTrue same → D.tells disk.new
        → AreSame (D.state disk.old) one.now other.now) }
    ensures other_octets { IfOk result (λ same. IsTrue same ⊎ (D.tells disk.new
        → AreOther (D.state disk.old) one.now other.now)) }
    ensures same { D.tells disk.new → IsUnchanged (D.state disk.old) (D.state disk.new) }
    ensures syncs { AtMostSyncs 0 (D.syncs disk.old) (D.syncs disk.new) }
    ensures told { D.tells disk.new → D.tells disk.old }
    ensures failed { IsErrOf result DiskFault.Failed → D.has_failed disk.new }
    ensures full { IsErrOf result DiskFault.Full → D.has_failed disk.new }
    ensures missing { D.tells disk.new → IsErrOf result DiskFault.Missing
        → IsNone ((D.state disk.old).entries one.now).now
        ⊎ IsNone ((D.state disk.old).entries other.now).now }
    ensures not_exists { D.tells disk.new → ¬ (IsErrOf result DiskFault.Exists) }
{
    let mut at = 0;
    'pieces: while at < COMPARED_MAX {
        let Some(n) = compare_at(disk, one, other, at)? else {
            return Ok(false);
        };
        if n == 0 {
            return Ok(true);
        }
        at += n as u64;
    }
    Ok(false)
}

// Whether a read shows a file of this name.
fn is_there<D: Disk>(disk: &mut D, name: &FileName) -> Result<bool, DiskFault>
    ensures there { IfOk result (λ there. IsTrue there ⊎ (D.tells disk.new
        → shown_now ((D.state disk.old).entries name.now) ≡ None)) }
    ensures some { IfOk result (λ there. IsTrue there → D.tells disk.new
        → IsSound (D.state disk.old) → IsSome ((D.state disk.old).entries name.now).now) }
    ensures same { D.tells disk.new → IsUnchanged (D.state disk.old) (D.state disk.new) }
    ensures syncs { AtMostSyncs 0 (D.syncs disk.old) (D.syncs disk.new) }
    ensures told { D.tells disk.new → D.tells disk.old }
    ensures failed { IsErrOf result DiskFault.Failed → D.has_failed disk.new }
    ensures full { IsErrOf result DiskFault.Full → D.has_failed disk.new }
    ensures not_missing { D.tells disk.new → ¬ (IsErrOf result DiskFault.Missing) }
    ensures not_exists { D.tells disk.new → ¬ (IsErrOf result DiskFault.Exists) }
{
    match disk.read(name, 0, &mut [0u8; 1]) {
        Ok(_) => Ok(true),
        Err(DiskFault::Missing) => Ok(false),
        Err(fault) => Err(fault),
    }
}

// Whether a draft may be given a name: no file has it, or one of the same octets.
fn may_take<D: Disk>(disk: &mut D, draft: &FileName, name: &FileName) -> Result<bool, DiskFault>
    ensures may { IfOk result (λ may. IsTrue may → D.tells disk.new → (file : File)
        → Shows (D.state disk.old) draft.now file
        → ShowsAtMost (D.state disk.old) name.now file.shown) }
    ensures other_octets { IfOk result (λ may. IsTrue may ⊎ (D.tells disk.new
        → AreOther (D.state disk.old) draft.now name.now)) }
    ensures same { D.tells disk.new → IsUnchanged (D.state disk.old) (D.state disk.new) }
    ensures syncs { AtMostSyncs 0 (D.syncs disk.old) (D.syncs disk.new) }
    ensures told { D.tells disk.new → D.tells disk.old }
    ensures failed { IsErrOf result DiskFault.Failed → D.has_failed disk.new }
    ensures full { IsErrOf result DiskFault.Full → D.has_failed disk.new }
    ensures missing { D.tells disk.new → IsSound (D.state disk.old)
        → IsErrOf result DiskFault.Missing → IsNone ((D.state disk.old).entries draft.now).now }
    ensures not_exists { D.tells disk.new → ¬ (IsErrOf result DiskFault.Exists) }
{
    if !is_there(disk, name)? {
        return Ok(true);
    }
    let same = are_same(disk, draft, name)?;
    Ok(same)
}

// Brings a draft to the disk under a name, where no file is there or one of the same octets, whose place
// it takes: that one may have been removed since it was compared. `false` where one of other octets is.
fn bring<D: Disk>(disk: &mut D, draft: &FileName, name: &FileName) -> Result<bool, DiskFault>
    ensures brought { IfOk result (λ done. IsTrue done → D.tells disk.new → (file : File)
        → Shows (D.state disk.old) draft.now file → name.now ≢ draft.now
        → IsOnDisk (D.state disk.new) name.now file.shown) }

    // whatever the result is: so at every moment
    ensures any_moment { D.tells disk.new → (file : File) → Shows (D.state disk.old) draft.now file
        → name.now ≢ draft.now
        → Brings (D.state disk.old) (D.state disk.new) draft.now name.now file.shown }

    ensures other_octets { IfOk result (λ done. IsTrue done ⊎ (D.tells disk.new
        → IsUnchanged (D.state disk.old) (D.state disk.new)
        × AreOther (D.state disk.old) draft.now name.now)) }
    ensures syncs { AtMostSyncs SEGMENT_SYNCS (D.syncs disk.old) (D.syncs disk.new) }
    ensures told { D.tells disk.new → D.tells disk.old }
    ensures failed { IsErrOf result DiskFault.Failed → D.has_failed disk.new }
    ensures full { IsErrOf result DiskFault.Full → D.has_failed disk.new }
    ensures missing { D.tells disk.new → IsSound (D.state disk.old)
        → IsErrOf result DiskFault.Missing → IsNone ((D.state disk.old).entries draft.now).now }
    ensures not_exists { D.tells disk.new → ¬ (IsErrOf result DiskFault.Exists) }
{
    if !may_take(disk, draft, name)? {
        return Ok(false);
    }
    place(disk, draft, name)?;
    Ok(true)
}

impl SegmentDraft {
    ghost use Rattle.archive_text.specs.Entries.{Entry};
    ghost use Rattle.record_store.specs.Crashes.{HeldApart, Keeps};
    ghost use Rattle.record_store.specs.Keeping.{IsDraftOf, IsKeepCause, IsTaken};
    ghost use Rattle.record_store.specs.Names.{Counts};
    ghost use Rattle.record_store.specs.Segments.{Drafts, GrowsBeside, OthersSettle, draft_of};
    ghost use Rattle.record_store.specs.Segments.{segment_name};
    /// Brings the segment to the disk under its name, `DAY.HEX.archive` with the SHA-256 of its
    /// octets, as `finish` does, but looks first at what is there: the draft takes the place of a file
    /// of these octets; one of other octets stays, and is reported. So nothing is presumed of the
    /// folder. It fails as the variants of [`KeepFault`] say.
    pub fn keep<D: Disk>(self, alloc: Global, disk: &mut D, day: &[u8]) -> Result<(), KeepFault>
        ensures held { OnOk result (D.tells disk.new → (es received : List Entry)
            → IsDraftOf self (D.state disk.old) day.now es received
            → HeldApart (D.state disk.new) es) }
        ensures sound { OnOk result (D.tells disk.new → (text : List ℕ)
            → Drafts self (D.state disk.old) text → ¬ (Counts (draft_of self))
            → IsOnDisk (D.state disk.new) (segment_name day.now text) text) }

        // whatever the result is: so at every moment
        ensures any_moment { D.tells disk.new → (es committed received : List Entry)
            → IsDraftOf self (D.state disk.old) day.now es received
            → Keeps (D.state disk.old) committed received
            → Keeps (D.state disk.new) committed received }
        ensures others { D.tells disk.new → (es received : List Entry)
            → IsDraftOf self (D.state disk.old) day.now es received
            → OthersSettle (D.state disk.old) (D.state disk.new) (draft_of self) }
        ensures still_held { D.tells disk.new → (es received : List Entry)
            → IsDraftOf self (D.state disk.old) day.now es received
            → (others : List Entry) → HeldApart (D.state disk.old) others
            → HeldApart (D.state disk.new) others }

        ensures segments { D.tells disk.new → (text : List ℕ) → Drafts self (D.state disk.old) text
            → ¬ (Counts (draft_of self)) → GrowsBeside 1 (D.state disk.old) (D.state disk.new) }

        // a file of other octets stays as it is
        ensures stays { D.tells disk.new → IsTaken self (D.state disk.old) day.now
            → IsErr result × IsUnchanged (D.state disk.old) (D.state disk.new) }

        ensures syncs { AtMostSyncs SEGMENT_SYNCS (D.syncs disk.old) (D.syncs disk.new) }
        ensures told { D.tells disk.new → D.tells disk.old }
        ensures cause { IfErr result (IsKeepCause (D.tells disk.new) (D.has_failed disk.new)
            (D.state disk.old) (D.state disk.new) self day.now) }
    {
        let SegmentDraft {
            name: draft,
            hasher,
        } = self;
        let Some(name) = name_of_segment(alloc, day, &hexadecimal(hasher))? else {
            return Err(KeepFault::Day);
        };
        if bring(disk, &draft, &name)? {
            return Ok(());
        }
        Err(KeepFault::Differs { name })
    }
}

impl RecordStore {
    ghost use Rattle.archive_text.specs.Entries.{Entry};
    ghost use Rattle.record_store.specs.Crashes.{HeldApart};
    ghost use Rattle.record_store.specs.Keeping.{IsDraftOf, IsKeepCause, IsTaken};
    ghost use Rattle.record_store.specs.Names.{Counts};
    ghost use Rattle.record_store.specs.Segments.{Drafts, GrowsBeside, draft_of};
    ghost use Rattle.record_store.specs.Stores.{IsBroken, IsSameButBroken, Sets, Stands};
    /// Keeps a segment of entries that the store has received, as `add_segment` does, whatever is
    /// under its name. Once it has returned `Ok`, a file other than the journal holds each of them,
    /// whatever a crash leaves. The sets stay as they are at every moment.
    ///
    /// # Errors
    /// The disk's fault, lack of memory, or a damaged file under the segment's name, which stays.
    /// The store is broken then.
    pub fn keep_segment<D: Disk>(
        &mut self,
        alloc: Global,
        disk: &mut D,
        draft: SegmentDraft,
        day: &[u8],
    ) -> Result<(), KeepFault>
        ensures held { OnOk result (D.tells disk.new → (es received : List Entry)
            → IsDraftOf draft (D.state disk.old) day.now es received
            → HeldApart (D.state disk.new) es) }

        // whatever the result is: so at every moment
        ensures stands { D.tells disk.new → (es : List Entry) (sets : Sets)
            → IsDraftOf draft (D.state disk.old) day.now es sets.received
            → Stands self.old (D.state disk.old) sets → Stands self.new (D.state disk.new) sets }
        ensures still_held { D.tells disk.new → (es received : List Entry)
            → IsDraftOf draft (D.state disk.old) day.now es received
            → (others : List Entry) → HeldApart (D.state disk.old) others
            → HeldApart (D.state disk.new) others }

        ensures segments { D.tells disk.new → (text : List ℕ) → Drafts draft (D.state disk.old) text
            → ¬ (Counts (draft_of draft)) → GrowsBeside 1 (D.state disk.old) (D.state disk.new) }

        // a file of other octets stays as it is
        ensures stays { D.tells disk.new → IsTaken draft (D.state disk.old) day.now
            → IsErr result × IsUnchanged (D.state disk.old) (D.state disk.new) }

        ensures same { IsSameButBroken self.old self.new }
        ensures breaks { IsErr result → IsBroken self.new }
        ensures goes_on { OnOk result (IsBroken self.new → IsBroken self.old) }
        ensures syncs { AtMostSyncs SEGMENT_SYNCS (D.syncs disk.old) (D.syncs disk.new) }
        ensures told { D.tells disk.new → D.tells disk.old }
        ensures cause { IfErr result (IsKeepCause (D.tells disk.new) (D.has_failed disk.new)
            (D.state disk.old) (D.state disk.new) draft day.now) }
    {
        match draft.keep(alloc, disk, day) {
            Ok(()) => Ok(()),
            Err(fault) => {
                self.broken = true;
                Err(fault)
            }
        }
    }
}
