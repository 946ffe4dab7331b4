//! A segment is written, a piece at a time.
ghost use Rattle.std.specs.Prelude.{◌≡◌, ◌≢◌, ◌<◌, ◌^◌, ◌++◌, ◌∷◌, ◌↔◌, [], All, IfErr, IfOk, IfSome, IsErrOf};
ghost use Rattle.std.specs.Prelude.{IsNone, IsTrue, List, ℕ, OnOk, codes};
ghost use Rattle.disk.specs.Calls.{AtMostSyncs};
ghost use Rattle.disk.specs.Files.{File};
ghost use Rattle.hex.specs.Hex.{encode_lower};
ghost use Rattle.sha2.specs.Hashers.{Holds256};
ghost use Rattle.sha2.specs.Sha256.{sha256};
ghost use Rattle.journal.specs.Journals.{IsOnDisk, IsSound, KeepsOthers, Shows};
ghost use Rattle.record_store.specs.Names.{IsDayName, IsHexadecimal, IsSegment};
ghost use Rattle.record_store.specs.Puts.{KeepsOrSettlesApart, LeavesOldOr, ShowsOldOr};

use crate::RecordStore;
use crate::putting::clear;
use disk::{Disk, DiskFault, FileName};
use sha2::{Digest, Sha256};
use std::alloc::{AllocError, Global};
use thiserror::Error;

// the octets of a SHA-256 in hexadecimal
const HEX_LEN: usize = 64;

/// How many syncs a segment takes at most: of its file and of the folder.
pub const SEGMENT_SYNCS: u64 = 2;

/// A segment that is being written: a file under the name of a draft, until all of it is on the disk.
#[derive(Drop)]
pub struct SegmentDraft {
    pub(crate) name: FileName,
    pub(crate) hasher: Sha256,
}

/// Why a segment was not finished.
#[derive(Clone, Copy, Debug, PartialEq, Eq, Error)]
pub enum SegmentFault {
    /// The disk's fault, or out of memory.
    #[error("{0}")]
    Disk(DiskFault),
    /// A file's name cannot begin with this day.
    #[error("not the name of a day")]
    Day,
}

impl From<DiskFault> for SegmentFault {
    ghost use Rattle.std.specs.Prelude.{◌≡◌};
    ghost use Rattle.record_store.specs.declared.segment.SegmentFault.TheVariants.{Disk};

    ghost from_gives = { λ fault wrapped. wrapped ≡ Disk fault };

    fn from(fault: DiskFault) -> SegmentFault {
        SegmentFault::Disk(fault)
    }
}

impl From<AllocError> for SegmentFault {
    ghost use Rattle.std.specs.Prelude.{◌≡◌};
    ghost use Rattle.disk.specs.declared.fault.DiskFault.TheVariants.{Memory};
    ghost use Rattle.record_store.specs.declared.segment.SegmentFault.TheVariants.{Disk};

    ghost from_gives = { λ _ wrapped. wrapped ≡ Disk Memory };

    fn from(_: AllocError) -> SegmentFault {
        SegmentFault::Disk(DiskFault::Memory)
    }
}

fn are_hexadecimal(octets: &[u8]) -> bool
    ensures { IsTrue result ↔ All IsHexadecimal octets.now }
{
    octets
        .iter()
        .all(|octet| matches!(*octet, b'0'..=b'9' | b'a'..=b'f'))
}

// The digest of what was hashed, in hexadecimal.
pub(crate) fn hexadecimal(hasher: Sha256) -> [u8; HEX_LEN]
    ensures digest { (text : List ℕ) → Holds256 hasher text
        → result ≡ encode_lower (sha256 text) }
    ensures digits { All IsHexadecimal result }
{
    let mut hex = [0; HEX_LEN];
    let _ = hex::encode_to_slice(hasher.finalize(), &mut hex);
    hex
}

// The name of the segment of a day, if it is one.
pub(crate) fn name_of_segment(
    alloc: Global,
    day: &[u8],
    hex: &[u8; HEX_LEN],
) -> Result<Option<FileName>, AllocError>
    ensures name { IfOk result (λ found. IfSome found (λ name.
        name ≡ day.now ++ 46 ∷ hex.now ++ codes ".archive")) }
    ensures segment { IfOk result (λ found. IfSome found (λ name. IsSegment day.now name)) }
    ensures none { IfOk result (λ found. IsNone found → All IsHexadecimal hex.now
        → ¬ (IsDayName day.now)) }
{
    if !are_hexadecimal(hex) {
        return Ok(None);
    }
    let mut octets = day.to_vec(alloc)?;
    octets.push(b'.')?;
    octets.extend_from_slice(hex)?;
    octets.extend_from_slice(b".archive")?;
    FileName::new(alloc, &octets)
}

// Brings a draft to the disk and gives it its name, in place of what is there.
pub(crate) fn place<D: Disk>(
    disk: &mut D,
    draft: &FileName,
    name: &FileName,
) -> Result<(), DiskFault>
    ensures placed { OnOk result (D.tells disk.new → (file : File)
        → Shows (D.state disk.old) draft.now file → name.now ≢ draft.now
        → IsOnDisk (D.state disk.new) name.now file.shown) }

    // whatever the result is: so at every moment
    ensures any_moment { D.tells disk.new → (file : File) → Shows (D.state disk.old) draft.now file
        → name.now ≢ draft.now
        → LeavesOldOr (D.state disk.old) (D.state disk.new) name.now file.shown }
    ensures shows { D.tells disk.new → (file : File) → Shows (D.state disk.old) draft.now file
        → name.now ≢ draft.now
        → ShowsOldOr (D.state disk.old) (D.state disk.new) name.now file.shown }
    ensures others { D.tells disk.new → KeepsOrSettlesApart (D.state disk.old) (D.state disk.new)
        draft.now name.now }

    ensures syncs { AtMostSyncs SEGMENT_SYNCS (D.syncs disk.old) (D.syncs disk.new) }
    ensures told { D.tells disk.new → D.tells disk.old }
    ensures failed { IsErrOf result DiskFault.Failed → D.has_failed disk.new }
    ensures full { IsErrOf result DiskFault.Full → D.has_failed disk.new }
    ensures missing { D.tells disk.new → IsErrOf result DiskFault.Missing
        → IsNone ((D.state disk.old).entries draft.now).now }
    ensures not_exists { D.tells disk.new → ¬ (IsErrOf result DiskFault.Exists) }
{
    disk.sync(draft)?;
    disk.rename(draft, name)?;
    disk.sync_names()
}

impl SegmentDraft {
    ghost use Rattle.archive_text.specs.Entries.{Entry};
    ghost use Rattle.record_store.specs.Causes.{IsBeginningCause, IsDraftCause};
    ghost use Rattle.record_store.specs.Crashes.{HeldApart, Keeps};
    ghost use Rattle.record_store.specs.Names.{Counts};
    ghost use Rattle.record_store.specs.Segments.{Drafts, IsOfSegment, IsSegmentCause, JournalsSettle};
    ghost use Rattle.record_store.specs.Segments.{draft_of, segment_name};
    ghost use Rattle.record_store.specs.Stores.{Sets, Stands};
    /// Begins a segment under the name of a draft, in place of what is there. It fails with the
    /// disk's fault.
    pub fn begin<D: Disk>(disk: &mut D, name: FileName) -> Result<SegmentDraft, DiskFault>
        ensures begun { IfOk result (λ draft. D.tells disk.new → IsSound (D.state disk.old)
            → Drafts draft (D.state disk.new) []) }
        ensures name { IfOk result (λ draft. draft_of draft ≡ name) }
        ensures others { D.tells disk.new → KeepsOthers (D.state disk.old) (D.state disk.new) name }

        // whatever the result is: so at every moment
        ensures lost { D.tells disk.new → (D.state disk.new).lost ≡ (D.state disk.old).lost }
        ensures stands { D.tells disk.new → ¬ (Counts name) → (store : RecordStore) (sets : Sets)
            → Stands store (D.state disk.old) sets → Stands store (D.state disk.new) sets }

        ensures syncs { AtMostSyncs 0 (D.syncs disk.old) (D.syncs disk.new) }
        ensures told { D.tells disk.new → D.tells disk.old }
        ensures cause { IfErr result (IsBeginningCause (D.tells disk.new) (D.has_failed disk.new)) }
    {
        clear(disk, &name)?;
        disk.create(&name)?;
        Ok(SegmentDraft {
            name,
            hasher: Sha256::new(),
        })
    }

    /// Writes the next piece of the segment. After an `Err`, begin it again.
    pub fn push<D: Disk>(&mut self, disk: &mut D, piece: &[u8]) -> Result<(), DiskFault>
        ensures pushed { OnOk result (D.tells disk.new → (text : List ℕ)
            → Drafts self.old (D.state disk.old) text
            → Drafts self.new (D.state disk.new) (text ++ piece.now)) }
        ensures name { draft_of self.new ≡ draft_of self.old }
        ensures others { D.tells disk.new
            → KeepsOthers (D.state disk.old) (D.state disk.new) (draft_of self.old) }

        // whatever the result is: so at every moment
        ensures lost { D.tells disk.new → (D.state disk.new).lost ≡ (D.state disk.old).lost }
        ensures stands { D.tells disk.new → ¬ (Counts (draft_of self.old)) → (store : RecordStore)
            (sets : Sets) → Stands store (D.state disk.old) sets
            → Stands store (D.state disk.new) sets }

        ensures syncs { AtMostSyncs 0 (D.syncs disk.old) (D.syncs disk.new) }
        ensures told { D.tells disk.new → D.tells disk.old }
        ensures cause { IfErr result (IsDraftCause (D.tells disk.new) (D.has_failed disk.new)
            (D.state disk.old) (draft_of self.old)) }
    {
        disk.append(&self.name, piece)?;
        self.hasher.update(piece);
        Ok(())
    }

    /// Brings the segment to the disk and gives it its name, `DAY.HEX.archive` with the SHA-256 of
    /// its octets. Once it has returned `Ok`, every crash leaves it, so each of its entries is
    /// held; a crash at any moment loses nothing, and adds nothing but its entries. The draft's
    /// name must be one that does not count. A file that has the segment's name already is
    /// replaced: by the same octets, unless it is damaged or SHA-256 collides. It fails as the
    /// variants of [`SegmentFault`] say.
    pub fn finish<D: Disk>(
        self,
        alloc: Global,
        disk: &mut D,
        day: &[u8],
    ) -> Result<FileName, SegmentFault>
        ensures finished { IfOk result (λ name. D.tells disk.new → (text : List ℕ)
            → Drafts self (D.state disk.old) text → ¬ (Counts (draft_of self))
            → IsOnDisk (D.state disk.new) name text) }
        ensures name { IfOk result (λ name. D.tells disk.new → (text : List ℕ)
            → Drafts self (D.state disk.old) text → name ≡ segment_name day.now text) }
        ensures segment { IfOk result (λ name. IsSegment day.now name) }

        ensures held { OnOk result (D.tells disk.new → (es received : List Entry)
            → IsOfSegment self (D.state disk.old) day.now es received
            → HeldApart (D.state disk.new) es) }

        // whatever the result is: so at every moment
        ensures any_moment { D.tells disk.new → (es committed received : List Entry)
            → IsOfSegment self (D.state disk.old) day.now es received
            → Keeps (D.state disk.old) committed received
            → Keeps (D.state disk.new) committed received }
        ensures journals { D.tells disk.new → ¬ (Counts (draft_of self))
            → JournalsSettle (D.state disk.old) (D.state disk.new) }
        ensures still_held { D.tells disk.new → (es received : List Entry)
            → IsOfSegment self (D.state disk.old) day.now es received
            → (others : List Entry) → HeldApart (D.state disk.old) others
            → HeldApart (D.state disk.new) others }

        ensures syncs { AtMostSyncs SEGMENT_SYNCS (D.syncs disk.old) (D.syncs disk.new) }
        ensures told { D.tells disk.new → D.tells disk.old }
        ensures cause { IfErr result (IsSegmentCause (D.tells disk.new) (D.has_failed disk.new)
            (D.state disk.old) (draft_of self) day.now) }
    {
        let SegmentDraft {
            name: draft,
            hasher,
        } = self;
        let Some(name) = name_of_segment(alloc, day, &hexadecimal(hasher))? else {
            return Err(SegmentFault::Day);
        };
        place(disk, &draft, &name)?;
        Ok(name)
    }
}

impl RecordStore {
    ghost use Rattle.std.specs.Prelude.{IsErr};
    ghost use Rattle.archive_text.specs.Entries.{Entry};
    ghost use Rattle.record_store.specs.Crashes.{HeldApart};
    ghost use Rattle.record_store.specs.Segments.{IsOfSegment, IsSegmentCause, draft_of};
    ghost use Rattle.record_store.specs.Stores.{IsBroken, Sets, Stands, number_of};
    /// Finishes a segment of entries that the store has received. Once it has returned `Ok`, a file
    /// other than the journal holds each of them, whatever a crash leaves; so `turn` may follow
    /// once all that came since the last checkpoint is in segments. The sets stay as they are at
    /// every moment.
    ///
    /// # Errors
    /// The disk's fault, or lack of memory. The store is broken then.
    pub fn add_segment<D: Disk>(
        &mut self,
        alloc: Global,
        disk: &mut D,
        draft: SegmentDraft,
        day: &[u8],
    ) -> Result<(), SegmentFault>
        ensures held { OnOk result (D.tells disk.new → (es received : List Entry)
            → IsOfSegment draft (D.state disk.old) day.now es received
            → HeldApart (D.state disk.new) es) }

        // whatever the result is: so at every moment
        ensures stands { D.tells disk.new → (es : List Entry) (sets : Sets)
            → IsOfSegment draft (D.state disk.old) day.now es sets.received
            → Stands self.old (D.state disk.old) sets → Stands self.new (D.state disk.new) sets }
        ensures still_held { D.tells disk.new → (es received : List Entry)
            → IsOfSegment draft (D.state disk.old) day.now es received
            → (others : List Entry) → HeldApart (D.state disk.old) others
            → HeldApart (D.state disk.new) others }

        ensures number { number_of self.new ≡ number_of self.old }
        ensures breaks { IsErr result → IsBroken self.new }
        ensures goes_on { OnOk result (IsBroken self.new → IsBroken self.old) }
        ensures syncs { AtMostSyncs SEGMENT_SYNCS (D.syncs disk.old) (D.syncs disk.new) }
        ensures told { D.tells disk.new → D.tells disk.old }
        ensures cause { IfErr result (IsSegmentCause (D.tells disk.new) (D.has_failed disk.new)
            (D.state disk.old) (draft_of draft) day.now) }
    {
        match draft.finish(alloc, disk, day) {
            Ok(_name) => Ok(()),
            Err(fault) => {
                self.broken = true;
                Err(fault)
            }
        }
    }
}
