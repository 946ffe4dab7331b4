//! A journal that is written.
ghost use Rattle.std.specs.Prelude.{◌≡◌, ◌⊎◌, ◌^◌, ◌<◌, ◌≤◌, ◌++◌, ◌∷◌, [], length, List, ℕ};
ghost use Rattle.std.specs.Prelude.{IfOk, IsErrOf, IsNone, IsSome, None, OnOk};
ghost use Rattle.disk.specs.Calls.{AtMostSyncs};
ghost use Rattle.disk.specs.Memory.{shown_now};
ghost use Rattle.journal.specs.Batches.{closed_batch};

use disk::{Disk, DiskFault, FileName};
use std::alloc::{AllocError, Global};

/// How many octets a journal may have at most before a batch is added.
pub const LENGTH_MAX: u64 = 1 << 62;

/// How many octets a batch has at most.
pub const BODY_MAX: usize = u32::MAX as usize;

/// How many syncs the making of a journal takes at most: of its file and of the folder.
pub const CREATE_SYNCS: u64 = 2;

/// How many syncs a commit makes at most: of the batch before it is opened, and once it is.
pub const COMMIT_SYNCS: u64 = 2;

// what opens a batch, and what stands in its place before
const OPEN: u8 = 1;

const CLOSED: u8 = 254;

// the octets before those of a batch
const HEAD: u64 = 5;

/// A journal to which batches are added.
#[derive(Drop)]
pub struct Journal {
    pub(crate) name: FileName,
    pub(crate) end: u64,
}

// a batch without the octet that opens it, and a closed octet behind it, in room for just these
fn written(alloc: Global, body: &[u8]) -> Result<Vec<u8>, AllocError>
    requires { length body.now < 2 ^ 32 }
    ensures { IfOk result (λ octets. octets.items ≡ closed_batch body.now) }
{
    let mut octets = Vec::with_capacity(alloc, HEAD as usize + body.len())?;
    octets.extend_from_slice(&(body.len() as u32).to_le_bytes())?;
    octets.extend_from_slice(body)?;
    octets.push(CLOSED)?;
    Ok(octets)
}

impl Journal {
    ghost use Rattle.journal.specs.Journals.{end_of, name_of, IsSound, Stands};
    ghost use Rattle.journal.specs.Journals.{KeepsOrSettlesOthers, KeepsOthers, LeavesBatches};
    ghost use Rattle.journal.specs.Journals.{LeavesNoBatch, SettlesOthers, ShowsNoBatch, WithOrWithout};

    /// Makes an empty journal under a name that has no file. Once it has returned `Ok`, every crash
    /// leaves it. It fails with the disk's fault, `Exists` if the name has a file.
    pub fn create<D: Disk>(disk: &mut D, name: FileName) -> Result<Journal, DiskFault>
        ensures created { IfOk result (λ journal. D.tells disk.new
            → IsSound (D.state disk.old) → Stands journal (D.state disk.new) []) }
        ensures name { IfOk result (λ journal. name_of journal ≡ name) }

        // whatever the result is: so at every moment
        ensures any_moment { D.tells disk.new → IsSound (D.state disk.old)
            → LeavesNoBatch (D.state disk.old) (D.state disk.new) name }
        ensures others { D.tells disk.new
            → KeepsOrSettlesOthers (D.state disk.old) (D.state disk.new) name }

        ensures settles { OnOk result (D.tells disk.new → IsSound (D.state disk.old)
            → SettlesOthers (D.state disk.old) (D.state disk.new) name) }
        ensures shows { D.tells disk.new → shown_now ((D.state disk.old).entries name) ≡ None
            → ShowsNoBatch (D.state disk.new) name }
        ensures syncs { AtMostSyncs CREATE_SYNCS (D.syncs disk.old) (D.syncs disk.new) }

        ensures told { D.tells disk.new → D.tells disk.old }
        ensures failed { IsErrOf result DiskFault.Failed → D.has_failed disk.new }
        ensures full { IsErrOf result DiskFault.Full → D.has_failed disk.new }
        ensures exists { D.tells disk.new → IsErrOf result DiskFault.Exists
            → IsSome ((D.state disk.old).entries name).now }
        ensures not_missing { D.tells disk.new → ¬ (IsErrOf result DiskFault.Missing) }
    {
        disk.create(&name)?;
        disk.append(&name, &[CLOSED])?;
        disk.sync(&name)?;
        disk.sync_names()?;
        Ok(Journal { name, end: 0 })
    }

    /// How many octets its batches take in the file, with the five before each.
    pub fn batches_len(&self) -> u64
        ensures { result ≡ end_of self.now }
    {
        self.end
    }

    /// Adds a batch. Once it has returned `Ok`, every crash leaves it; a crash at any moment leaves
    /// the batches from before, with this one or without it. After an `Err`, open the journal
    /// again.
    ///
    /// # Errors
    /// The disk's fault, or out of memory. `Full`, with nothing changed, also for a batch of more
    /// than `BODY_MAX` octets or if the journal has reached `LENGTH_MAX` octets.
    pub fn commit<D: Disk>(
        &mut self,
        alloc: Global,
        disk: &mut D,
        body: &[u8],
    ) -> Result<(), DiskFault>
        ensures committed { OnOk result (D.tells disk.new → (bodies : List (List ℕ))
            → Stands self.old (D.state disk.old) bodies
            → Stands self.new (D.state disk.new) (bodies ++ body.now ∷ [])) }

        // whatever the result is: so at every moment
        ensures any_moment { D.tells disk.new → (bodies : List (List ℕ))
            → Stands self.old (D.state disk.old) bodies
            → LeavesBatches (D.state disk.new) (name_of self.old)
            (WithOrWithout bodies body.now) }
        ensures others { D.tells disk.new
            → KeepsOthers (D.state disk.old) (D.state disk.new) (name_of self.old) }
        ensures syncs { AtMostSyncs COMMIT_SYNCS (D.syncs disk.old) (D.syncs disk.new) }

        ensures name { name_of self.new ≡ name_of self.old }
        ensures told { D.tells disk.new → D.tells disk.old }
        ensures failed { IsErrOf result DiskFault.Failed → D.has_failed disk.new }
        ensures full { IsErrOf result DiskFault.Full
            → D.has_failed disk.new ⊎ ((2 ^ 62 ≤ end_of self.old) ⊎ (2 ^ 32 ≤ length body.now)) }
        ensures missing { D.tells disk.new → IsErrOf result DiskFault.Missing
            → IsNone ((D.state disk.old).entries (name_of self.old)).now }
        ensures not_exists { D.tells disk.new → ¬ (IsErrOf result DiskFault.Exists) }
    {
        if self.end >= LENGTH_MAX {
            return Err(DiskFault::Full);
        }
        if body.len() > BODY_MAX {
            return Err(DiskFault::Full);
        }
        let octets = written(alloc, body)?;
        disk.append(&self.name, &octets)?;
        disk.sync(&self.name)?; // whole
        disk.overwrite(&self.name, self.end, OPEN)?;
        disk.sync(&self.name)?; // and open
        self.end += HEAD + body.len() as u64;
        Ok(())
    }
}
