//! A disk that keeps the ledger of a store.
ghost use Rattle.std.specs.Prelude.{◌≡◌, IfOk, IsErr, IsErrOf, IsNone, IsSome, IsTrue, OnOk, option_map};
ghost use Rattle.disk.specs.Calls.{AtMostSyncs, HasCause, IsUnchanged};
ghost use Rattle.journal.specs.Journals.{IsSound, KeepsOrSettlesOthers};
ghost use Rattle.ledger_disk.specs.Disks.{IsKept, IsSegmentName, KeepsOtherFiles, TellsGone, TellsSeal};
ghost use Rattle.ledger_disk.specs.Disks.{ledger_name, untold};
ghost use Rattle.ledger_disk.specs.Ledgers.{IsLastLine, KeepsLines, ledger_text};
ghost use Rattle.disk.specs.declared.fault.DiskFault.TheVariants.{Failed};
ghost use Rattle.ledger_disk.specs.declared.purpose.Purpose.TheVariants.{Serve};

use crate::fault::ListFault;
use crate::keeper::LedgerKeeper;
use crate::purpose::Purpose;
use crate::turns::Turns;
use disk::{Disk, DiskFault, FileName};
use ledger::Standing;
use std::alloc::{AllocError, Global};

/// A disk over another one, that keeps the ledger of a store: a line for each segment that gets its
/// name, once that is on the disk, and for each that goes, before it is removed.
///
/// A server goes on if its ledger is damaged, cannot be read or written, or is kept by another process: it tells so once
/// (`Turns::tell`), and the names wait for their lines, at most 1,024 of them. Only for room or memory it waits, as
/// elsewhere.
#[derive(Drop)]
pub struct LedgerDisk<D, T> {
    pub(crate) keeper: LedgerKeeper<D, T>,
    has_failed: bool,
}

// Notes whether a call failed.
fn noted<A: Drop>(has_failed: &mut bool, answer: Result<A, DiskFault>) -> Result<A, DiskFault>
    ensures same { result ≡ answer }
    ensures stays { IsTrue has_failed.old → IsTrue has_failed.new }
    ensures failed { IsErr result → IsTrue has_failed.new }
{
    if answer.is_err() {
        *has_failed = true;
    }
    answer
}

impl<D: Disk + Drop, T: Turns + Drop> LedgerDisk<D, T> {
    /// Over a disk. Nothing is read yet. It fails only when out of memory.
    pub fn new(
        alloc: Global,
        disk: D,
        turns: T,
        purpose: Purpose,
    ) -> Result<LedgerDisk<D, T>, AllocError> {
        Ok(LedgerDisk {
            keeper: LedgerKeeper::new(alloc, disk, turns, purpose)?,
            has_failed: false,
        })
    }

    /// The disk underneath.
    pub fn disk(&self) -> &D {
        &self.keeper.writer.disk
    }

    /// The disk underneath.
    pub fn into_inner(self) -> D {
        let LedgerDisk { keeper, .. } = self;
        keeper.into_inner()
    }

    /// What its lines are written by, one process after the other.
    pub fn turns(&self) -> &T {
        &self.keeper.writer.turns
    }

    /// What the ledger lists, where it was read (see `catch_up`).
    pub fn standing(&self) -> Option<&Standing> {
        self.keeper.standing.as_ref()
    }

    /// Reads the ledger, and lists each segment of the folder that it does not list, if that is entries to
    /// its end. It is called once, before anything is done to segments.
    ///
    /// # Errors
    /// `Broken` if what begins at an octet of the ledger is no line that continues its chain; then nothing
    /// was changed. The disk's fault, or lack of memory.
    pub fn catch_up(&mut self) -> Result<(), ListFault> {
        self.keeper.catch_up()
    }

    /// Writes the `seal` line of a segment that is listed, with the root of its records.
    ///
    /// # Errors
    /// `Unlisted` if it is not listed, `Broken` if the ledger ends with what is no line, the disk's fault,
    /// or lack of memory.
    pub fn list_seal(&mut self, name: &FileName, root: &[u8; 64]) -> Result<(), ListFault>
        ensures written { OnOk result (D.tells self.new.keeper.writer.disk
            → IsSound (D.state self.old.keeper.writer.disk)
            → TellsSeal (D.state self.old.keeper.writer.disk) (D.state self.new.keeper.writer.disk)
            self.old.keeper.standing name.now root.now) }

        // whatever the result is: so at every moment
        ensures kept { D.tells self.new.keeper.writer.disk → IsSound (D.state self.old.keeper.writer.disk)
            → KeepsLines (D.state self.old.keeper.writer.disk) (D.state self.new.keeper.writer.disk)
            ledger_name }
        ensures others { D.tells self.new.keeper.writer.disk
            → KeepsOrSettlesOthers (D.state self.old.keeper.writer.disk)
            (D.state self.new.keeper.writer.disk) ledger_name }
        ensures told { D.tells self.new.keeper.writer.disk → D.tells self.old.keeper.writer.disk }
    {
        self.keeper.list_seal(name, root)
    }

    /// The last whole line of the ledger, without its end; none if it has none.
    ///
    /// # Errors
    /// `Broken` if what stands there is no line, the disk's fault, or lack of memory.
    pub fn last_line(&mut self) -> Result<Option<Vec<u8>>, ListFault>
        ensures last { IfOk result (λ line. D.tells self.new.keeper.writer.disk
            → IsSound (D.state self.old.keeper.writer.disk)
            → IsLastLine (ledger_text (D.state self.old.keeper.writer.disk) ledger_name)
            (option_map (λ v. v.items) line)) }
        ensures same { D.tells self.new.keeper.writer.disk
            → IsUnchanged (D.state self.old.keeper.writer.disk) (D.state self.new.keeper.writer.disk) }
        ensures told { D.tells self.new.keeper.writer.disk → D.tells self.old.keeper.writer.disk }
    {
        self.keeper.last_line()
    }
}

impl<D: Disk + Drop, T: Turns + Drop> Disk for LedgerDisk<D, T> {
    ghost state = { λ _. untold };

    ghost tells = { λ _. ⊥ };

    ghost has_failed = { λ d. IsTrue d.has_failed };

    ghost syncs = { λ _. 0 };

    fn names(&mut self, alloc: Global) -> Result<Vec<FileName>, DiskFault> {
        let answer = self.keeper.names_shown(alloc);
        noted(&mut self.has_failed, answer)
    }

    fn read(&mut self, name: &FileName, at: u64, buf: &mut [u8]) -> Result<usize, DiskFault> {
        let answer = self.keeper.writer.disk.read(name, at, buf);
        noted(&mut self.has_failed, answer)
    }

    fn create(&mut self, name: &FileName) -> Result<(), DiskFault> {
        let answer = self.keeper.writer.disk.create(name);
        noted(&mut self.has_failed, answer)
    }

    fn append(&mut self, name: &FileName, octets: &[u8]) -> Result<(), DiskFault> {
        let answer = self.keeper.writer.disk.append(name, octets);
        noted(&mut self.has_failed, answer)
    }

    fn overwrite(&mut self, name: &FileName, at: u64, octet: u8) -> Result<(), DiskFault> {
        let answer = self.keeper.writer.disk.overwrite(name, at, octet);
        noted(&mut self.has_failed, answer)
    }

    fn cut(&mut self, name: &FileName, len: u64) -> Result<(), DiskFault> {
        let answer = self.keeper.writer.disk.cut(name, len);
        noted(&mut self.has_failed, answer)
    }

    fn sync(&mut self, name: &FileName) -> Result<(), DiskFault> {
        let answer = self.keeper.writer.disk.sync(name);
        noted(&mut self.has_failed, answer)
    }

    fn rename(&mut self, from: &FileName, to: &FileName) -> Result<(), DiskFault> {
        let answer = self.keeper.rename_any(from, to);
        noted(&mut self.has_failed, answer)
    }

    fn remove(&mut self, name: &FileName) -> Result<(), DiskFault>
        // a sealed segment is left alone where none expires
        ensures left_alone { IsSegmentName name.now → IsKept self.old.keeper.purpose self.old.keeper.standing name.now
            → self.new.keeper.writer.disk ≡ self.old.keeper.writer.disk }

        // whatever the result is: so at every moment
        ensures gone { D.tells self.new.keeper.writer.disk → IsSound (D.state self.old.keeper.writer.disk)
            → IsSegmentName name.now
            → IsSome ((D.state self.old.keeper.writer.disk).entries name.now).now
            → IsNone ((D.state self.new.keeper.writer.disk).entries name.now).now
            → TellsGone (D.state self.old.keeper.writer.disk) (D.state self.new.keeper.writer.disk)
            name.now }
        ensures kept { D.tells self.new.keeper.writer.disk → IsSound (D.state self.old.keeper.writer.disk)
            → IsSegmentName name.now
            → KeepsLines (D.state self.old.keeper.writer.disk) (D.state self.new.keeper.writer.disk)
            ledger_name }
        ensures others { D.tells self.new.keeper.writer.disk
            → KeepsOtherFiles (D.state self.old.keeper.writer.disk) (D.state self.new.keeper.writer.disk)
            name.now }
        ensures told { D.tells self.new.keeper.writer.disk → D.tells self.old.keeper.writer.disk }

        ensures syncs { AtMostSyncs 0 0 0 }
        ensures cause { HasCause (IsTrue self.old.has_failed) (IsTrue self.new.has_failed) result }
    {
        let answer = self.keeper.remove_any(name);
        noted(&mut self.has_failed, answer)
    }

    fn sync_names(&mut self) -> Result<(), DiskFault>
        // a server goes on where its ledger is damaged, or kept by another process
        ensures goes_on { self.old.keeper.purpose ≡ Serve → IsErrOf result Failed
            → D.has_failed self.new.keeper.writer.disk }

        ensures syncs { AtMostSyncs 0 0 0 }
        ensures cause { HasCause (IsTrue self.old.has_failed) (IsTrue self.new.has_failed) result }
    {
        let answer = self.keeper.sync_and_list();
        noted(&mut self.has_failed, answer)
    }
}
