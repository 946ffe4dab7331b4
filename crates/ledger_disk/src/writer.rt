//! Lines are written in turns.
ghost use Rattle.std.specs.Prelude.{◌≡◌, ◌≢◌, IfOk, IsNone, IsSome, OnOk, map, option_map};
ghost use Rattle.disk.specs.Calls.{IsUnchanged};
ghost use Rattle.journal.specs.Journals.{IsSound, KeepsOrSettlesOthers};
ghost use Rattle.ledger.specs.Lines.{said_of};
ghost use Rattle.ledger_disk.specs.Disks.{KeepsOtherFiles, ledger_name};
ghost use Rattle.ledger_disk.specs.Ledgers.{GainsLine, GainsLines, IsLastLine, IsNamed, KeepsLines, ledger_text};

use crate::appending::{append_line, append_lines, last_line};
use crate::fault::ListFault;
use crate::reading::{begins_ledger, read_standing};
use crate::removing::{names_in_order, remove_listed};
use crate::turns::Turns;
use disk::{Disk, DiskFault, FileName};
use ledger::{LedgerEntry, Standing};
use std::alloc::{AllocError, Global};

/// A disk, the name of its ledger, and the turns in which its lines are written.
#[derive(Drop)]
pub(crate) struct LineWriter<D, T> {
    alloc: Global,
    pub(crate) disk: D,
    pub(crate) turns: T,
    pub(crate) ledger: FileName,
    ghost named: { ledger ≡ ledger_name },
}

// The name of a ledger.
fn name_of_ledger(alloc: Global) -> Result<FileName, AllocError>
    ensures { IfOk result (λ name. name ≡ ledger_name) }
{
    match FileName::new(alloc, b"ledger")? {
        Some(name) => Ok(name),
        None => unreachable!(),
    }
}

impl<D: Disk + Drop, T: Turns + Drop> LineWriter<D, T> {
    /// Over a disk.
    pub(crate) fn new(alloc: Global, disk: D, turns: T) -> Result<LineWriter<D, T>, AllocError> {
        let ledger = name_of_ledger(alloc)?;
        Ok(LineWriter {
            alloc,
            disk,
            turns,
            ledger,
        })
    }

    /// The disk.
    pub(crate) fn into_inner(self) -> D
        ensures { result ≡ self.disk }
    {
        let LineWriter { disk, .. } = self;
        disk
    }

    /// Writes a line, in a turn. Gives its number.
    pub(crate) fn append(&mut self, entry: &LedgerEntry<'_>) -> Result<u64, ListFault>
        ensures written { OnOk result (D.tells self.new.disk → IsSound (D.state self.old.disk)
            → GainsLine (D.state self.old.disk) (D.state self.new.disk) ledger_name (said_of entry.now)) }

        // whatever the result is: so at every moment
        ensures kept { D.tells self.new.disk → IsSound (D.state self.old.disk)
            → KeepsLines (D.state self.old.disk) (D.state self.new.disk) ledger_name }
        ensures others { D.tells self.new.disk
            → KeepsOrSettlesOthers (D.state self.old.disk) (D.state self.new.disk) ledger_name }
        ensures told { D.tells self.new.disk → D.tells self.old.disk }
    {
        self.turns.begin()?;
        let time = self.turns.time();
        let answer = append_line(self.alloc, &mut self.disk, &self.ledger, &time, entry);
        self.turns.end();
        answer
    }

    /// Begins a turn, in which lines of several segments are written. Gives the names of the files that the
    /// folder has then, in order. If it fails, there is no turn.
    pub(crate) fn begin_turn(&mut self) -> Result<Vec<FileName>, ListFault> {
        self.turns.begin()?;
        match names_in_order(self.alloc, &mut self.disk) {
            Ok(names) => Ok(names),
            Err(fault) => {
                self.turns.end();
                Err(ListFault::Disk(fault))
            }
        }
    }

    /// Ends a turn.
    pub(crate) fn end_turn(&mut self) {
        self.turns.end();
    }

    /// Writes lines in the turn that has begun, in one piece. Gives the number of the last line before them.
    pub(crate) fn append_all(&mut self, entries: &[LedgerEntry<'_>]) -> Result<u64, ListFault>
        ensures written { OnOk result (D.tells self.new.disk → IsSound (D.state self.old.disk)
            → GainsLines (D.state self.old.disk) (D.state self.new.disk) ledger_name (map said_of entries.now)) }

        // whatever the result is: so at every moment
        ensures kept { D.tells self.new.disk → IsSound (D.state self.old.disk)
            → KeepsLines (D.state self.old.disk) (D.state self.new.disk) ledger_name }
        ensures others { D.tells self.new.disk
            → KeepsOrSettlesOthers (D.state self.old.disk) (D.state self.new.disk) ledger_name }
        ensures told { D.tells self.new.disk → D.tells self.old.disk }
    {
        let time = self.turns.time();
        append_lines(self.alloc, &mut self.disk, &self.ledger, &time, entries)
    }

    /// Removes a segment, in a turn, once its line is written. Gives the number of the line.
    pub(crate) fn remove(
        &mut self,
        segment: &FileName,
        entry: &LedgerEntry<'_>,
    ) -> Result<u64, DiskFault>
        // whatever the result is: so at every moment
        ensures gone { D.tells self.new.disk → IsSound (D.state self.old.disk)
            → segment.now ≢ ledger_name
            → IsSome ((D.state self.old.disk).entries segment.now).now
            → IsNone ((D.state self.new.disk).entries segment.now).now
            → GainsLine (D.state self.old.disk) (D.state self.new.disk) ledger_name (said_of entry.now) }
        ensures named { D.tells self.new.disk → IsSound (D.state self.old.disk)
            → segment.now ≢ ledger_name
            → IsSome ((D.state self.old.disk).entries segment.now).now
            → IsNone ((D.state self.new.disk).entries segment.now).now
            → IsNamed (D.state self.old.disk) ledger_name → IsNamed (D.state self.new.disk) ledger_name }
        ensures kept { D.tells self.new.disk → IsSound (D.state self.old.disk)
            → segment.now ≢ ledger_name
            → KeepsLines (D.state self.old.disk) (D.state self.new.disk) ledger_name }
        ensures others { D.tells self.new.disk
            → KeepsOtherFiles (D.state self.old.disk) (D.state self.new.disk) segment.now }
        ensures told { D.tells self.new.disk → D.tells self.old.disk }
    {
        self.turns.begin()?;
        let time = self.turns.time();
        let disk = &mut self.disk;
        let answer = remove_listed(self.alloc, disk, &self.ledger, segment, &time, entry);
        self.turns.end();
        answer
    }

    /// What the ledger lists.
    pub(crate) fn standing(&mut self) -> Result<Standing, ListFault> {
        read_standing(self.alloc, &mut self.disk, &self.ledger)
    }

    /// Whether a server lists its segments: it has a ledger, or no segment yet. Then the ledger is made.
    pub(crate) fn begins_ledger(&mut self) -> Result<bool, DiskFault> {
        begins_ledger(self.alloc, &mut self.disk, &self.ledger)
    }

    /// The last whole line, in a turn.
    pub(crate) fn last_line(&mut self) -> Result<Option<Vec<u8>>, ListFault>
        ensures last { IfOk result (λ line. D.tells self.new.disk → IsSound (D.state self.old.disk)
            → IsLastLine (ledger_text (D.state self.old.disk) ledger_name) (option_map (λ v. v.items) line)) }
        ensures same { D.tells self.new.disk → IsUnchanged (D.state self.old.disk) (D.state self.new.disk) }
        ensures told { D.tells self.new.disk → D.tells self.old.disk }
    {
        self.turns.begin()?;
        let answer = last_line(self.alloc, &mut self.disk, &self.ledger);
        self.turns.end();
        answer
    }
}
