//! A disk and the ledger of its store: what is done to segments, and the lines of it.
ghost use Rattle.std.specs.Prelude.{◌≡◌, ◌<◌, IfOk, IsErrOf, IsNone, IsSome, OnOk, length, option_map};
ghost use Rattle.disk.specs.declared.fault.DiskFault.TheVariants.{Failed};
ghost use Rattle.disk.specs.Calls.{IsUnchanged};
ghost use Rattle.journal.specs.Journals.{IsSound, KeepsOrSettlesOthers};
ghost use Rattle.ledger_disk.specs.Disks.{IsKept, IsSegmentName, KeepsOtherFiles, TellsGone, TellsSeal, ledger_name};
ghost use Rattle.ledger_disk.specs.Ledgers.{IsLastLine, KeepsLines, ledger_text};
ghost use Rattle.ledger_disk.specs.declared.purpose.Purpose.TheVariants.{Serve};

use crate::counting::{Counted, count_entries};
use crate::fault::{ListFault, disk_fault};
use crate::purpose::Purpose;
use crate::removing::is_among;
use crate::segments::{has_file, is_kept, is_segment, listed_size, note, size_of};
use crate::turns::Turns;
use crate::writer::LineWriter;
use disk::{Disk, DiskFault, FileName};
use ledger::{Event, LedgerEntry, Removal, Standing};
use std::alloc::{AllocError, Global};

// The most lines of a turn, which are written in one piece: others who write into the ledger wait meanwhile.
const LINES_A_TURN: usize = 1_024;

// The most names that wait for their lines while a server goes on without them. Those behind are left to the next command
// that lists what is not listed.
const WAITING_MAX: usize = 1_024;

/// A disk and the ledger of its store.
#[derive(Drop)]
pub(crate) struct LedgerKeeper<D, T> {
    alloc: Global,
    pub(crate) writer: LineWriter<D, T>,
    pub(crate) purpose: Purpose,
    // the names that have no line yet, and what the first of them were counted to have
    waiting: Vec<FileName>,
    counts: Vec<Option<Counted>>,
    // what the ledger lists, where it was read
    pub(crate) standing: Option<Standing>,
    // the line of the last segment that others were joined into
    joined: Option<u64>,
    // whether what gets its name is listed, once that is decided
    lists: Option<bool>,
    // why a server does not list its segments, if it does not
    unlisted_for: Option<ListFault>,
}

// What the lines of segments say that were counted, of those that are among names, which are in order.
fn entries_of<'a>(
    alloc: Global,
    names: &[FileName],
    segments: &'a [FileName],
    counts: &[Option<Counted>],
    event: Event,
) -> Result<Vec<LedgerEntry<'a>>, AllocError> {
    let mut entries = Vec::new(alloc);
    'segments: for (segment, count) in segments.iter().zip(counts.iter()) {
        let Some(counted) = *count else {
            continue 'segments;
        };
        if is_among(names, segment) {
            entries.push(LedgerEntry {
                event,
                name: segment.as_octets(),
                count: counted.entries,
                octets: counted.octets,
            })?;
        }
    }
    Ok(entries)
}

impl<D: Disk + Drop, T: Turns + Drop> LedgerKeeper<D, T> {
    /// Over a disk. Nothing is read yet. It fails only when out of memory.
    pub(crate) fn new(
        alloc: Global,
        disk: D,
        turns: T,
        purpose: Purpose,
    ) -> Result<LedgerKeeper<D, T>, AllocError> {
        Ok(LedgerKeeper {
            alloc,
            writer: LineWriter::new(alloc, disk, turns)?,
            purpose,
            waiting: Vec::new(alloc),
            counts: Vec::new(alloc),
            standing: None,
            joined: None,
            lists: None,
            unlisted_for: None,
        })
    }

    /// The disk.
    pub(crate) fn into_inner(self) -> D
        ensures { result ≡ self.writer.disk }
    {
        let LedgerKeeper { writer, .. } = self;
        writer.into_inner()
    }

    /// Reads the ledger, and lists each segment of the folder that it does not list, if that is entries to
    /// its end. It is called once, before anything is done to segments.
    ///
    /// # Errors
    /// `Broken` if what begins at an octet of the ledger is no line that continues its chain; then nothing
    /// was changed. The disk's fault, or lack of memory.
    pub(crate) fn catch_up(&mut self) -> Result<(), ListFault> {
        self.standing = Some(self.writer.standing()?);
        let unlisted = self.unlisted()?;
        'pieces: for piece in unlisted.chunks(LINES_A_TURN) {
            let counts = self.counts_of(piece, true)?;
            self.list_in_turn(piece, &counts, Event::Added)?;
        }
        Ok(())
    }

    // The segments of the folder that are not listed.
    fn unlisted(&mut self) -> Result<Vec<FileName>, ListFault> {
        let mut unlisted = Vec::new(self.alloc);
        'names: for name in self.writer.disk.names(self.alloc)? {
            if is_segment(&name) && listed_size(&self.standing, &name).is_none() {
                unlisted.push(name)?;
            }
        }
        Ok(unlisted)
    }

    /// Writes the `seal` line of a segment that is listed, with the root of its records.
    ///
    /// # Errors
    /// `Unlisted` if it is not listed, `Broken` if the ledger ends with what is no line, the disk's fault,
    /// or lack of memory.
    pub(crate) fn list_seal(&mut self, name: &FileName, root: &[u8; 64]) -> Result<(), ListFault>
        ensures written { OnOk result (D.tells self.new.writer.disk → IsSound (D.state self.old.writer.disk)
            → TellsSeal (D.state self.old.writer.disk) (D.state self.new.writer.disk) self.old.standing
            name.now root.now) }

        // whatever the result is: so at every moment
        ensures kept { D.tells self.new.writer.disk → IsSound (D.state self.old.writer.disk)
            → KeepsLines (D.state self.old.writer.disk) (D.state self.new.writer.disk) ledger_name }
        ensures others { D.tells self.new.writer.disk
            → KeepsOrSettlesOthers (D.state self.old.writer.disk) (D.state self.new.writer.disk) ledger_name }
        ensures told { D.tells self.new.writer.disk → D.tells self.old.writer.disk }
    {
        let Some((count, octets)) = listed_size(&self.standing, name) else {
            return Err(ListFault::Unlisted);
        };
        let entry = LedgerEntry {
            event: Event::Sealed(*root),
            name: name.as_octets(),
            count,
            octets,
        };
        let number = self.writer.append(&entry)?;
        note(&mut self.standing, number, &entry)?;
        Ok(())
    }

    /// The last whole line of the ledger, without its end; none if it has none.
    ///
    /// # Errors
    /// `Broken` if what stands there is no line, the disk's fault, or lack of memory.
    pub(crate) fn last_line(&mut self) -> Result<Option<Vec<u8>>, ListFault>
        ensures last { IfOk result (λ line. D.tells self.new.writer.disk → IsSound (D.state self.old.writer.disk)
            → IsLastLine (ledger_text (D.state self.old.writer.disk) ledger_name) (option_map (λ v. v.items) line)) }
        ensures same { D.tells self.new.writer.disk
            → IsUnchanged (D.state self.old.writer.disk) (D.state self.new.writer.disk) }
        ensures told { D.tells self.new.writer.disk → D.tells self.old.writer.disk }
    {
        self.writer.last_line()
    }

    // How many records and octets a segment has; None if it is not there or, where only whole ones are asked
    // for, is not entries to its end.
    fn count_of(&mut self, name: &FileName, only_whole: bool) -> Result<Option<Counted>, ListFault>
        ensures { self.new.waiting ≡ self.old.waiting }
    {
        match count_entries(&mut self.writer.disk, name) {
            Ok(count) if only_whole && !count.is_whole => Ok(None),
            Ok(count) => Ok(Some(count)),
            Err(DiskFault::Missing) => Ok(None),
            Err(fault) => Err(ListFault::Disk(fault)),
        }
    }

    // The same of each of several.
    fn counts_of(
        &mut self,
        names: &[FileName],
        only_whole: bool,
    ) -> Result<Vec<Option<Counted>>, ListFault> {
        let mut counts = Vec::new(self.alloc);
        'names: for name in names {
            counts.push(self.count_of(name, only_whole)?)?;
        }
        Ok(counts)
    }

    // Notes lines that were written behind the line with a number.
    fn note_all(&mut self, before: u64, entries: &[LedgerEntry<'_>]) -> Result<(), AllocError> {
        let mut number = before;
        'entries: for entry in entries {
            number = number.saturating_add(1);
            if entry.event == Event::Joined {
                self.joined = Some(number);
            }
            note(&mut self.standing, number, entry)?;
        }
        Ok(())
    }

    // Writes the lines of segments that were counted, in a turn that has begun, of those that the folder has by its
    // names, which are in order.
    fn list_those(
        &mut self,
        names: &[FileName],
        segments: &[FileName],
        counts: &[Option<Counted>],
        event: Event,
    ) -> Result<(), ListFault> {
        let entries = entries_of(self.alloc, names, segments, counts, event)?;
        if entries.is_empty() {
            return Ok(());
        }
        let before = self.writer.append_all(&entries)?;
        self.note_all(before, &entries)?;
        Ok(())
    }

    // Writes the lines of segments that were counted, in one turn.
    fn list_in_turn(
        &mut self,
        segments: &[FileName],
        counts: &[Option<Counted>],
        event: Event,
    ) -> Result<(), ListFault> {
        let names = self.writer.begin_turn()?;
        let answer = self.list_those(&names, segments, counts, event);
        self.writer.end_turn();
        answer
    }

    // Tells whether a server lists its segments, where that has changed.
    fn tell(&mut self, unlisted_for: Option<ListFault>) {
        if unlisted_for.is_some() != self.unlisted_for.is_some() {
            self.writer.turns.tell(unlisted_for);
        }
        self.unlisted_for = unlisted_for;
    }

    // What a fault of the ledger is to whoever calls. A server tells it and goes on, unless it waits for room or memory.
    fn settle(&mut self, purpose: Purpose, fault: ListFault) -> Result<(), DiskFault>
        ensures goes_on { purpose ≡ Serve → ¬ (IsErrOf result Failed) }
    {
        match (purpose, fault) {
            (_, ListFault::Disk(DiskFault::Full)) => Err(DiskFault::Full),
            (_, ListFault::Disk(DiskFault::Memory)) => Err(DiskFault::Memory),
            (Purpose::Serve, fault) => {
                self.tell(Some(fault));
                Ok(())
            }
            (Purpose::Add | Purpose::Join | Purpose::Expire | Purpose::Seal, fault) => {
                Err(disk_fault(fault))
            }
        }
    }

    // Whether what gets its name is listed.
    fn lists(&mut self) -> Result<bool, DiskFault> {
        if self.purpose != Purpose::Serve {
            return Ok(true);
        }
        if let Some(lists) = self.lists {
            return Ok(lists && self.waiting.len() < WAITING_MAX);
        }
        match self.writer.begins_ledger() {
            Ok(lists) => {
                self.lists = Some(lists);
                Ok(lists)
            }
            Err(fault) => {
                self.settle(self.purpose, ListFault::Disk(fault))?;
                Ok(false)
            }
        }
    }

    // Gives a draft the name of a segment, which waits for its line then.
    fn rename_segment(&mut self, from: &FileName, to: &FileName) -> Result<(), DiskFault> {
        if !self.lists()? {
            return self.writer.disk.rename(from, to);
        }
        self.waiting.push(to.copy(self.alloc)?)?;
        let answer = self.writer.disk.rename(from, to);
        if answer.is_err() {
            let _ = self.waiting.pop();
        }
        answer
    }

    // What the line of a segment says that got its name.
    fn coming(&self) -> Event {
        if self.purpose.joins() {
            Event::Joined
        } else {
            Event::Added
        }
    }

    // Counts what segments have, behind those that were counted.
    fn count_rest(
        &mut self,
        segments: &[FileName],
        counts: &mut Vec<Option<Counted>>,
    ) -> Result<(), ListFault> {
        'names: for name in segments.iter().skip(counts.len()) {
            counts.push(self.count_of(name, false)?)?;
        }
        Ok(())
    }

    // Writes the lines of segments that got their names, each of which is counted once.
    fn list_named(
        &mut self,
        segments: &[FileName],
        counts: &mut Vec<Option<Counted>>,
    ) -> Result<(), ListFault> {
        self.count_rest(segments, counts)?;
        let event = self.coming();
        let counted = counts.chunks(LINES_A_TURN);
        'pieces: for (piece, counts) in segments.chunks(LINES_A_TURN).zip(counted) {
            self.list_in_turn(piece, counts, event)?;
        }
        Ok(())
    }

    // Writes the lines of the names that wait. If that fails, they wait still.
    fn list_waiting(&mut self) -> Result<(), DiskFault>
        ensures goes_on { self.old.purpose ≡ Serve → ¬ (IsErrOf result Failed) }
    {
        if self.waiting.is_empty() {
            return Ok(());
        }
        let purpose = self.purpose;
        let waiting = std::mem::replace(&mut self.waiting, Vec::new(self.alloc));
        let mut counts = std::mem::replace(&mut self.counts, Vec::new(self.alloc));
        match self.list_named(&waiting, &mut counts) {
            Ok(()) => {
                self.tell(None);
                Ok(())
            }
            Err(fault) => {
                self.waiting = waiting;
                self.counts = counts;
                self.settle(purpose, fault)
            }
        }
    }

    // Why a segment goes. None where others are joined, and none was.
    fn removal(&self) -> Option<Removal> {
        if !self.purpose.joins() {
            return Some(Removal::Expired);
        }
        match self.joined {
            Some(number) => Some(Removal::Joined(number)),
            None => None,
        }
    }

    // Removes a segment once its line is written.
    fn remove_segment(&mut self, name: &FileName) -> Result<(), DiskFault>
        // whatever the result is: so at every moment
        ensures gone { D.tells self.new.writer.disk → IsSound (D.state self.old.writer.disk)
            → IsSegmentName name.now
            → IsSome ((D.state self.old.writer.disk).entries name.now).now
            → IsNone ((D.state self.new.writer.disk).entries name.now).now
            → TellsGone (D.state self.old.writer.disk) (D.state self.new.writer.disk) name.now }
        ensures kept { D.tells self.new.writer.disk → IsSound (D.state self.old.writer.disk)
            → IsSegmentName name.now
            → KeepsLines (D.state self.old.writer.disk) (D.state self.new.writer.disk) ledger_name }
        ensures others { D.tells self.new.writer.disk
            → KeepsOtherFiles (D.state self.old.writer.disk) (D.state self.new.writer.disk) name.now }
        ensures told { D.tells self.new.writer.disk → D.tells self.old.writer.disk }
    {
        if !has_file(&mut self.writer.disk, name)? {
            return Err(DiskFault::Missing);
        }
        let (count, octets) = size_of(&mut self.writer.disk, &self.standing, name)?;
        let Some(removal) = self.removal() else {
            return Err(DiskFault::Failed);
        };
        let entry = LedgerEntry {
            event: Event::Gone(removal),
            name: name.as_octets(),
            count,
            octets,
        };
        let number = self.writer.remove(name, &entry)?;
        note(&mut self.standing, number, &entry)?;
        Ok(())
    }

    /// Removes a file; a segment that is sealed only where it may go.
    pub(crate) fn remove_any(&mut self, name: &FileName) -> Result<(), DiskFault>
        ensures left_alone { IsSegmentName name.now → IsKept self.old.purpose self.old.standing name.now
            → self.new.writer.disk ≡ self.old.writer.disk }

        // whatever the result is: so at every moment
        ensures gone { D.tells self.new.writer.disk → IsSound (D.state self.old.writer.disk)
            → IsSegmentName name.now
            → IsSome ((D.state self.old.writer.disk).entries name.now).now
            → IsNone ((D.state self.new.writer.disk).entries name.now).now
            → TellsGone (D.state self.old.writer.disk) (D.state self.new.writer.disk) name.now }
        ensures kept { D.tells self.new.writer.disk → IsSound (D.state self.old.writer.disk)
            → IsSegmentName name.now
            → KeepsLines (D.state self.old.writer.disk) (D.state self.new.writer.disk) ledger_name }
        ensures others { D.tells self.new.writer.disk
            → KeepsOtherFiles (D.state self.old.writer.disk) (D.state self.new.writer.disk) name.now }
        ensures told { D.tells self.new.writer.disk → D.tells self.old.writer.disk }
    {
        if !is_segment(name) {
            return self.writer.disk.remove(name);
        }
        if is_kept(self.purpose, &self.standing, name) {
            return Err(DiskFault::Failed);
        }
        self.remove_segment(name)
    }

    /// Gives a file another name. A segment keeps its own.
    pub(crate) fn rename_any(&mut self, from: &FileName, to: &FileName) -> Result<(), DiskFault> {
        if is_segment(from) {
            return Err(DiskFault::Failed);
        }
        if is_segment(to) {
            return self.rename_segment(from, to);
        }
        self.writer.disk.rename(from, to)
    }

    /// The names of all files but the segments that are left alone.
    pub(crate) fn names_shown(&mut self, alloc: Global) -> Result<Vec<FileName>, DiskFault> {
        let mut shown = Vec::new(alloc);
        for name in self.writer.disk.names(alloc)? {
            if !is_kept(self.purpose, &self.standing, &name) {
                shown.push(name)?;
            }
        }
        Ok(shown)
    }

    /// Brings the names to the disk, and then writes the lines of those that wait.
    pub(crate) fn sync_and_list(&mut self) -> Result<(), DiskFault>
        ensures goes_on { self.old.purpose ≡ Serve → IsErrOf result Failed → D.has_failed self.new.writer.disk }
    {
        self.writer.disk.sync_names()?;
        self.list_waiting()
    }
}
