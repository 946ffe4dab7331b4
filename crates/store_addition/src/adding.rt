//! An addition under way.
ghost use Rattle.std.specs.Prelude.{◌≡◌, ◌<◌, ◌≤◌, ◌∷◌, ◌++◌, [], ℕ, List, false, length, IfErr, IfOk, IsTrue};
ghost use Rattle.std.specs.Prelude.{MatchResult, OnErr, OnOk};
ghost use Rattle.disk.specs.Calls.{AtMostSyncs};
ghost use Rattle.disk.specs.States.{State};
ghost use Rattle.octet_devices.specs.Device.{InputState};
ghost use Rattle.archive_pages.specs.Paged.{entries_in};
ghost use Rattle.archive_streams.specs.Entries.{Ends, Halts, IsOpen, ReadsOne, current, still_to_come};
ghost use Rattle.archive_text.specs.Entries.{Entry, IsEntry};
ghost use Rattle.archive_text.specs.EntryViews.{entry_of};
ghost use Rattle.archive_text.specs.declared.limits.TheConstants.{ENTRY_MAX};
ghost use Rattle.durable_store.specs.Causes.{IsKeepingCause};
ghost use Rattle.durable_store.specs.Recovery.{Adds};
ghost use Rattle.durable_store.specs.Segments.{GainsOnly, octets_of};
ghost use Rattle.durable_store.specs.declared.mixed.TheConstants.{SET_SYNCS};
ghost use Rattle.journal.specs.Journals.{IsSound};
ghost use Rattle.record_store.specs.Crashes.{HeldApart};
ghost use Rattle.record_store.specs.Segments.{GrowsBeside};
ghost use Rattle.store_addition.specs.Additions.{AddsPart, AddsWhole, FailuresAt};
ghost use Rattle.store_addition.specs.Adding.{Began, Gathering, Halted, HasReader, IsFresh, IsInRoom, IsNext};
ghost use Rattle.store_addition.specs.Adding.{IsPieceOf, IsRead, KeepsGathered, Takes, UnderWay};
ghost use Rattle.store_addition.specs.Adding.{WholeRead, Writes};

use crate::addition::Addition;
use crate::fault::AddFault;
use archive_pages::PagedArchive;
use archive_streams::{ArchiveEntries, EntriesFault};
use archive_text::{AddFault as PieceFault, EntryView, Store};
use disk::Disk;
use durable_store::{DraftName, entry_len, write_segments};
use octet_devices::Input;
use record_store::KeepFault;
use std::alloc::{AllocError, Global};
use syslog_grammar::view;

/// So many octets of an archive are a piece: at most one entry more is gathered before it is written.
pub const PIECE_OCTETS: u64 = 67_108_864;

/// What was read of an archive, and how far it is on the disk.
#[derive(Drop)]
pub struct Adding {
    /// What was read.
    pub entries: ArchiveEntries,
    /// The entries that were read and are not written yet.
    pub piece: PagedArchive,
    /// The octets of their archive.
    pub octets: u64,
    /// What is on the disk, and in the piece.
    pub gathered: Addition,
    /// What is on the disk.
    pub added: Addition,
}

// Adds an entry of an archive to a piece of it. It fails only when out of memory, and the piece is as it
// was.
fn add_entry(
    alloc: Global,
    piece: &mut PagedArchive,
    entry: &EntryView<'_>,
) -> Result<(), AllocError>
    requires entry { IsEntry (entry_of entry.now) }
    requires fits { length entry.now.octets.now ≤ ENTRY_MAX }
    ensures adds { OnOk result (Adds (entries_in piece.old) (entries_in piece.new)
        (λ e. entry_of entry.now ≡ e)) }
    ensures err { OnErr result (entries_in piece.new ≡ entries_in piece.old) }
{
    let Ok(shown) = view(entry.octets) else {
        unreachable!()
    };
    match piece.add_view(alloc, &shown) {
        Ok(_) => Ok(()),
        Err(PieceFault::Memory) => Err(AllocError),
        Err(PieceFault::TooLong) => unreachable!(),
    }
}

impl Adding {
    /// An addition before the first entry. It fails only when out of memory.
    pub fn new(alloc: Global) -> Result<Adding, AllocError>
        ensures { IfOk result IsFresh }
    {
        Ok(Adding {
            entries: ArchiveEntries::new(alloc)?,
            piece: PagedArchive::new(alloc),
            octets: 0,
            gathered: Addition::none(),
            added: Addition::none(),
        })
    }

    // Reads the next entry and answers true, or finds the end and answers false. It fails if there is
    // neither.
    fn advance<R: Input>(&mut self, input: &mut R) -> Result<bool, EntriesFault>
        requires { IsOpen self.old.entries }
        ensures kept { KeepsGathered self.old self.new }
        ensures entry { IfOk result (λ some. IsTrue some → ReadsOne self.old.entries self.new.entries
            (R.state input.old) (R.state input.new)) }
        ensures end { IfOk result (λ some. some ≡ false → Ends self.old.entries self.new.entries
            (R.state input.old) (R.state input.new)) }
        ensures fault { IfErr result (λ fault. Halts fault self.old.entries self.new.entries
            (R.state input.old) (R.state input.new)) }
        ensures failures { MatchResult result
            (λ _. (R.state input.new).failures ≡ (R.state input.old).failures)
            (λ fault. FailuresAt (AddFault.Input fault) (R.state input.old).failures
            (R.state input.new).failures) }
    {
        self.entries.next(input)
    }

    // Puts the entry that was read last into the piece. It fails only when out of memory, and nothing
    // has changed then.
    fn take(&mut self, alloc: Global) -> Result<(), AllocError>
        requires { IsNext self.old }
        ensures entries { self.new.entries ≡ self.old.entries }
        ensures taken { OnOk result (Takes self.old self.new) }
        ensures err { OnErr result (KeepsGathered self.old self.new) }
    {
        let entry = self.entries.entry();
        add_entry(alloc, &mut self.piece, &entry)?;
        self.octets = self.octets.saturating_add(entry_len(entry.octets));
        self.gathered = Addition {
            entries: self.gathered.entries.saturating_add(1),
            last: entry.instant,
        };
        Ok(())
    }

    // Gathers entries until there is a piece, and answers true, or finds the end and answers false.
    fn gather<R: Input>(&mut self, alloc: Global, input: &mut R) -> Result<bool, AddFault>
        requires open { IsOpen self.old.entries }
        requires reader { HasReader self.old (R.state input.old) }
        ensures piece { IfOk result (λ more. IsTrue more → (d : InputState) (done : List Entry)
            → Gathering self.old d (R.state input.old) done
            → IsPieceOf self.new d (R.state input.new) done) }
        ensures end { IfOk result (λ more. more ≡ false → (d : InputState) (done : List Entry)
            → Gathering self.old d (R.state input.old) done
            → WholeRead self.new d (R.state input.new) done) }
        ensures fault { IfErr result (λ fault. (d : InputState) (done : List Entry)
            → Gathering self.old d (R.state input.old) done
            → Halted fault self.new d (R.state input.new) done) }
        ensures began { (d : InputState) (done : List Entry) → Gathering self.old d (R.state input.old) done
            → Began self.new d (R.state input.new) done }
        ensures more { IfOk result (λ more. IsTrue more → IsRead self.old self.new) }
        ensures room { IsInRoom self.old → IsInRoom self.new }
        ensures failures { MatchResult result
            (λ _. (R.state input.new).failures ≡ (R.state input.old).failures)
            (λ fault. FailuresAt fault (R.state input.old).failures (R.state input.new).failures) }
    {
        'entries: while self.octets < PIECE_OCTETS {
            if !self.advance(input)? {
                return Ok(false);
            }
            self.take(alloc)?;
        }
        Ok(true)
    }

    // Writes the piece as segments, and begins the next one.
    fn write<D: Disk>(&mut self, alloc: Global, disk: &mut D) -> Result<(), KeepFault>
        ensures written { OnOk result (Writes self.old self.new) }
        ensures err { OnErr result (self.new ≡ self.old) }
        ensures held { OnOk result (D.tells disk.new → IsSound (D.state disk.old)
            → HeldApart (D.state disk.new) (entries_in self.old.piece)) }
        ensures sound { OnOk result (D.tells disk.new → IsSound (D.state disk.old)
            → IsSound (D.state disk.new)) }

        // whatever the result is: so at every moment
        ensures gains { D.tells disk.new → IsSound (D.state disk.old)
            → GainsOnly (D.state disk.old) (D.state disk.new) (octets_of DraftName.Addition)
            (entries_in self.old.piece) }
        ensures segments { D.tells disk.new → IsSound (D.state disk.old)
            → GrowsBeside 65 (D.state disk.old) (D.state disk.new) }

        ensures syncs { AtMostSyncs SET_SYNCS (D.syncs disk.old) (D.syncs disk.new) }
        ensures told { D.tells disk.new → D.tells disk.old }
        ensures cause { IfErr result (IsKeepingCause (D.tells disk.new) (D.has_failed disk.new)
            (IsSound (D.state disk.old)) (D.state disk.new)) }
    {
        write_segments(alloc, disk, DraftName::Addition, &self.piece)?;
        self.piece = PagedArchive::new(alloc);
        self.octets = 0;
        self.added = self.gathered;
        Ok(())
    }

    // Gathers a piece and writes it, even if something stops the reading. Answers whether more may follow.
    fn add_piece<D: Disk, R: Input>(
        &mut self,
        alloc: Global,
        disk: &mut D,
        input: &mut R,
    ) -> Result<bool, AddFault>
        requires open { IsOpen self.old.entries }
        requires reader { HasReader self.old (R.state input.old) }
        ensures more { IfOk result (λ more. IsTrue more → (d : InputState) (start : State)
            → UnderWay (D.tells disk.old) self.old d (R.state input.old) start (D.state disk.old)
            → UnderWay (D.tells disk.new) self.new d (R.state input.new) start (D.state disk.new)) }
        ensures end { IfOk result (λ more. more ≡ false → (d : InputState) (start : State)
            → UnderWay (D.tells disk.old) self.old d (R.state input.old) start (D.state disk.old)
            → AddsWhole (D.tells disk.new) d (R.state input.new) start (D.state disk.new) self.new.added) }
        ensures fault { IfErr result (λ fault. (d : InputState) (start : State)
            → UnderWay (D.tells disk.old) self.old d (R.state input.old) start (D.state disk.old)
            → AddsPart (D.tells disk.new) (D.has_failed disk.new) d (R.state input.new) start
            (D.state disk.new) self.new.added fault) }
        ensures read { IfOk result (λ more. IsTrue more → IsRead self.old self.new) }
        ensures empty { OnOk result (self.new.octets ≡ 0) }
        ensures syncs { AtMostSyncs SET_SYNCS (D.syncs disk.old) (D.syncs disk.new) }
        ensures told { D.tells disk.new → D.tells disk.old }
        ensures failures { MatchResult result
            (λ _. (R.state input.new).failures ≡ (R.state input.old).failures)
            (λ fault. FailuresAt fault (R.state input.old).failures (R.state input.new).failures) }
    {
        let gathered = self.gather(alloc, input);
        self.write(alloc, disk)?;
        gathered
    }

    /// Adds the archive, piece by piece. It fails at the first fault that is met.
    pub fn add_pieces<D: Disk, R: Input>(
        &mut self,
        alloc: Global,
        disk: &mut D,
        input: &mut R,
    ) -> Result<(), AddFault>
        requires { IsFresh self.old }
        ensures whole { OnOk result (AddsWhole (D.tells disk.new) (R.state input.old) (R.state input.new)
            (D.state disk.old) (D.state disk.new) self.new.added) }
        ensures fault { IfErr result (λ fault. AddsPart (D.tells disk.new) (D.has_failed disk.new)
            (R.state input.old) (R.state input.new) (D.state disk.old) (D.state disk.new) self.new.added
            fault) }
        ensures told { D.tells disk.new → D.tells disk.old }
        ensures failures { MatchResult result
            (λ _. (R.state input.new).failures ≡ (R.state input.old).failures)
            (λ fault. FailuresAt fault (R.state input.old).failures (R.state input.new).failures) }
    {
        'pieces: while self.add_piece(alloc, disk, input)? {}
        Ok(())
    }
}
