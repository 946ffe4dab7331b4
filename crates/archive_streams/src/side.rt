//! An archive is read entry by entry.

ghost use Rattle.std.specs.Prelude.{◌≡◌, ◌≢◌, ◌<◌, ◌≤◌, ◌++◌, [], false, vec_capacity, vec_len};
ghost use Rattle.std.specs.Prelude.{IfErr, IfOk, IsTrue, OnOk};
ghost use Rattle.archive_streams.specs.Pieces.{ReadsOn, size_of, unused};
ghost use Rattle.archive_streams.specs.Faults.{SideFailures};
ghost use Rattle.archive_streams.specs.declared.entry.TheConstants.{TEXT_MAX};
ghost use Rattle.archive_streams.specs.declared.pieces.TheConstants.{ENTRIES_READ_MAX};

use crate::entry::{EntryText, TEXT_MAX};
use crate::fault::SideFault;
use crate::pieces::Pieces;
use crate::reading::read_entry;
use archive_text::ArchiveFault;
use octet_devices::Input;
use std::alloc::{AllocError, Global};

/// An archive that is read entry by entry.
#[derive(Drop)]
pub struct ArchiveReader {
    /// The pieces in which it is read.
    pub pieces: Pieces,
    /// The position of the first octet behind the entry that was read last.
    pub position: u64,
    /// The entry that was read last, or none at the end.
    pub entry: EntryText,
}

impl ArchiveReader {
    ghost use Rattle.archive_streams.specs.Sides.{HoldsNext, IsNear, IsNextFault, IsOn};
    ghost use Rattle.archive_streams.specs.Sides.{ReadiesSide, StopsSide};

    /// An archive before its first entry, whose reader is asked for `size` octets per call. It
    /// fails only when out of memory.
    pub fn new(alloc: Global, size: usize) -> Result<ArchiveReader, AllocError>
        requires some { 0 < size }
        requires most { size ≤ ENTRIES_READ_MAX }
        ensures size { IfOk result (λ r. size_of r.pieces ≡ size) }
        ensures unused { IfOk result (λ r. unused r.pieces ≡ []) }
        ensures calls { IfOk result (λ r. r.pieces.calls ≡ 0) }
        ensures ends { IfOk result (λ r. r.pieces.ends ≡ 0) }
        ensures position { IfOk result (λ r. r.position ≡ 0) }
        ensures room { IfOk result (λ r. TEXT_MAX ≤ vec_capacity r.entry.text) }
        ensures empty { IfOk result (λ r. r.entry.text.items ≡ []) }
        ensures start { IfOk result (λ r. r.entry.start ≤ vec_len r.entry.text) }
    {
        Ok(ArchiveReader {
            pieces: Pieces::new(alloc, size)?,
            position: 0,
            entry: EntryText::new(alloc)?,
        })
    }

    /// Reads the next entry, which must be above the last one, and answers true; or finds the end,
    /// and answers false. It fails if what follows is no such entry, the reader fails, or it gives
    /// no end.
    pub fn next<R: Input>(&mut self, reader: &mut R, last: &EntryText) -> Result<bool, SideFault>
        requires room { TEXT_MAX ≤ vec_capacity self.old.entry.text }
        requires last { last.now.start ≤ vec_len last.now.text }
        requires near { IsNear self.old }
        ensures reads { ReadsOn self.old.pieces self.new.pieces
            (R.state reader.old) (R.state reader.new)
            (unused self.old.pieces) (self.new.entry.text.items ++ unused self.new.pieces) }
        ensures failures { SideFailures result (R.state reader.old).failures
            (R.state reader.new).failures }
        ensures room { TEXT_MAX ≤ vec_capacity self.new.entry.text }
        ensures on { IfOk result (λ _. IsOn self.old self.new) }
        ensures entry { IfOk result (λ some. IsTrue some →
            HoldsNext last.now self.new.entry) }
        ensures end { IfOk result (λ some. some ≡ false → (self.new.entry.text.items ≡ [])
            × (unused self.new.pieces ≡ []) × (0 < self.new.pieces.ends)) }
        ensures fault { IfErr result (λ fault. IsNextFault fault last.now self.old.position
            (self.new.entry.text.items ++ unused self.new.pieces) self.new.pieces) }
    {
        match read_entry(&mut self.pieces, reader, &mut self.entry) {
            Ok(false) => Ok(false),
            Ok(true) => {
                if !self.entry.is_above(last) {
                    let at = self.position;
                    return Err(SideFault::Archive(ArchiveFault::NotAscending { at }));
                }
                self.position += self.entry.text.len() as u64;
                Ok(true)
            }
            Err(SideFault::Archive(fault)) => {
                Err(SideFault::Archive(fault.later(self.position)))
            }
            Err(SideFault::Input(fault)) => Err(SideFault::Input(fault)),
        }
    }

    /// Reads the next entry behind the last one that was joined, or finds the end. The faults are
    /// those of `next`.
    pub fn advance<R: Input>(&mut self, reader: &mut R, last: &EntryText) -> Result<(), SideFault>
        requires room { TEXT_MAX ≤ vec_capacity self.old.entry.text }
        requires last { last.now.start ≤ vec_len last.now.text }
        requires near { IsNear self.old }
        ensures size { size_of self.new.pieces ≡ size_of self.old.pieces }
        ensures failures { SideFailures result (R.state reader.old).failures
            (R.state reader.new).failures }
        ensures room { TEXT_MAX ≤ vec_capacity self.new.entry.text }
        ensures on { OnOk result (IsOn self.old self.new) }
        ensures start { OnOk result (self.new.entry.text.items ≢ [] →
            self.new.entry.start ≤ vec_len self.new.entry.text) }
        ensures ready { OnOk result (ReadiesSide self.old self.new last.now
            (R.state reader.old) (R.state reader.new)) }
        ensures stop { IfErr result (λ fault. StopsSide fault self.old self.new last.now
            (R.state reader.old) (R.state reader.new)) }
    {
        match self.next(reader, last) {
            Ok(true) => Ok(()),
            Ok(false) => Ok(()),
            Err(fault) => Err(fault),
        }
    }
}
