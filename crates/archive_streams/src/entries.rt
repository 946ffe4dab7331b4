//! An archive is read entry by entry.

ghost use Rattle.std.specs.Prelude.{◌≡◌, ◌≤◌, vec_capacity, vec_len};
ghost use Rattle.archive_streams.specs.Pieces.{size_of};
ghost use Rattle.archive_streams.specs.Sides.{IsNear};
ghost use Rattle.archive_streams.specs.declared.entry.TheConstants.{TEXT_MAX};
ghost use Rattle.archive_streams.specs.declared.pieces.TheConstants.{ENTRIES_READ_MAX};
ghost use Rattle.archive_streams.specs.declared.progress.Progress.TheVariants.{Open};

use crate::entry::EntryText;
use crate::fault::SideFault;
use crate::pieces::ENTRIES_READ_MAX;
use crate::progress::Progress;
use crate::side::ArchiveReader;
use archive_text::EntryView;
use octet_devices::Input;
use std::alloc::{AllocError, Global};
use std::mem::swap;

/// An archive, possibly larger than memory, that is read entry by entry from a reader. It holds two
/// entries, whatever the archive holds: the one that was read last, and room for the next one.
#[derive(Drop)]
pub struct ArchiveEntries {
    reader: ArchiveReader,
    spare: EntryText,
    progress: Progress,
    ghost room: { TEXT_MAX ≤ vec_capacity reader.entry.text },
    ghost spare_room: { TEXT_MAX ≤ vec_capacity spare.text },
    ghost size: { size_of reader.pieces ≡ ENTRIES_READ_MAX },
    ghost start: { reader.entry.start ≤ vec_len reader.entry.text },
    ghost near: { progress ≡ Open → IsNear reader },
}

impl ArchiveEntries {
    ghost use Rattle.std.specs.Prelude.{[], IfErr, IfOk, IsTrue, false};
    ghost use Rattle.octet_devices.specs.Device.{InputState};
    ghost use Rattle.archive_text.specs.EntryViews.{entry_of};
    ghost use Rattle.archive_streams.specs.Entries.{current, Ends, Halts, IsClosed, IsOpen, Reads};
    ghost use Rattle.archive_streams.specs.Entries.{ReadsOne};
    ghost use Rattle.archive_streams.specs.Faults.{SideFailures};

    /// An archive before its first entry. Room is reserved for two entries, `ENTRY_MAX` octets each
    /// and 11 more for its length and space, and for `ENTRIES_READ_MAX` octets of the reader; no
    /// further memory is taken.
    ///
    /// # Errors
    /// The room could not be allocated.
    pub fn new(alloc: Global) -> Result<ArchiveEntries, AllocError>
        ensures open { IfOk result IsOpen }
        ensures none { IfOk result (λ s. (d : InputState) → Reads s d d []) }
    {
        Ok(ArchiveEntries {
            reader: ArchiveReader::new(alloc, ENTRIES_READ_MAX)?,
            spare: EntryText::new(alloc)?,
            progress: Progress::Open,
        })
    }

    /// Reads the next entry, which must be above the one before it, and answers true; or finds the
    /// end, and answers false. After the end or a fault, the same answer is given again, and
    /// nothing is read.
    ///
    /// All calls must be given the same reader. It is called at most `READER_CALLS` times, for
    /// `ENTRIES_READ_MAX` octets each.
    ///
    /// # Errors
    /// What follows is no entry, the reader failed, or it did not give its end in so many calls.
    pub fn next<R: Input>(&mut self, reader: &mut R) -> Result<bool, SideFault>
        // what was read before goes on with an entry; or it is the whole archive, or the front of
        // what was given
        ensures entry { IfOk result (λ some. IsTrue some → ReadsOne self.old self.new
            (R.state reader.old) (R.state reader.new)) }
        ensures end { IfOk result (λ some. some ≡ false → Ends self.old self.new
            (R.state reader.old) (R.state reader.new)) }
        ensures fault { IfErr result (λ fault. Halts fault self.old self.new
            (R.state reader.old) (R.state reader.new)) }

        // the reader's fault just where it failed
        ensures told { IsOpen self.old → SideFailures result (R.state reader.old).failures
            (R.state reader.new).failures }

        // nothing happens after the end or a fault
        ensures again { IsClosed self.old → (self.new ≡ self.old) × (reader.new ≡ reader.old) }
    {
        match self.progress {
            Progress::Open => {}
            Progress::Ended => return Ok(false),
            Progress::Stopped(fault) => return Err(fault),
        }
        swap(&mut self.spare, &mut self.reader.entry);
        match self.reader.next(reader, &self.spare) {
            Ok(true) => Ok(true),
            Ok(false) => {
                swap(&mut self.spare, &mut self.reader.entry);
                self.progress = Progress::Ended;
                Ok(false)
            }
            Err(fault) => {
                swap(&mut self.spare, &mut self.reader.entry);
                self.progress = Progress::Stopped(fault);
                Err(fault)
            }
        }
    }

    /// The entry that was read last; before the first one, an entry of no octets.
    pub fn entry(&self) -> EntryView<'_>
        ensures { entry_of result ≡ current self.now }
    {
        self.reader.entry.view()
    }
}
