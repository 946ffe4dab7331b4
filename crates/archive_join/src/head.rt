//! The next entry of an archive that is joined.

ghost use Rattle.std.specs.Prelude.{◌≡◌, false};
ghost use Rattle.archive_streams.specs.Entries.{IsOpen};

use archive_streams::{ArchiveEntries, EntriesFault};
use archive_text::{EntryView, compare};
use octet_devices::Input;
use std::alloc::{AllocError, Global};
use std::cmp::Ordering;

/// An archive that is being joined. Until it is closed, the entry that was read last is the next
/// one to be joined, or the one that was joined last.
#[derive(Drop)]
pub struct Head {
    /// The archive, read entry by entry.
    pub entries: ArchiveEntries,
    /// Whether its end or a fault was found.
    pub closed: bool,
    pub ghost open: { closed ≡ false → IsOpen entries },
}

impl Head {
    ghost use Rattle.std.specs.Prelude.{◌<◌, ◌≤◌, IfErr, IfOk, OnOk};
    ghost use Rattle.archive_text.specs.EntryViews.{entry_of};
    ghost use Rattle.archive_streams.specs.Faults.{SideFailures};
    ghost use Rattle.archive_join.specs.Heads.{Fails, IsNew, Moves, height, is_next, key_of};

    /// An archive before its first entry. It fails only when out of memory.
    pub fn new(alloc: Global) -> Result<Head, AllocError>
        ensures { IfOk result IsNew }
    {
        Ok(Head {
            entries: ArchiveEntries::new(alloc)?,
            closed: false,
        })
    }

    /// Reads the next entry, or finds the end. If it is closed, nothing happens. It fails if there
    /// is neither, and then it is closed.
    pub fn advance<R: Input>(&mut self, reader: &mut R) -> Result<(), EntriesFault>
        ensures moves { OnOk result (Moves self.old self.new (R.state reader.old)
            (R.state reader.new)) }
        ensures fails { IfErr result (λ fault. Fails fault self.old (R.state reader.old)
            (R.state reader.new)) }
        ensures no_farther { OnOk result (height self.new ≤ height self.old) }
        ensures nearer { OnOk result (self.old.closed ≡ false → height self.new < height self.old) }
        ensures told { SideFailures result (R.state reader.old).failures
            (R.state reader.new).failures }
    {
        if self.closed {
            return Ok(());
        }
        match self.entries.next(reader) {
            Ok(some) => {
                self.closed = !some;
                Ok(())
            }
            Err(fault) => {
                self.closed = true;
                Err(fault)
            }
        }
    }

    /// The number by which its next entry is compared: that of its instant, or the least one if it
    /// has none. A closed head has the greatest one.
    pub fn key(&self) -> i64
        ensures { result ≡ key_of self.now }
    {
        if self.closed {
            return i64::MAX;
        }
        match self.entries.entry().instant {
            None => i64::MIN,
            Some(instant) => instant.micros(),
        }
    }

    /// Whether its next entry is this one.
    pub fn is_next(&self, entry: &EntryView<'_>) -> bool
        ensures { result ≡ is_next (entry_of entry.now) self.now }
    {
        if self.closed {
            return false;
        }
        match compare(&self.entries.entry(), entry) {
            Ordering::Equal => true,
            Ordering::Less => false,
            Ordering::Greater => false,
        }
    }
}
