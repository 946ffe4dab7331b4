//! A disk that keeps the ledger of a store, where the one underneath has its files read and written as
//! streams.

ghost use Rattle.std.specs.Prelude.{◌≡◌, IfOk};
ghost use Rattle.disk.specs.Calls.{IsUnchanged};
ghost use Rattle.journal.specs.Journals.{IsSound};
ghost use Rattle.ledger_disk.specs.Below.{below, known};
ghost use Rattle.store_reading.specs.Folders.{IsUnused, Opens};
ghost use Rattle.store_upkeep.specs.Compaction.{shown};

use crate::ledger_disk::LedgerDisk;
use crate::turns::Turns;
use disk::{DiskFault, FileName};
use std::alloc::Global;
use store_upkeep::StreamDisk;

impl<D: StreamDisk + Drop, T: Turns + Drop> LedgerDisk<D, T> {
    /// Opens a file of the disk underneath.
    pub fn open_below(&mut self, alloc: Global, name: &FileName) -> Result<D::File, DiskFault>
        ensures opened { D.tells (below self.new) → IsSound (D.state (below self.old)) → IfOk result (λ file.
            Opens (shown (D.state (below self.old))) name.now (D.File.state file)) }
        ensures unused { IfOk result (λ file. IsUnused (D.File.state file)) }
        ensures same { D.tells (below self.new)
            → IsUnchanged (D.state (below self.old)) (D.state (below self.new)) }
        ensures known { known self.new ≡ known self.old }
        ensures told { D.tells (below self.new) → D.tells (below self.old) }
    {
        self.keeper.writer.disk.open(alloc, name)
    }
}

impl<D: StreamDisk + Drop, T: Turns + Drop> StreamDisk for LedgerDisk<D, T> {
    type File = D::File;

    type Draft = D::Draft;

    fn open(&mut self, alloc: Global, name: &FileName) -> Result<D::File, DiskFault> {
        self.open_below(alloc, name)
    }

    fn begin(&mut self, name: &FileName) -> Result<D::Draft, DiskFault> {
        self.keeper.writer.disk.begin(name)
    }

    fn settle(&mut self, name: &FileName, draft: D::Draft) -> Result<(), DiskFault> {
        self.keeper.writer.disk.settle(name, draft)
    }
}
