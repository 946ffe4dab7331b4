//! A store as a set with ranges.

ghost use Rattle.std.specs.Prelude.{◌≡◌, IfErr, OnErr, OnOk};
ghost use Rattle.journal.specs.Journals.{IsSound};
ghost use Rattle.reconcile.specs.Unions.{Joins};
ghost use Rattle.store_site.specs.Sites.{TakesLacking, TakesNew, TakesPart};

use disk::Disk;
use octet_devices::FromRead;
use reconcile::{MemorySet, Part, Range, RangedSet, Records, SetFault, Sum, write_records};
use std::alloc::Global;
use store_addition::{AddFault, add_archive};

/// The records of a store, in memory, and the disk that has its folder. Records that are added, and
/// that it lacks, go to the disk first.
#[derive(Drop)]
pub struct StoreSite<'d, D> {
    alloc: Global,
    disk: &'d mut D,
    set: MemorySet,
    fault: Option<AddFault>,
}

// Puts records into the folder on a disk.
fn add_to_disk<D: Disk>(alloc: Global, disk: &mut D, records: &Records) -> Result<(), AddFault>
    ensures ok { OnOk result (D.tells disk.new → IsSound (D.state disk.old)
        → TakesNew (D.state disk.old) (D.state disk.new) records.now) }
    ensures err { IfErr result (TakesPart (D.tells disk.new) (D.has_failed disk.new)
        (D.state disk.old) (D.state disk.new) records.now) }
    ensures told { D.tells disk.new → D.tells disk.old }
{
    if records.len() == 0 {
        return Ok(());
    }
    let mut text = Vec::new(alloc);
    write_records(&mut text, records)?;
    match add_archive(alloc, disk, &mut FromRead::new(text.as_slice())) {
        Ok(_) => Ok(()),
        Err(at) => Err(at.fault),
    }
}

impl<'d, D: Disk> StoreSite<'d, D> {
    /// The site of a store that holds these records, in the folder of a disk.
    pub fn new(alloc: Global, disk: &'d mut D, set: MemorySet) -> StoreSite<'d, D>
        ensures { ⟦<StoreSite<'d, D> as RangedSet>⟧.entries result
            ≡ ⟦<MemorySet as RangedSet>⟧.entries set }
    {
        StoreSite {
            alloc,
            disk,
            set,
            fault: None,
        }
    }

    /// Why the disk did not take records (`SetFault::Failed`), if it did not.
    pub fn fault(&self) -> Option<&AddFault> {
        self.fault.as_ref()
    }

    /// The same, once the site is done with.
    pub fn into_fault(self) -> Option<AddFault> {
        self.fault
    }
}

impl<'d, D: Disk> RangedSet for StoreSite<'d, D> {
    ghost entries = { λ s. ⟦<MemorySet as RangedSet>⟧.entries s.set };

    fn sum(&mut self, range: &Range) -> Result<Sum, SetFault> {
        self.set.sum(range)
    }

    fn parts(&mut self, range: &Range, most: u64) -> Result<Vec<Part>, SetFault> {
        self.set.parts(range, most)
    }

    fn within(&mut self, parts: &[Part]) -> Result<Records, SetFault> {
        self.set.within(parts)
    }

    fn lacking(&mut self, parts: &[Part], got: &Records) -> Result<Records, SetFault> {
        self.set.lacking(parts, got)
    }

    // what the set lacks goes to the disk first; after a fault the set is as it was
    fn add(&mut self, records: &Records) -> Result<(), SetFault>
        ensures joins { Joins (⟦<MemorySet as RangedSet>⟧.entries self.old.set) records.now
            (⟦<MemorySet as RangedSet>⟧.entries self.new.set) result }
        ensures err { OnErr result (⟦<MemorySet as RangedSet>⟧.entries self.new.set
            ≡ ⟦<MemorySet as RangedSet>⟧.entries self.old.set) }
        ensures disk { OnOk result (D.tells self.new.disk.now → IsSound (D.state self.old.disk.now)
            → TakesLacking (D.state self.old.disk.now) (D.state self.new.disk.now)
            (⟦<MemorySet as RangedSet>⟧.entries self.old.set) records.now) }
    {
        let new = self.set.missing(records)?;
        match add_to_disk(self.alloc, self.disk, &new) {
            Ok(()) => self.set.add(records),
            Err(AddFault::Memory) => Err(SetFault::Memory),
            Err(fault) => {
                self.fault = Some(fault);
                Err(SetFault::Failed)
            }
        }
    }

    ghost archive = { λ s. s.set.archive };
}
