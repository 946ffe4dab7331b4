//! What is behind the batches of journals is set aside before an opening cuts it off.
ghost use Rattle.std.specs.Prelude.{IfErr, IfOk, List, OnOk};
ghost use Rattle.journal.specs.Journals.{IsSound};
ghost use Rattle.archive_text.specs.Entries.{Entry};
ghost use Rattle.record_store.specs.Causes.{IsCause, opening_causes, reading_causes};
ghost use Rattle.record_store.specs.Crashes.{Keeps};
ghost use Rattle.durable_store.specs.Asides.{ArePutAside, AreTails, CutsBeside, IsPutAside, IsTail, ShowsAllBatches};
ghost use Rattle.durable_store.specs.Asides.{tail_number};

use crate::tail::Tail;
use disk::Disk;
use record_store::{StoreFault, cut_journal, set_aside};
use std::alloc::Global;

/// Octets of a journal that stood for nothing, which the file `damaged.journal.N` has now.
#[derive(Clone, Copy, Debug, PartialEq, Eq)]
pub struct SetAside {
    /// The number of the journal.
    pub number: u64,
    /// How many octets they are.
    pub octets: u64,
}

// Sets aside what is behind the batches of a journal, and then cuts it off.
fn put_aside<D: Disk>(alloc: Global, disk: &mut D, tail: &Tail) -> Result<SetAside, StoreFault>
    ensures aside { IfOk result (λ aside. D.tells disk.new → IsSound (D.state disk.old) → IsTail (D.state disk.old) tail.now
        → IsPutAside (D.state disk.old) (D.state disk.new) tail.now aside) }
    ensures sound { OnOk result (D.tells disk.new → IsSound (D.state disk.old) → IsTail (D.state disk.old) tail.now
        → IsSound (D.state disk.new)) }

    ensures beside { OnOk result (D.tells disk.new → IsSound (D.state disk.old) → IsTail (D.state disk.old) tail.now
        → CutsBeside (D.state disk.old) (D.state disk.new) (tail_number tail.now)) }

    // whatever the result is: so at every moment
    ensures any_moment { D.tells disk.new → IsSound (D.state disk.old) → IsTail (D.state disk.old) tail.now
        → (committed received : List Entry) → Keeps (D.state disk.old) committed received
        → Keeps (D.state disk.new) committed received }

    ensures told { D.tells disk.new → D.tells disk.old }
    ensures cause { IfErr result (IsCause (reading_causes (D.tells disk.new) (D.has_failed disk.new)
        (D.state disk.old) (tail_number tail.now))) }
{
    set_aside(alloc, disk, tail.number, &tail.octets)?;
    cut_journal(alloc, disk, tail.number)?;
    Ok(SetAside {
        number: tail.number,
        octets: tail.octets.len() as u64,
    })
}

/// Sets aside what is behind the batches of journals, and cuts it off. It fails with the disk's fault or
/// for lack of memory.
pub(crate) fn put_tails_aside<D: Disk>(
    alloc: Global,
    disk: &mut D,
    tails: &[Tail],
) -> Result<Vec<SetAside>, StoreFault>
    ensures aside { IfOk result (λ asides. D.tells disk.new → IsSound (D.state disk.old)
        → AreTails (D.state disk.old) tails.now
        → ArePutAside (D.state disk.old) (D.state disk.new) tails.now asides.items) }
    ensures sound { OnOk result (D.tells disk.new → IsSound (D.state disk.old)
        → AreTails (D.state disk.old) tails.now → IsSound (D.state disk.new)) }

    ensures shows { OnOk result (D.tells disk.new → IsSound (D.state disk.old)
        → AreTails (D.state disk.old) tails.now → ShowsAllBatches (D.state disk.old) (D.state disk.new)) }

    // whatever the result is: so at every moment
    ensures any_moment { D.tells disk.new → IsSound (D.state disk.old)
        → AreTails (D.state disk.old) tails.now
        → (committed received : List Entry) → Keeps (D.state disk.old) committed received
        → Keeps (D.state disk.new) committed received }

    ensures told { D.tells disk.new → D.tells disk.old }
    ensures cause { IfErr result (λ fault. (D.tells disk.new → IsSound (D.state disk.old)
        → AreTails (D.state disk.old) tails.now) → IsCause
        (opening_causes (D.tells disk.new) (D.has_failed disk.new) (D.state disk.old)) fault) }
{
    let mut asides = Vec::new(alloc);
    for tail in tails {
        let aside = put_aside(alloc, disk, tail)?;
        if asides.push(aside).is_err() {
            return Err(StoreFault::Memory);
        }
    }
    Ok(asides)
}
