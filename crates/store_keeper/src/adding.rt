//! The records of a set are added to a store.
ghost use Rattle.std.specs.Prelude.{◌≡◌, ◌∷◌, [], OnErr, OnOk};
ghost use Rattle.archive_pages.specs.Paged.{entries_from};
ghost use Rattle.archive_text.specs.Entries.{IsEntry};
ghost use Rattle.archive_text.specs.EntryViews.{entry_of};
ghost use Rattle.store_keeper.specs.Keeping.{IsPlace, StaysAs, Takes, TakesFront};

use archive_pages::{PagedArchive, Place};
use archive_text::{AddFault, Added, EntryView, Store};
use durable_store::DurableStore;
use serve_engine::{KeepFault, Taken};
use std::alloc::Global;
use syslog_grammar::view;

// What it means to a server that a record was not added.
fn fault_of(fault: AddFault) -> KeepFault {
    match fault {
        AddFault::Memory => KeepFault::Memory,
        AddFault::TooLong => KeepFault::Failed,
    }
}

// Counts a record that was added.
fn counted(taken: Taken, added: Added) -> Taken {
    match added {
        Added::New => Taken {
            new: taken.new.saturating_add(1),
            held: taken.held,
        },
        Added::Held => Taken {
            new: taken.new,
            held: taken.held.saturating_add(1),
        },
    }
}

// Adds the record of an entry.
fn add_entry(
    alloc: Global,
    store: &mut DurableStore,
    entry: &EntryView<'_>,
) -> Result<Added, KeepFault>
    requires { IsEntry (entry_of entry.now) }
    ensures ok { OnOk result (Takes store.old store.new (entry_of entry.now ∷ [])) }
    ensures err { OnErr result (StaysAs store.old store.new) }
{
    let Ok(view) = view(entry.octets) else {
        return Err(KeepFault::Failed);
    };
    match store.add_view(alloc, &view) {
        Ok(added) => Ok(added),
        Err(fault) => Err(fault_of(fault)),
    }
}

/// Adds the records of a set from a place on, and moves the place behind the last that was added.
pub(crate) fn add_from(
    alloc: Global,
    store: &mut DurableStore,
    fresh: &PagedArchive,
    place: &mut Place,
    taken: &mut Taken,
) -> Result<(), KeepFault>
    requires { IsPlace fresh.now place.old }
    ensures front { TakesFront store.old store.new (entries_from fresh.now place.old)
        (entries_from fresh.now place.new) }
    ensures all { OnOk result (entries_from fresh.now place.new ≡ []) }
{
    'entries: while let Some((entry, behind)) = fresh.next(*place) {
        let added = add_entry(alloc, store, &entry)?;
        *taken = counted(*taken, added);
        *place = behind;
    }
    Ok(())
}
