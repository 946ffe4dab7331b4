//! Records, as they are told.

ghost use Rattle.std.specs.Prelude.{◌≡◌, ◌++◌, ◌≤◌, OnOk, length};
ghost use Rattle.archive_text.specs.Text.{entry_text, text_of};

use crate::values::{put, put_number};
use reconcile::Place;
use std::alloc::AllocError;

// Puts a record: its length, a space and its octets.
fn put_record(text: &mut Vec<u8>, place: &Place) -> Result<(), AllocError>
    ensures { OnOk result (text.new.items ≡ text.old.items ++ entry_text place.now) }
{
    let octets = place.view().octets;
    put_number(text, octets.len() as u64, b" ")?;
    put(text, octets)
}

/// Puts the archive of some entries behind a text. It fails only when out of memory.
pub fn write_entries(text: &mut Vec<u8>, entries: &[Place]) -> Result<(), AllocError>
    ensures { OnOk result (text.new.items ≡ text.old.items ++ text_of entries.now) }
{
    for place in entries {
        put_record(text, place)?;
    }
    Ok(())
}

/// How many octets an entry has in an archive, at most.
pub fn entry_size(place: &Place) -> u64 {
    (place.view().octets.len() as u64).saturating_add(21)
}
