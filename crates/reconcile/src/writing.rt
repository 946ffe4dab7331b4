//! The text of records is written.

ghost use Rattle.std.specs.Prelude.{◌≡◌, ◌++◌, List, ℕ, OnErr, OnOk};
ghost use Rattle.syslog_frame.specs.Frames.{framed};
ghost use Rattle.syslog_frame.specs.declared.framing.Framing.TheVariants.{Counted};
ghost use Rattle.archive_text.specs.Text.{text_of};

use crate::place::Place;
use crate::records::Records;
use itoa::Buffer;
use std::alloc::AllocError;

// Writes the text of an entry with these octets behind others, or some of it.
fn push_entry(text: &mut Vec<u8>, octets: &[u8]) -> Result<(), AllocError>
    ensures ok { OnOk result (text.new.items ≡ text.old.items ++ framed Counted octets.now) }
    ensures behind { (more : List ℕ) × (text.new.items ≡ text.old.items ++ more) }
{
    let mut buffer = Buffer::new();
    text.extend_from_slice(buffer.format(octets.len()).as_bytes())?;
    text.extend_from_slice(b" ")?;
    text.extend_from_slice(octets)
}

// Writes the text of entries behind others, or some of it.
fn push_entries(text: &mut Vec<u8>, entries: &[Place]) -> Result<(), AllocError>
    ensures ok { OnOk result (text.new.items ≡ text.old.items ++ text_of entries.now) }
    ensures behind { (more : List ℕ) × (text.new.items ≡ text.old.items ++ more) }
{
    'writing: for entry in entries {
        push_entry(text, entry.view().octets)?;
    }
    Ok(())
}

/// Writes the text of records behind what `text` holds. When out of memory it stays as it was.
pub fn write_records(text: &mut Vec<u8>, records: &Records) -> Result<(), AllocError>
    ensures ok { OnOk result (text.new.items ≡ text.old.items ++ text_of records.now) }
    ensures err { OnErr result (text.new.items ≡ text.old.items) }
{
    let length = text.len();
    match push_entries(text, records.entries()) {
        Ok(()) => Ok(()),
        Err(AllocError) => {
            text.truncate(length);
            Err(AllocError)
        }
    }
}
