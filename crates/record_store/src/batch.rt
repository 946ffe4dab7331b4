//! Entries that wait for a commit.
ghost use Rattle.std.specs.Prelude.{◌≡◌, ◌++◌, OnErr, OnOk, length, take};
ghost use Rattle.syslog_frame.specs.Frames.{framed};
ghost use Rattle.syslog_frame.specs.declared.framing.Framing.TheVariants.{Counted};

use itoa::Buffer;
use std::alloc::AllocError;

// Puts the text of the entry with these octets behind what is there: all of it or a part.
fn put_parts(batch: &mut Vec<u8>, octets: &[u8]) -> Result<(), AllocError>
    ensures ok { OnOk result (batch.new.items ≡ batch.old.items ++ framed Counted octets.now) }
    ensures behind { take (length batch.old.items) batch.new.items ≡ batch.old.items }
{
    batch.extend_from_slice(Buffer::new().format(octets.len()).as_bytes())?;
    batch.push(b' ')?;
    batch.extend_from_slice(octets)?;
    Ok(())
}

/// Puts the text of the entry with these octets behind what is there; out of memory, nothing.
pub(crate) fn put_entry(batch: &mut Vec<u8>, octets: &[u8]) -> Result<(), AllocError>
    ensures ok { OnOk result (batch.new.items ≡ batch.old.items ++ framed Counted octets.now) }
    ensures err { OnErr result (batch.new.items ≡ batch.old.items) }
{
    let len = batch.len();
    match put_parts(batch, octets) {
        Ok(()) => Ok(()),
        Err(fault) => {
            batch.truncate(len);
            Err(fault)
        }
    }
}
