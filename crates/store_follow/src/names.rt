//! What journals are called.
ghost use Rattle.std.specs.Prelude.{◌≡◌, IfOk};
ghost use Rattle.record_store.specs.Names.{journal_name};

use disk::FileName;
use itoa::Buffer;
use std::alloc::{AllocError, Global};

/// The name of the journal with a number.
pub(crate) fn name_of_journal(alloc: Global, number: u64) -> Result<FileName, AllocError>
    ensures { IfOk result (λ name. name ≡ journal_name number) }
{
    let mut octets = b"journal.".to_vec(alloc)?;
    octets.extend_from_slice(Buffer::new().format(number).as_bytes())?;
    match FileName::new(alloc, &octets)? {
        Some(name) => Ok(name),
        None => unreachable!(),
    }
}
