//! Which names the files of a store may have.
ghost use Rattle.std.specs.Prelude.{◌≡◌, ◌↔◌, IfOk, IsTrue};
ghost use Rattle.ledger_engine.specs.Known.{IsAsideName, IsDraft, IsLedgerOrBackup, IsLock};
ghost use Rattle.ledger_engine.specs.Known.{IsOfStore, IsRefused, IsSegmentName, ledger_text};

use disk::FileName;
use std::alloc::{AllocError, Global};
use store_reading::{is_journal, segment_period};

/// What the ledger is called.
pub(crate) fn ledger_name(alloc: Global) -> Result<FileName, AllocError>
    ensures { IfOk result (λ name. name ≡ ledger_text) }
{
    match FileName::new(alloc, b"ledger")? {
        Some(name) => Ok(name),
        None => unreachable!(),
    }
}

/// Whether this is the name of a segment.
pub(crate) fn is_segment(name: &[u8]) -> bool
    ensures { IsTrue result ↔ IsSegmentName name.now }
{
    segment_period(name).is_some()
}

// Whether this is the name of a lock.
fn is_lock(name: &[u8]) -> bool
    ensures { IsTrue result ↔ IsLock name.now }
{
    name == b"lock".as_slice()
        || name == b"lock.compact".as_slice()
        || name == b"lock.add".as_slice()
        || name == b"lock.ledger".as_slice()
}

// Whether this is the name of a draft.
fn is_draft(name: &[u8]) -> bool
    ensures { IsTrue result ↔ IsDraft name.now }
{
    name == b"new.archive".as_slice()
        || name == b"new.journal".as_slice()
        || name == b"compact.archive".as_slice()
        || name == b"add.archive".as_slice()
        || name == b"expire.archive".as_slice()
        || name == b"backup.archive".as_slice()
}

// Whether this is the name of a file of what was refused.
fn is_refused(name: &[u8]) -> bool
    ensures { IsTrue result ↔ IsRefused name.now }
{
    name == b"refused".as_slice()
        || name == b"refused.1".as_slice()
        || name == b"refused.new".as_slice()
}

// Whether this is the name of the ledger, or of what a backup has left to do.
fn is_ledger_or_backup(name: &[u8]) -> bool
    ensures { IsTrue result ↔ IsLedgerOrBackup name.now }
{
    name == b"ledger".as_slice() || name == b"backup.unfinished".as_slice()
}

// Whether this is the name of a file that was set aside.
fn is_aside(name: &[u8]) -> bool
    ensures { IsTrue result ↔ IsAsideName name.now }
{
    name.starts_with(b"damaged.")
}

/// Whether a store may have a file of this name: a journal, a segment, a lock, a draft, the ledger, what was refused, or
/// what was set aside.
pub fn is_of_store(name: &[u8]) -> bool
    ensures { IsTrue result ↔ IsOfStore name.now }
{
    is_journal(name)
        || is_segment(name)
        || is_aside(name)
        || is_lock(name)
        || is_draft(name)
        || is_refused(name)
        || is_ledger_or_backup(name)
}
