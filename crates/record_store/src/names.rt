//! What files are called.
ghost use Rattle.std.specs.Prelude.{◌≡◌, ◌≢◌, ◌≤◌, IfNone, IfOk, IfSome, ℕ};
ghost use Rattle.record_store.specs.Asides.{aside_name};
ghost use Rattle.record_store.specs.Names.{AreNumbersOf, IsGreater, IsJournal, IsNewest, journal_name};
ghost use Rattle.record_store.specs.Renewals.{renewal_name};

use disk::FileName;
use itoa::Buffer;
use std::alloc::{AllocError, Global};

/// The name of the journal with a number.
pub(crate) fn name_of_journal(alloc: Global, number: u64) -> Result<FileName, AllocError>
    ensures { IfOk result (λ name. name ≡ journal_name number) }
{
    let mut octets = b"journal.".to_vec(alloc)?;
    octets.extend_from_slice(Buffer::new().format(number).as_bytes())?;
    match FileName::new(alloc, &octets)? {
        Some(name) => Ok(name),
        None => unreachable!(),
    }
}

/// The name of the file to which octets of the journal with a number are moved that stand for nothing.
pub(crate) fn name_of_aside(alloc: Global, number: u64) -> Result<FileName, AllocError>
    ensures { IfOk result (λ name. name ≡ aside_name number) }
{
    let mut octets = b"damaged.journal.".to_vec(alloc)?;
    octets.extend_from_slice(Buffer::new().format(number).as_bytes())?;
    match FileName::new(alloc, &octets)? {
        Some(name) => Ok(name),
        None => unreachable!(),
    }
}

/// The name of a journal that is written anew, until all of it is on the disk.
pub(crate) fn name_of_renewal(alloc: Global) -> Result<FileName, AllocError>
    ensures { IfOk result (λ name. name ≡ renewal_name) }
{
    match FileName::new(alloc, b"new.journal")? {
        Some(name) => Ok(name),
        None => unreachable!(),
    }
}

/// The number of the journal that has this name.
pub(crate) fn journal_number(name: &[u8]) -> Option<u64>
    ensures some { IfSome result (λ number. name.now ≡ journal_name number) }
    ensures none { IfNone result (¬ (IsJournal name.now)) }
{
    let digits = name.strip_prefix(b"journal.".as_slice())?;
    let Ok(text) = str::from_utf8(digits) else {
        return None;
    };
    let Ok(number) = text.parse::<u64>() else {
        return None;
    };
    if Buffer::new().format(number).as_bytes() != digits {
        return None;
    }
    Some(number)
}

// The same, if it is not above the last.
fn number_up_to(name: &[u8], last: u64) -> Option<u64>
    ensures some { IfSome result (λ number. (number ≤ last) × (name.now ≡ journal_name number)) }
    ensures none { IfNone result ((n : ℕ) → n ≤ last → name.now ≢ journal_name n) }
{
    match journal_number(name) {
        Some(number) if number <= last => Some(number),
        _ => None,
    }
}

// the greater of two numbers, of which there may be none
fn greater(a: Option<u64>, b: Option<u64>) -> Option<u64>
    ensures { IsGreater a b result }
{
    match (a, b) {
        (Some(m), Some(n)) => Some(m.max(n)),
        (Some(m), None) => Some(m),
        (None, other) => other,
    }
}

/// The greatest number of a journal among these names.
pub(crate) fn newest(names: &[FileName]) -> Option<u64>
    ensures { IsNewest names.now result }
{
    let mut newest = None;
    for name in names {
        newest = greater(newest, journal_number(name.as_octets()));
    }
    newest
}

/// The numbers up to one of the journals that have these names, as they come.
pub(crate) fn numbers_up_to(
    alloc: Global,
    names: &[FileName],
    last: u64,
) -> Result<Vec<u64>, AllocError>
    ensures { IfOk result (λ numbers. AreNumbersOf names.now last numbers.items) }
{
    let mut numbers = Vec::new(alloc);
    for name in names {
        if let Some(number) = number_up_to(name.as_octets(), last) {
            numbers.push(number)?;
        }
    }
    Ok(numbers)
}
