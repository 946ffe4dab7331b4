//! A line is written.

ghost use Rattle.std.specs.Prelude.{◌≡◌, ◌++◌, ◌∷◌, [], OnOk, decimal};
ghost use Rattle.ledger.specs.Lines.{body_text, octets_text, removal_text, said_of, said_text, what_word};

use crate::entry::{Event, LedgerEntry, Removal};
use itoa::Buffer;
use std::alloc::AllocError;

/// Puts octets behind others.
pub(crate) fn put(text: &mut Vec<u8>, octets: &[u8]) -> Result<(), AllocError>
    ensures { OnOk result (text.new.items ≡ text.old.items ++ octets.now) }
{
    text.extend_from_slice(octets)
}

// Puts a number, and octets behind it.
fn put_number(text: &mut Vec<u8>, number: u64, end: &[u8]) -> Result<(), AllocError>
    ensures { OnOk result (text.new.items ≡ text.old.items ++ (decimal number ++ end.now)) }
{
    put(text, Buffer::new().format(number).as_bytes())?;
    put(text, end)
}

// Puts the word of an event and a space.
fn put_what(text: &mut Vec<u8>, event: &Event) -> Result<(), AllocError>
    ensures { OnOk result (text.new.items ≡ text.old.items ++ (what_word event.now ++ 32 ∷ [])) }
{
    match event {
        Event::Added => put(text, b"add "),
        Event::Joined => put(text, b"join "),
        Event::Gone(_) => put(text, b"gone "),
        Event::Sealed(_) => put(text, b"seal "),
    }
}

// Puts why a segment is gone.
fn put_removal(text: &mut Vec<u8>, removal: &Removal) -> Result<(), AllocError>
    ensures { OnOk result (text.new.items ≡ text.old.items ++ removal_text removal.now) }
{
    match removal {
        Removal::Expired => put(text, b"expired"),
        Removal::Joined(line) => {
            put(text, b"joined ")?;
            put_number(text, *line, b"")
        }
    }
}

// Puts how many octets a segment has, and what a line says behind it.
fn put_octets(text: &mut Vec<u8>, octets: u64, event: &Event) -> Result<(), AllocError>
    ensures { OnOk result (text.new.items ≡ text.old.items ++ octets_text event.now octets) }
{
    match event {
        Event::Added | Event::Joined => put_number(text, octets, b""),
        Event::Gone(removal) => {
            put_number(text, octets, b" ")?;
            put_removal(text, removal)
        }
        Event::Sealed(root) => {
            put_number(text, octets, b" ")?;
            put(text, root)
        }
    }
}

// Puts what a line says of a segment.
fn put_entry(text: &mut Vec<u8>, entry: &LedgerEntry<'_>) -> Result<(), AllocError>
    ensures { OnOk result (text.new.items ≡ text.old.items ++ said_text (said_of entry.now)) }
{
    put_what(text, &entry.event)?;
    put(text, entry.name)?;
    put(text, b" ")?;
    put_number(text, entry.count, b" ")?;
    put_octets(text, entry.octets, &entry.event)
}

/// Puts the line with a number up to the space before its chain.
pub(crate) fn put_body(
    text: &mut Vec<u8>,
    number: u64,
    time: &[u8],
    entry: &LedgerEntry<'_>,
) -> Result<(), AllocError>
    ensures { OnOk result (text.new.items
        ≡ text.old.items ++ body_text number time.now (said_of entry.now)) }
{
    put_number(text, number, b" ")?;
    put(text, time)?;
    put(text, b" ")?;
    put_entry(text, entry)
}
