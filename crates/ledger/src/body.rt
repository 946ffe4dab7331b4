//! What stands in a line before its chain is read.

ghost use Rattle.std.specs.Prelude.{◌≡◌, ◌≢◌, ℕ, List, MatchOption, codes, decimal};
ghost use Rattle.ledger.specs.Lines.{IsEvent, IsLine, IsRemoval, IsSaid, Said, body_text, octets_text};
ghost use Rattle.ledger.specs.Lines.{removal_text, said_of, said_text, what_word};
ghost use Rattle.ledger.specs.Words.{IsHash, IsNumber, word_and};
ghost use Rattle.ledger.specs.declared.entry.Event.{Event as Happening};
ghost use Rattle.ledger.specs.declared.entry.Removal.{Removal as Why};

use crate::entry::{Event, LedgerEntry, Removal};
use crate::words::{cut, hash_of, is, number_of, read_number, read_word};

/// The most octets of a time.
pub(crate) const TIME_MAX: usize = 32;

/// The most octets of a name.
pub(crate) const NAME_MAX: usize = 255;

// Why a segment is gone, by the end of its line.
fn read_removal(text: &[u8]) -> Option<Removal>
    ensures { MatchOption result ((why : Why) → IsRemoval why → text.now ≢ removal_text why)
        (λ why. IsRemoval why × (text.now ≡ removal_text why)) }
{
    if is(text, b"expired") {
        return Some(Removal::Expired);
    }
    let (word, rest) = cut(text)?;
    if !is(word, b"joined") {
        return None;
    }
    let line = number_of(rest)?;
    Some(Removal::Joined(line))
}

// How many octets a segment that is gone has, and why it is gone.
fn read_gone(text: &[u8]) -> Option<(u64, Event)>
    ensures { MatchOption result ((n : ℕ) (why : Why) → IsNumber n → IsRemoval why
        → text.now ≢ word_and (decimal n) (removal_text why))
        (λ x. IsNumber x.0 × IsEvent x.1 × (what_word x.1 ≡ codes "gone")
        × (text.now ≡ octets_text x.1 x.0)) }
{
    let (octets, rest) = read_number(text)?;
    let removal = read_removal(rest)?;
    Some((octets, Event::Gone(removal)))
}

// How many octets a segment that was sealed has, and its root.
fn read_sealed(text: &[u8]) -> Option<(u64, Event)>
    ensures { MatchOption result ((n : ℕ) (root : List ℕ) → IsNumber n → IsHash root
        → text.now ≢ word_and (decimal n) root)
        (λ x. IsNumber x.0 × IsEvent x.1 × (what_word x.1 ≡ codes "seal")
        × (text.now ≡ octets_text x.1 x.0)) }
{
    let (octets, rest) = read_number(text)?;
    let root = hash_of(rest)?;
    Some((octets, Event::Sealed(root)))
}

// How many octets a segment has, and what happened to it, which this word names.
fn read_event(what: &[u8], text: &[u8]) -> Option<(u64, Event)>
    ensures { MatchOption result ((n : ℕ) (event : Happening) → IsNumber n → IsEvent event
        → what.now ≡ what_word event → text.now ≢ octets_text event n)
        (λ x. IsNumber x.0 × IsEvent x.1 × (what.now ≡ what_word x.1)
        × (text.now ≡ octets_text x.1 x.0)) }
{
    if is(what, b"gone") {
        return read_gone(text);
    }
    if is(what, b"seal") {
        return read_sealed(text);
    }
    let octets = number_of(text)?;
    if is(what, b"add") {
        return Some((octets, Event::Added));
    }
    if is(what, b"join") {
        return Some((octets, Event::Joined));
    }
    None
}

// What a line says of a segment.
fn read_entry(text: &[u8]) -> Option<LedgerEntry<'_>>
    ensures { MatchOption result ((s : Said) → IsSaid s → text.now ≢ said_text s)
        (λ x. IsSaid (said_of x) × (text.now ≡ said_text (said_of x))) }
{
    let (what, rest) = cut(text)?;
    let (name, rest) = read_word(rest, NAME_MAX)?;
    let (count, rest) = read_number(rest)?;
    let (octets, event) = read_event(what, rest)?;
    Some(LedgerEntry {
        event,
        name,
        count,
        octets,
    })
}

/// The number of a line, and what it says of a segment.
pub(crate) fn read_body(text: &[u8]) -> Option<(u64, LedgerEntry<'_>)>
    ensures { MatchOption result ((n : ℕ) (time : List ℕ) (s : Said) → IsLine n time s
        → text.now ≢ body_text n time s)
        (λ x. (time : List ℕ) × IsLine x.0 time (said_of x.1)
        × (text.now ≡ body_text x.0 time (said_of x.1))) }
{
    let (number, rest) = read_number(text)?;
    let (_time, rest) = read_word(rest, TIME_MAX)?;
    let entry = read_entry(rest)?;
    Some((number, entry))
}
