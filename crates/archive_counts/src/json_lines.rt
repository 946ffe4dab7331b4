//! The lines of a count as objects of JSON (RFC 8259).

ghost use Rattle.std.specs.Prelude.{◌≡◌, ◌∷◌, ◌++◌, ℕ, List};
ghost use Rattle.std.specs.List.{AllByRecursion};
ghost use Rattle.octet_language.specs.Language.{Each, Only};
ghost use Rattle.syslog_fields.specs.Appending.{Puts};
ghost use Rattle.archive_counts.specs.Json.{FrontJson, MembersText, RowJson, TimeValue, member_key, value_of};
ghost use Rattle.archive_counts.specs.Words.{IsFree, spaced};

use crate::key::CountKey;
use crate::line::put_number;
use crate::rows::Row;
use memchr::memchr;
use record_json::put_string;
use std::alloc::AllocError;
use syslog_fields::appending::put;
use syslog_fields::reading::behind_first;
use syslog_grammar::canonical_timestamp;
use syslog_value::Instant;

// The name of a key, as a member of an object begins behind others.
fn member_key(key: CountKey) -> &'static [u8]
    ensures { result.now ≡ member_key key }
{
    match key {
        CountKey::Host => b",\"host\":",
        CountKey::App => b",\"app\":",
        CountKey::Proc => b",\"proc\":",
        CountKey::Msgid => b",\"msgid\":",
        CountKey::Facility => b",\"facility\":",
        CountKey::Severity => b",\"severity\":",
        CountKey::Day => b",\"day\":",
        CountKey::Hour => b",\"hour\":",
        CountKey::Minute => b",\"minute\":",
    }
}

// The word behind the space that a text begins with, and what comes behind it.
fn split_word(text: &[u8]) -> (&[u8], &[u8])
    ensures { (word : List ℕ) (words : List (List ℕ)) → AllByRecursion IsFree word
        → text.now ≡ 32 ∷ word ++ spaced words
        → (result.0.now ≡ word) × (result.1.now ≡ spaced words) }
{
    let behind = behind_first(text);
    let len = memchr(b' ', behind).unwrap_or(behind.len());
    behind.split_at(len)
}

// Appends a word as a string, or null for NILVALUE.
fn put_value(word: &[u8], out: &mut Vec<u8>) -> Result<(), AllocError>
    ensures { Puts (Only (value_of word.now)) out.old.items out.new.items result }
{
    if word == b"-".as_slice() {
        return put(b"null", out);
    }
    put_string(word, out)
}

// Appends the canonical form of an instant as a string, or null.
fn put_time(instant: Option<Instant>, out: &mut Vec<u8>) -> Result<(), AllocError>
    ensures { Puts (TimeValue instant) out.old.items out.new.items result }
{
    match instant {
        None => put(b"null", out),
        Some(instant) => put_string(&canonical_timestamp(instant), out),
    }
}

// Appends a member for each key, with its word.
fn put_members(keys: &[CountKey], words: &[u8], out: &mut Vec<u8>) -> Result<(), AllocError>
    ensures { Puts (MembersText keys.now words.now) out.old.items out.new.items result }
{
    let mut rest = words;
    'keys: for key in keys {
        let (word, behind) = split_word(rest);
        put(member_key(*key), out)?;
        put_value(word, out)?;
        rest = behind;
    }
    Ok(())
}

// Appends the members that each line has.
fn put_first_members(row: &Row, out: &mut Vec<u8>) -> Result<(), AllocError>
    ensures { Puts (FrontJson row.now.tally) out.old.items out.new.items result }
{
    put(b"{\"count\":", out)?;
    put_number(row.tally.records, out)?;
    put(b",\"octets\":", out)?;
    put_number(row.tally.octets, out)?;
    put(b",\"first\":", out)?;
    put_time(row.tally.first, out)?;
    put(b",\"last\":", out)?;
    put_time(row.tally.last, out)
}

fn put_row(keys: &[CountKey], row: &Row, out: &mut Vec<u8>) -> Result<(), AllocError>
    ensures { Puts (RowJson keys.now row.now) out.old.items out.new.items result }
{
    put_first_members(row, out)?;
    put_members(keys, &row.words, out)?;
    put(b"}\n", out)
}

/// Appends an object on a line for each row. If memory is refused, a part may have been appended.
pub fn put_objects(keys: &[CountKey], rows: &[Row], out: &mut Vec<u8>) -> Result<(), AllocError>
    ensures { Puts (Each (RowJson keys.now) rows.now) out.old.items out.new.items result }
{
    'rows: for row in rows {
        put_row(keys, row, out)?;
    }
    Ok(())
}
