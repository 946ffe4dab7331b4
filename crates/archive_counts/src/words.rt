//! The words of a record under the keys that it is counted by.

ghost use Rattle.std.specs.Prelude.{◌≡◌, ◌≤◌, ℤ};
ghost use Rattle.syslog_value.specs.Parts.{Parts};
ghost use Rattle.syslog_fields.specs.Appending.{Puts};
ghost use Rattle.syslog_reading.specs.WellFormed.{WellFormed};
ghost use Rattle.archive_counts.specs.Words.{IsFacilityWord, IsPeriodWord, IsSeverityWord};
ghost use Rattle.archive_counts.specs.Words.{IsWordOf, WordsText};

use crate::header::{header_words, priority_of};
use crate::key::CountKey;
use archive_text::EntryView;
use std::alloc::AllocError;
use syslog_fields::appending::put;
use syslog_grammar::canonical_timestamp;
use syslog_value::{Instant, Priority};

// How many octets of a canonical timestamp name a day, an hour and a minute.
const DAY_LEN: usize = 10;

const HOUR_LEN: usize = 13;

const MINUTE_LEN: usize = 16;

fn put_facility(priority: Priority, out: &mut Vec<u8>) -> Result<(), AllocError>
    ensures { Puts (IsFacilityWord priority) out.old.items out.new.items result }
{
    put(priority.facility().name().as_bytes(), out)
}

fn put_severity(priority: Priority, out: &mut Vec<u8>) -> Result<(), AllocError>
    ensures { Puts (IsSeverityWord priority) out.old.items out.new.items result }
{
    put(priority.severity().name().as_bytes(), out)
}

// Appends so many octets of the canonical timestamp.
fn put_period(len: usize, instant: Option<Instant>, out: &mut Vec<u8>) -> Result<(), AllocError>
    requires { len ≤ 27 }
    ensures { Puts (IsPeriodWord len instant) out.old.items out.new.items result }
{
    match instant {
        None => put(b"undated", out),
        Some(instant) => put(&canonical_timestamp(instant)[..len], out),
    }
}

// Appends the word of the record of an entry.
fn put_word(key: CountKey, entry: &EntryView<'_>, out: &mut Vec<u8>) -> Result<(), AllocError>
    ensures { (r : Parts ℤ) → WellFormed r entry.now.octets.now → r.time ≡ entry.now.instant
        → Puts (IsWordOf key r) out.old.items out.new.items result }
{
    match key {
        CountKey::Host => put(header_words(entry.octets).hostname, out),
        CountKey::App => put(header_words(entry.octets).app_name, out),
        CountKey::Proc => put(header_words(entry.octets).proc_id, out),
        CountKey::Msgid => put(header_words(entry.octets).msg_id, out),
        CountKey::Facility => match priority_of(entry.octets) {
            None => Ok(()),
            Some(priority) => put_facility(priority, out),
        },
        CountKey::Severity => match priority_of(entry.octets) {
            None => Ok(()),
            Some(priority) => put_severity(priority, out),
        },
        CountKey::Day => put_period(DAY_LEN, entry.instant, out),
        CountKey::Hour => put_period(HOUR_LEN, entry.instant, out),
        CountKey::Minute => put_period(MINUTE_LEN, entry.instant, out),
    }
}

/// Appends the words of the record of an entry, each behind a space. If memory is refused, a part
/// may have been appended.
pub fn put_words(
    keys: &[CountKey],
    entry: &EntryView<'_>,
    out: &mut Vec<u8>,
) -> Result<(), AllocError>
    ensures { (r : Parts ℤ) → WellFormed r entry.now.octets.now → r.time ≡ entry.now.instant
        → Puts (WordsText keys.now r) out.old.items out.new.items result }
{
    'keys: for key in keys {
        put(b" ", out)?;
        put_word(*key, entry, out)?;
    }
    Ok(())
}
