//! The days of a set, and how many octets of its archive each has.
ghost use Rattle.std.specs.Prelude.{◌≡◌, ◌↔◌, ◌∷◌, [], IfNone, IfOk, IfSome, IsTrue, length};
ghost use Rattle.syslog_frame.specs.Frames.{framed};
ghost use Rattle.syslog_frame.specs.declared.framing.Framing.TheVariants.{Counted};
ghost use Rattle.archive_text.specs.Periods.{IsIn, IsPeriodOf};
ghost use Rattle.archive_text.specs.declared.period.Period.TheVariants.{Day as day_Period};
ghost use Rattle.archive_pages.specs.Paged.{at_most_all, entries_from, entries_in};
ghost use Rattle.archive_text.specs.EntryViews.{entry_of};
ghost use Rattle.archive_text.specs.Text.{text_of};
ghost use Rattle.durable_store.specs.Shares.{CountsDay, IsShare, Leaves};

use archive_pages::{PagedArchive, Place};
use archive_text::EntryView;
use itoa::Buffer;
use std::alloc::{AllocError, Global};
use syslog_grammar::canonical_timestamp;
use syslog_value::Instant;

// the octets of a date
const DATE_LEN: usize = 10;

// What the day of an instant is called, or `undated` of none.
pub(crate) fn day_of(alloc: Global, instant: Option<Instant>) -> Result<Vec<u8>, AllocError>
    ensures { IfOk result (λ day. IsPeriodOf day_Period instant day.items) }
{
    match instant {
        None => b"undated".to_vec(alloc),
        Some(instant) => canonical_timestamp(instant)[..DATE_LEN].to_vec(alloc),
    }
}

// Whether an instant is of the day of this name.
fn is_of(instant: Option<Instant>, day: &[u8]) -> bool
    ensures { IsTrue result ↔ IsPeriodOf day_Period instant day.now }
{
    match instant {
        None => day == b"undated".as_slice(),
        Some(instant) => {
            let time = canonical_timestamp(instant);
            day == &time[..DATE_LEN]
        }
    }
}

// The entry behind a place, if it is of the day, and the place behind it.
pub(crate) fn next_of<'a>(
    set: &'a PagedArchive,
    place: Place,
    day: &[u8],
) -> Option<(EntryView<'a>, Place)>
    ensures some { IfSome result (λ r. (entries_from set.now place
        ≡ entry_of r.0 ∷ entries_from set.now r.1) × IsIn day_Period day.now (entry_of r.0)) }
    ensures none { IfNone result (Leaves day.now (entries_from set.now place)) }
{
    match set.next(place) {
        Some((entry, behind)) => {
            if is_of(entry.instant, day) {
                return Some((entry, behind));
            }
            None
        }
        None => None,
    }
}

/// How many octets the entry of these canonical octets has in the text of an archive.
pub fn entry_len(octets: &[u8]) -> u64
    ensures { result ≡ at_most_all (length (framed Counted octets.now)) }
{
    let count = Buffer::new().format(octets.len()).len() as u64;
    count.saturating_add(1).saturating_add(octets.len() as u64)
}

// How many octets the archive of a set has.
pub(crate) fn set_len(set: &PagedArchive) -> u64
    ensures { result ≡ length (text_of (entries_in set.now)) }
{
    let mut len = 0u64;
    let mut place = Place::first();
    'entries: while let Some((entry, next)) = set.next(place) {
        len = len.saturating_add(entry_len(entry.octets));
        place = next;
    }
    len
}

// How many octets of an archive an entry of a day has with those of the day that follow it, and the
// place behind these.
pub(crate) fn day_len(
    set: &PagedArchive,
    first: &EntryView<'_>,
    behind: Place,
    day: &[u8],
) -> (u64, Place)
    ensures { CountsDay result.0 day.now (entry_of first.now) (entries_from set.now behind)
        (entries_from set.now result.1) }
{
    let mut len = entry_len(first.octets);
    let mut place = behind;
    'entries: while let Some((entry, next)) = next_of(set, place, day) {
        len = len.saturating_add(entry_len(entry.octets));
        place = next;
    }
    (len, place)
}

// Whether so many octets are at least a 64th of all.
pub(crate) fn is_share(total: u64, len: u64) -> bool
    ensures { IsTrue result ↔ IsShare total len }
{
    u128::from(len) * 64 >= u128::from(total)
}
