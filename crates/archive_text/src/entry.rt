//! Entries and their order.

ghost use Rattle.archive_text.specs.Entries.{IsInstantOrder, IsOrder};
ghost use Rattle.archive_text.specs.EntryViews.{entry_of};

use std::cmp::Ordering;
use syslog_value::Instant;

/// An entry of an archive, as it lies in octets: the instant of a record and its canonical octets.
#[derive(Clone, Copy, Debug, PartialEq, Eq)]
pub struct EntryView<'a> {
    /// The instant of the record's TIMESTAMP (RFC 5424, section 6.2.3); None for NILVALUE.
    pub instant: Option<Instant>,
    /// The canonical octets of the record.
    pub octets: &'a [u8],
}

/// Which of two instants comes first: none does, then the earlier one.
#[inline]
fn compare_instants(a: Option<Instant>, b: Option<Instant>) -> Ordering
    ensures { IsInstantOrder result a b }
{
    match (a, b) {
        (None, None) => Ordering::Equal,
        (None, Some(_)) => Ordering::Less,
        (Some(_), None) => Ordering::Greater,
        (Some(i), Some(j)) => i.micros().cmp(&j.micros()),
    }
}

/// Which of two entries comes first: one without an instant, else the one of the earlier instant,
/// else the one of the lesser octets.
#[inline]
pub fn compare(a: &EntryView<'_>, b: &EntryView<'_>) -> Ordering
    ensures { IsOrder result (entry_of a.now) (entry_of b.now) }
{
    match compare_instants(a.instant, b.instant) {
        Ordering::Equal => a.octets.cmp(b.octets),
        unequal => unequal,
    }
}
