//! The fields of the header of a record, found by the spaces between them.

ghost use Rattle.std.specs.Prelude.{◌≡◌, ◌∷◌, ◌++◌, ℕ, ℤ, List, Some};
ghost use Rattle.std.specs.List.{AllByRecursion};
ghost use Rattle.syslog_value.specs.Parts.{Parts};
ghost use Rattle.syslog_reading.specs.WellFormed.{WellFormed};
ghost use Rattle.archive_counts.specs.Words.{AreHeaderWords, IsFree};

use syslog_fields::near::near_octet;
use syslog_fields::reading::behind_first;
use syslog_grammar::fields::priority;
use syslog_value::Priority;

/// The words of a header as they stand in the record; NILVALUE is `-`.
#[derive(Clone, Copy)]
pub struct HeaderWords<'a> {
    /// HOSTNAME (RFC 5424, section 6.2.4).
    pub hostname: &'a [u8],
    /// APP-NAME (6.2.5).
    pub app_name: &'a [u8],
    /// PROCID (6.2.6).
    pub proc_id: &'a [u8],
    /// MSGID (6.2.7).
    pub msg_id: &'a [u8],
}

// What stands before the first space, and what stands behind it.
#[inline(always)]
fn split_space(octets: &[u8]) -> (&[u8], &[u8])
    ensures { (front : List ℕ) (rest : List ℕ) → AllByRecursion IsFree front
        → octets.now ≡ front ++ 32 ∷ rest → (result.0.now ≡ front) × (result.1.now ≡ rest) }
{
    match near_octet(b' ', octets) {
        None => (octets, octets),
        Some(offset) => {
            let (front, found) = octets.split_at(offset);
            (front, behind_first(found))
        }
    }
}

/// The words of the header of a record. It costs less than a view of the record.
#[inline(always)]
pub fn header_words(octets: &[u8]) -> HeaderWords<'_>
    ensures { (r : Parts ℤ) → WellFormed r octets.now → AreHeaderWords r result }
{
    let (_version, behind_version) = split_space(octets);
    let (_time, behind_time) = split_space(behind_version);
    let (hostname, behind_hostname) = split_space(behind_time);
    let (app_name, behind_app_name) = split_space(behind_hostname);
    let (proc_id, behind_proc_id) = split_space(behind_app_name);
    let (msg_id, _data) = split_space(behind_proc_id);
    HeaderWords {
        hostname,
        app_name,
        proc_id,
        msg_id,
    }
}

/// The priority of a record. It costs less than a view of the record.
pub fn priority_of(octets: &[u8]) -> Option<Priority>
    ensures { (r : Parts ℤ) → WellFormed r octets.now → result ≡ Some r.priority }
{
    match priority(octets) {
        Ok((value, _rest)) => Priority::from_value(value),
        Err(_) => None,
    }
}
