//! The header of a record (RFC 5424, 6.2).

ghost use Rattle.std.specs.Prelude.{IfOk};
ghost use Rattle.octet_language.specs.Reading.{Follows, Reads};
ghost use Rattle.syslog_reading.specs.Fields.{TimeStands, before_words, header_parts, words_of};
ghost use Rattle.syslog_fields.specs.Grammar.{Header as HeaderText};
ghost use Rattle.syslog_fields.specs.Stops.{remaining_of};

use syslog_fields::priority::{priority, version};
use syslog_fields::reading::Stop;
use syslog_fields::timestamp::{Timestamp, nilable_time};
use syslog_fields::word::word;

/// The fields up to the structured data, as they lie in the octets.
#[derive(Clone, Copy, Debug, PartialEq, Eq)]
pub struct HeaderFields<'a> {
    /// PRIVAL, 0 to 191 (RFC 5424, 6.2.1).
    pub priority: u8,
    /// TIMESTAMP (6.2.3); None for NILVALUE, as in all these fields.
    pub time: Option<Timestamp>,
    /// HOSTNAME (6.2.4).
    pub hostname: Option<&'a [u8]>,
    /// APP-NAME (6.2.5).
    pub app_name: Option<&'a [u8]>,
    /// PROCID (6.2.6).
    pub proc_id: Option<&'a [u8]>,
    /// MSGID (6.2.7).
    pub msg_id: Option<&'a [u8]>,
    /// How many octets are left where the timestamp begins.
    pub time_remaining: usize,
    /// What follows the timestamp and its space.
    pub behind_time: &'a [u8],
}

/// Reads the header and the space that follows it. The [`Stop`] is at the first octet with which
/// these cannot go on.
#[inline(always)]
pub fn fields(octets: &[u8]) -> Result<(HeaderFields<'_>, &[u8]), Stop>
    ensures reads { Reads remaining_of HeaderText (λ x. (header_parts x.0, x.1.now))
        octets.now result }
    ensures time { IfOk result (λ x. TimeStands octets.now x.0.time_remaining) }
    ensures behind { IfOk result (λ x.
        Follows (before_words (header_parts x.0)) octets.now x.0.behind_time.now) }
    ensures words { IfOk result (λ x.
        Follows (words_of (header_parts x.0)) x.0.behind_time.now x.1.now) }
{
    let (priority, rest) = priority(octets)?;
    let rest = version(rest)?;
    let time_remaining = rest.len();
    let (time, rest) = nilable_time(rest)?;
    let behind_time = rest;
    let (hostname, rest) = word::<255>(behind_time)?;
    let (app_name, rest) = word::<48>(rest)?;
    let (proc_id, rest) = word::<128>(rest)?;
    let (msg_id, rest) = word::<32>(rest)?;
    Ok((
        HeaderFields {
            priority,
            time,
            hostname,
            app_name,
            proc_id,
            msg_id,
            time_remaining,
            behind_time,
        },
        rest,
    ))
}
