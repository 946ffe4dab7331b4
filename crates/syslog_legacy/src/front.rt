//! What precedes the message of a legacy packet (RFC 3164, section 4).

ghost use Rattle.syslog_legacy.specs.FrontViews.{front_parts};
ghost use Rattle.syslog_legacy.specs.Splits.{Splits};

use crate::clock::LegacyClock;
use crate::dialect_parts::{host_part, priority_part, tag_part, time_part};
use syslog_value::{Facility, Instant, Priority, Severity};

/// The fields before the message, as they lie in the octets.
#[derive(Clone, Copy, Debug, PartialEq, Eq)]
pub struct Front<'a> {
    /// The priority of PRI, or 13 without one (4.3.3).
    pub priority: Priority,
    /// The instant of TIMESTAMP, if the packet has one.
    pub instant: Option<Instant>,
    /// HOSTNAME, if the packet has one.
    pub hostname: Option<&'a [u8]>,
    /// The name of the program in TAG, if the packet has one.
    pub app_name: Option<&'a [u8]>,
    /// The process id in TAG, if the packet has one.
    pub proc_id: Option<&'a [u8]>,
}

/// Splits a packet into what precedes the message, and the message.
///
/// At the first part that is missing, all that is left is the message. Without PRI the priority is
/// 13, user.notice (4.3.3).
pub fn split<'a>(clock: &LegacyClock, octets: &'a [u8]) -> (Front<'a>, &'a [u8])
    ensures { Splits clock.now octets.now (front_parts result.0) result.1.now }
{
    let mut front = Front {
        priority: Priority::new(Facility::User, Severity::Notice),
        instant: None,
        hostname: None,
        app_name: None,
        proc_id: None,
    };
    let Some((priority, rest)) = priority_part(clock, octets) else {
        return (front, octets);
    };
    front.priority = priority;
    let Some((instant, behind_time)) = time_part(clock, rest) else {
        return (front, rest);
    };
    front.instant = Some(instant);
    let Some((hostname, behind_host)) = host_part(clock, behind_time) else {
        return (front, behind_time);
    };
    front.hostname = hostname;
    let Some((tag, message)) = tag_part(clock, behind_host) else {
        return (front, behind_host);
    };
    front.app_name = tag.app_name;
    front.proc_id = tag.proc_id;
    (front, message)
}
