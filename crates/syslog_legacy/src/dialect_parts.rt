//! The parts of a packet in either dialect.

ghost use Rattle.std.specs.Prelude.{MatchOption, option_map};
ghost use Rattle.syslog_legacy.specs.Parts.{Lacks};
ghost use Rattle.syslog_legacy.specs.Splits.{HostPart, PriorityPart, TagPart, TimePart};
ghost use Rattle.syslog_legacy.specs.TagViews.{tag_parts};

use crate::clock::{Dialect, LegacyClock};
use crate::host::host;
use crate::octets::behind_space;
use crate::tag::{Tag, read_tag};
use crate::timestamp::timestamp;
use crate::wide_tag::{wide_host, wide_tag};
use crate::wide_time::wide_timestamp;
use syslog_grammar::fields::priority;
use syslog_value::{Instant, Priority};

/// Reads PRI, and in the wide dialect one space behind it.
pub fn priority_part<'a>(clock: &LegacyClock, octets: &'a [u8]) -> Option<(Priority, &'a [u8])>
    ensures { MatchOption result (Lacks (PriorityPart clock.now.dialect) octets.now)
        (λ x. PriorityPart clock.now.dialect x.0 octets.now x.1.now) }
{
    let Ok((value, rest)) = priority(octets) else {
        return None;
    };
    let priority = Priority::from_value(value).unwrap();
    match clock.dialect {
        Dialect::Bsd => Some((priority, rest)),
        Dialect::Wide => Some((priority, behind_space(rest))),
    }
}

/// Reads a timestamp and the space behind it.
pub fn time_part<'a>(clock: &LegacyClock, octets: &'a [u8]) -> Option<(Instant, &'a [u8])>
    ensures { MatchOption result (Lacks (TimePart clock.now.dialect clock.now) octets.now)
        (λ x. TimePart clock.now.dialect clock.now x.0 octets.now x.1.now) }
{
    match clock.dialect {
        Dialect::Bsd => timestamp(clock, octets),
        Dialect::Wide => wide_timestamp(clock, octets),
    }
}

/// Reads a host, which is None for NILVALUE and, in the wide dialect, if a tag stands in its place.
pub fn host_part<'a>(clock: &LegacyClock, octets: &'a [u8]) -> Option<(Option<&'a [u8]>, &'a [u8])>
    ensures { MatchOption result (Lacks (HostPart clock.now.dialect) octets.now)
        (λ x. HostPart clock.now.dialect (option_map (λ s. s.now) x.0) octets.now x.1.now) }
{
    match clock.dialect {
        Dialect::Bsd => host(octets),
        Dialect::Wide => wide_host(octets),
    }
}

/// Reads a tag and what separates it from the message.
pub fn tag_part<'a>(clock: &LegacyClock, octets: &'a [u8]) -> Option<(Tag<'a>, &'a [u8])>
    ensures { MatchOption result (Lacks (TagPart clock.now.dialect) octets.now)
        (λ x. TagPart clock.now.dialect (tag_parts x.0) octets.now x.1.now) }
{
    match clock.dialect {
        Dialect::Bsd => read_tag(octets),
        Dialect::Wide => wide_tag(octets),
    }
}
