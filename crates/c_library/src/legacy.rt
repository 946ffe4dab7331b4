//! The canonical octets of a legacy packet.

ghost use Rattle.std.specs.Prelude.{◌≡◌, MatchOption, MatchResult};
ghost use Rattle.syslog_legacy.specs.declared.clock.Dialect.{Dialect};
ghost use Rattle.syslog_legacy.specs.declared.clock.Dialect.TheVariants.{Bsd};
ghost use Rattle.c_library.specs.Answers.{Answers};
ghost use Rattle.c_library.specs.Legacies.{IsClock, IsClockOf, IsNoLegacy, IsNoPacket, LegacyOf, PacketOf};
ghost use Rattle.c_library.specs.Legacies.{dialect_number};

use crate::answer::answer;
use crate::canonical::canonical_text;
use crate::fault::SyslogboxFault;
use crate::numbers::{BAD_CLOCK, BAD_DIALECT, BSD, NO_MEMORY, NOT_UTF8, WIDE};
use archive_text::ENTRY_MAX;
use std::alloc::Global;
use syslog_legacy::{Dialect, LegacyClock, has_new_form, legacy_view, put_legacy_canonical};

/// The clock of a dialect, a year and an offset in minutes, if there is one.
fn clock_of(dialect: Dialect, year: i32, offset_minutes: i32) -> Option<LegacyClock>
    ensures { MatchOption result (¬ (IsClock year offset_minutes))
        (IsClockOf dialect year offset_minutes) }
{
    if year < 1 || year > 9998 || offset_minutes < -1439 || offset_minutes > 1439 {
        return None;
    }
    match LegacyClock::new(year as u16, offset_minutes as i16) {
        Some(clock) => Some(clock.with_dialect(dialect)),
        None => None,
    }
}

/// The canonical octets of the record as which a packet in a dialect is read.
fn legacy_text(
    alloc: Global,
    dialect: Dialect,
    year: i32,
    offset_minutes: i32,
    packet: &[u8],
) -> Result<Vec<u8>, SyslogboxFault>
    ensures { MatchResult result (λ v. LegacyOf dialect year offset_minutes packet.now v.items)
        (IsNoLegacy dialect year offset_minutes packet.now) }
{
    let Some(clock) = clock_of(dialect, year, offset_minutes) else {
        return Err(SyslogboxFault::new(BAD_CLOCK, 0));
    };
    if packet.len() > ENTRY_MAX {
        return Err(SyslogboxFault::too_long());
    }
    if has_new_form(packet) {
        return canonical_text(alloc, packet);
    }
    let view = match legacy_view(&clock, packet) {
        Ok(view) => view,
        Err(fault) => return Err(SyslogboxFault::new(NOT_UTF8, fault.offset as u64)),
    };
    let mut text = Vec::new(alloc);
    match put_legacy_canonical(&view, &mut text) {
        Ok(()) => Ok(text),
        Err(_) => Err(SyslogboxFault::new(NO_MEMORY, 0)),
    }
}

/// Writes the canonical octets of the record as which a packet is read under a clock, and returns how many they are; or
/// -1 and why not. A packet with the front of RFC 5424 is read as that standard says; any other as RFC 3164, section 4,
/// says, in this year, from 1 to 9998, and so many minutes ahead of UTC, from -1439 to 1439.
#[unsafe(no_mangle)]
pub extern "C" fn syslogbox_proved_legacy(
    alloc: Global,
    year: i32,
    offset_minutes: i32,
    packet: &[u8],
    out: &mut [u8],
    fault: &mut SyslogboxFault,
) -> i64
    ensures { Answers (LegacyOf Bsd year offset_minutes packet.now)
        (IsNoLegacy Bsd year offset_minutes packet.now)
        (record { room = out.old; fault = fault.old })
        (record { room = out.new; fault = fault.new }) result }
{
    let text = legacy_text(alloc, Dialect::Bsd, year, offset_minutes, packet);
    answer(text, out, fault)
}

/// The dialect with this number, if there is one.
fn dialect_of(number: i32) -> Option<Dialect>
    ensures { MatchOption result ((dialect : Dialect) → ¬ (number ≡ dialect_number dialect))
        (λ dialect. number ≡ dialect_number dialect) }
{
    match number {
        BSD => Some(Dialect::Bsd),
        WIDE => Some(Dialect::Wide),
        _ => None,
    }
}

/// The canonical octets of the record as which a packet in the dialect of a number is read.
fn packet_text(
    alloc: Global,
    dialect: i32,
    year: i32,
    offset_minutes: i32,
    packet: &[u8],
) -> Result<Vec<u8>, SyslogboxFault>
    ensures { MatchResult result (λ v. PacketOf dialect year offset_minutes packet.now v.items)
        (IsNoPacket dialect year offset_minutes packet.now) }
{
    match dialect_of(dialect) {
        Some(dialect) => legacy_text(alloc, dialect, year, offset_minutes, packet),
        None => Err(SyslogboxFault::new(BAD_DIALECT, 0)),
    }
}

/// Does what [`syslogbox_proved_legacy`] does, of packets in a dialect that is 1 for RFC 3164 and 2 for the wide one.
#[unsafe(no_mangle)]
pub extern "C" fn syslogbox_proved_packet(
    alloc: Global,
    dialect: i32,
    year: i32,
    offset_minutes: i32,
    packet: &[u8],
    out: &mut [u8],
    fault: &mut SyslogboxFault,
) -> i64
    ensures { Answers (PacketOf dialect year offset_minutes packet.now)
        (IsNoPacket dialect year offset_minutes packet.now)
        (record { room = out.old; fault = fault.old })
        (record { room = out.new; fault = fault.new }) result }
{
    let text = packet_text(alloc, dialect, year, offset_minutes, packet);
    answer(text, out, fault)
}
