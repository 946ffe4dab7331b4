//! The canonical octets of a record.

ghost use Rattle.std.specs.Prelude.{MatchResult};
ghost use Rattle.c_library.specs.Answers.{Answers};
ghost use Rattle.c_library.specs.Canonicals.{CanonicalOf, IsNoRecord};

use crate::answer::answer;
use crate::fault::SyslogboxFault;
use crate::numbers::NO_MEMORY;
use archive_text::ENTRY_MAX;
use std::alloc::Global;
use syslog_grammar::write_canonical_octets;

/// How many octets more than those that were read a canonical record mostly has at most.
const TIMESTAMP_GROWTH: usize = 8;

/// The canonical octets of the record that the octets are. It fails with their fault, if they are too
/// many, or out of memory.
pub fn canonical_text(alloc: Global, octets: &[u8]) -> Result<Vec<u8>, SyslogboxFault>
    ensures { MatchResult result (λ v. CanonicalOf octets.now v.items) (IsNoRecord octets.now) }
{
    if octets.len() > ENTRY_MAX {
        return Err(SyslogboxFault::too_long());
    }
    let room = octets.len().saturating_add(TIMESTAMP_GROWTH);
    let Ok(mut text) = Vec::with_capacity(alloc, room) else {
        return Err(SyslogboxFault::new(NO_MEMORY, 0));
    };
    match write_canonical_octets(alloc, octets, &mut text) {
        Ok(None) => Ok(text),
        Ok(Some(fault)) => Err(SyslogboxFault::of_record(fault)),
        Err(_) => Err(SyslogboxFault::new(NO_MEMORY, 0)),
    }
}

/// Writes the canonical octets of the record that the octets are, and returns how many they are; or
/// -1 and why not.
#[unsafe(no_mangle)]
pub extern "C" fn syslogbox_proved_canonical(
    alloc: Global,
    octets: &[u8],
    out: &mut [u8],
    fault: &mut SyslogboxFault,
) -> i64
    ensures { Answers (CanonicalOf octets.now) (IsNoRecord octets.now)
        (record { room = out.old; fault = fault.old })
        (record { room = out.new; fault = fault.new }) result }
{
    answer(canonical_text(alloc, octets), out, fault)
}
