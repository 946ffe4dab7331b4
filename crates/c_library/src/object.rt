//! A record as JSON (RFC 8259).

ghost use Rattle.std.specs.Prelude.{MatchResult};
ghost use Rattle.c_library.specs.Answers.{Answers};
ghost use Rattle.c_library.specs.Canonicals.{IsNoRecord};
ghost use Rattle.c_library.specs.Jsons.{JsonOf};

use crate::answer::answer;
use crate::fault::SyslogboxFault;
use crate::numbers::NO_MEMORY;
use archive_text::ENTRY_MAX;
use record_json::put_json_line;
use std::alloc::Global;
use syslog_grammar::view;

/// The object of the record that the octets are, as compact JSON. It fails with their fault, if they are
/// too many, or out of memory.
fn json_text(alloc: Global, octets: &[u8]) -> Result<Vec<u8>, SyslogboxFault>
    ensures { MatchResult result (λ v. JsonOf octets.now v.items) (IsNoRecord octets.now) }
{
    if octets.len() > ENTRY_MAX {
        return Err(SyslogboxFault::too_long());
    }
    let shown = match view(octets) {
        Ok(shown) => shown,
        Err(cause) => return Err(SyslogboxFault::of_record(cause)),
    };
    let mut scratch = Vec::new(alloc);
    let mut text = Vec::new(alloc);
    if put_json_line(alloc, &shown, &mut scratch, &mut text).is_err() {
        return Err(SyslogboxFault::new(NO_MEMORY, 0));
    }
    text.pop(); // the line feed
    Ok(text)
}

/// Writes the record that the octets are as an object of JSON, and returns how many octets that has; or -1
/// and why not.
#[unsafe(no_mangle)]
pub extern "C" fn syslogbox_proved_json(
    alloc: Global,
    octets: &[u8],
    out: &mut [u8],
    fault: &mut SyslogboxFault,
) -> i64
    ensures { Answers (JsonOf octets.now) (IsNoRecord octets.now)
        (record { room = out.old; fault = fault.old })
        (record { room = out.new; fault = fault.new }) result }
{
    answer(json_text(alloc, octets), out, fault)
}
