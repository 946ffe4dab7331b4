//! What the spelling of a parameter's value means.

ghost use Rattle.std.specs.Prelude.{◌≡◌, MatchResult};
ghost use Rattle.c_library.specs.Answers.{Answers};
ghost use Rattle.c_library.specs.Faults.{memory_fault};
ghost use Rattle.c_library.specs.Items.{MeaningOf};

use crate::answer::answer;
use crate::fault::SyslogboxFault;
use crate::numbers::NO_MEMORY;
use std::alloc::Global;
use syslog_fields::unescape::unescape;

/// The text that a value means, from its spelling.
fn value_text(alloc: Global, raw: &[u8]) -> Result<Vec<u8>, SyslogboxFault>
    ensures { MatchResult result (λ v. MeaningOf raw.now v.items) (λ told. told ≡ memory_fault) }
{
    match unescape(alloc, raw) {
        Ok(text) => Ok(text),
        Err(_) => Err(SyslogboxFault::new(NO_MEMORY, 0)),
    }
}

/// Writes the text that a parameter's value means, from its spelling between the quotation marks
/// (RFC 5424, 6.3.3), and returns how many octets it has; or -1 and why not.
#[unsafe(no_mangle)]
pub extern "C" fn syslogbox_proved_value(
    alloc: Global,
    raw: &[u8],
    out: &mut [u8],
    fault: &mut SyslogboxFault,
) -> i64
    ensures { Answers (MeaningOf raw.now) (λ told. told ≡ memory_fault)
        (record { room = out.old; fault = fault.old })
        (record { room = out.new; fault = fault.new }) result }
{
    answer(value_text(alloc, raw), out, fault)
}
