//! The parts of a record, if the octets are one.

ghost use Rattle.std.specs.Prelude.{◌≡◌, ◌⊎◌, pos};
ghost use Rattle.syslog_value.specs.Parts.{Parts};
ghost use Rattle.syslog_fields.specs.Time.{CivilTime};
ghost use Rattle.c_library.specs.Faults.{IsNotRead, IsRead};
ghost use Rattle.c_library.specs.Parts.{Shows, Spells};

use crate::fault::SyslogboxFault;
use crate::parts::{SyslogboxParts, parts_of};
use archive_text::ENTRY_MAX;
use syslog_grammar::view;

/// Shows the parts of the record that the octets are, and returns 1; or 0 and why they are none,
/// with the parts left as they were. It takes no memory.
#[unsafe(no_mangle)]
pub extern "C" fn syslogbox_proved_view(
    octets: &[u8],
    parts: &mut SyslogboxParts,
    fault: &mut SyslogboxFault,
) -> i32
    ensures answer { (result ≡ pos 1) ⊎ (result ≡ pos 0) }
    ensures parts { result ≡ pos 1
        → (p : Parts CivilTime) × Spells octets.now p × Shows octets.now p parts.new }
    ensures same { result ≡ pos 1 → fault.new ≡ fault.old }
    ensures none { result ≡ pos 0 → ¬ (IsRead octets.now) }
    ensures fault { result ≡ pos 0 → IsNotRead octets.now fault.new }
    ensures left { result ≡ pos 0 → parts.new ≡ parts.old }
{
    if octets.len() > ENTRY_MAX {
        *fault = SyslogboxFault::too_long();
        return 0;
    }
    match view(octets) {
        Ok(shown) => {
            *parts = parts_of(octets, &shown);
            1
        }
        Err(cause) => {
            *fault = SyslogboxFault::of_record(cause);
            0
        }
    }
}
