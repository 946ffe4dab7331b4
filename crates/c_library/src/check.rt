//! Whether octets are a record.

ghost use Rattle.std.specs.Prelude.{◌≡◌, ◌↔◌, IfNone, IfSome, pos};
ghost use Rattle.c_library.specs.Faults.{IsNotRead, IsRead};

use crate::fault::SyslogboxFault;
use archive_text::ENTRY_MAX;
use syslog_grammar::{fault_of, faulty_octets_are_no_record};

/// Why octets are no record that is read, if they are none.
#[inline(always)]
pub fn refusal(octets: &[u8]) -> Option<SyslogboxFault>
    ensures read { IfNone result (IsRead octets.now) }
    ensures none { IfSome result (λ _. ¬ (IsRead octets.now)) }
    ensures fault { IfSome result (IsNotRead octets.now) }
{
    faulty_octets_are_no_record();
    if octets.len() > ENTRY_MAX {
        return Some(SyslogboxFault::too_long());
    }
    match fault_of(octets) {
        None => None,
        Some(cause) => Some(SyslogboxFault::of_record(cause)),
    }
}

/// Whether the octets are a record of RFC 5424, section 6, of at most `ENTRY_MAX` octets: 1, or 0 and why not. It takes
/// no memory.
#[unsafe(no_mangle)]
pub extern "C" fn syslogbox_proved_check(octets: &[u8], fault: &mut SyslogboxFault) -> i32
    ensures valid { (result ≡ pos 1) ↔ IsRead octets.now }
    ensures same { result ≡ pos 1 → fault.new ≡ fault.old }
    ensures other { ¬ (result ≡ pos 1) → result ≡ pos 0 }
    ensures fault { ¬ (result ≡ pos 1) → IsNotRead octets.now fault.new }
{
    match refusal(octets) {
        None => 1,
        Some(cause) => {
            *fault = cause;
            0
        }
    }
}
