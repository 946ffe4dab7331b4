//! The front that tells a record of RFC 5424 from a legacy one.

ghost use Rattle.std.specs.Prelude.{◌↔◌, IsTrue};
ghost use Rattle.syslog_legacy.specs.NewForm.{HasNewForm};

use syslog_grammar::fields::{priority, version};

/// Whether the octets begin with PRI, the VERSION `1` and a space (RFC 5424, section 6.2).
///
/// Such octets are read as RFC 5424 alone says, with its faults; all others are a legacy packet.
pub fn has_new_form(octets: &[u8]) -> bool
    ensures { IsTrue result ↔ HasNewForm octets.now }
{
    let Ok((_value, rest)) = priority(octets) else {
        return false;
    };
    match version(rest) {
        Ok(_) => true,
        Err(_) => false,
    }
}
