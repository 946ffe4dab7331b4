//! Octets are appended, piece by piece.

ghost use Rattle.octet_language.specs.Language.{Only};
ghost use Rattle.syslog_fields.specs.Appending.{Puts};

use std::alloc::AllocError;

/// Appends octets; if memory is refused, possibly a part of them.
#[inline(always)]
pub fn put(octets: &[u8], out: &mut Vec<u8>) -> Result<(), AllocError>
    ensures { Puts (Only octets.now) out.old.items out.new.items result }
{
    out.extend_from_slice(octets)
}
