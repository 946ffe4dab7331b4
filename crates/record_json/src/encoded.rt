//! Octets in Base64 (RFC 4648, section 4), as JSON strings have them.

ghost use Rattle.std.specs.Prelude.{◌≤◌, length};
ghost use Rattle.base64.specs.Engines.{standard};
ghost use Rattle.base64.specs.GeneralPurpose.{encode_of};
ghost use Rattle.json.specs.Print.{escape};
ghost use Rattle.octet_language.specs.Language.{Only};
ghost use Rattle.syslog_fields.specs.Appending.{Puts};

use crate::escapes::put_escaped;
use base64::engine::general_purpose::STANDARD;
use std::alloc::AllocError;

/// How many octets are encoded at once: a multiple of three, so that only the last ones are padded.
const CHUNK: usize = 768;

/// Appends the Base64 of octets, encoded at once.
fn put_chunk(octets: &[u8], out: &mut Vec<u8>) -> Result<(), AllocError>
    requires { length octets.now ≤ CHUNK }
    ensures { Puts (Only (escape (encode_of standard octets.now))) out.old.items out.new.items result }
{
    let mut symbols = [0; 1024];
    let Ok(count) = STANDARD.encode_slice(octets, &mut symbols) else {
        unreachable!();
    };
    put_escaped(&symbols[..count], out)
}

/// Appends the Base64 of octets, with padding. If memory is refused, a part may have been appended.
pub fn put_encoded(octets: &[u8], out: &mut Vec<u8>) -> Result<(), AllocError>
    ensures { Puts (Only (escape (encode_of standard octets.now))) out.old.items out.new.items result }
{
    let mut rest = octets;
    while rest.len() > CHUNK {
        let (chunk, behind) = rest.split_at(CHUNK);
        put_chunk(chunk, out)?;
        rest = behind;
    }
    put_chunk(rest, out)
}
