//! The text of an entry is written.

ghost use Rattle.octet_devices.specs.Held.{Puts};
ghost use Rattle.syslog_frame.specs.Frames.{framed};
ghost use Rattle.syslog_frame.specs.declared.framing.Framing.TheVariants.{Counted};

use itoa::Buffer;
use octet_devices::{BufferedOutput, Output, WriteFault};

/// Puts the text of the entry with these octets behind what is held: their number, a space and the
/// octets (RFC 6587, 3.4.1). A fault counts octets from the first one ever put.
pub fn put_entry<W: Output>(
    held: &mut BufferedOutput,
    writer: &mut W,
    octets: &[u8],
) -> Result<(), WriteFault>
    ensures { Puts (W.state writer.old) (W.state writer.new) held.old held.new
        (framed Counted octets.now) result }
{
    held.put(writer, Buffer::new().format(octets.len()).as_bytes())?;
    held.put(writer, b" ")?;
    held.put(writer, octets)
}
