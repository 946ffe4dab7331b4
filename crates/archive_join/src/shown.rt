//! Octets are shown in a line.

ghost use Rattle.std.specs.Prelude.{◌≡◌, ◌<◌, false};
ghost use Rattle.octet_devices.specs.Held.{Puts};
ghost use Rattle.archive_join.specs.Shown.{hex_digit, is_plain, shown, shown_octet};

use octet_devices::{BufferedOutput, Output, WriteFault};

// A lower-case hexadecimal digit.
fn hex_digit(digit: u8) -> u8
    requires { digit < 16 }
    ensures { result ≡ hex_digit digit }
{
    if digit < 10 {
        b'0' + digit
    } else {
        b'a' - 10 + digit
    }
}

// Whether an octet is shown as itself.
fn is_plain(octet: u8) -> bool
    ensures { result ≡ is_plain octet }
{
    octet >= b' ' && octet <= b'~' && octet != b'"' && octet != b'\\'
}

// Puts an octet that is not shown as itself.
fn put_escape<W: Output>(
    held: &mut BufferedOutput,
    writer: &mut W,
    octet: u8,
) -> Result<(), WriteFault>
    requires { is_plain octet ≡ false }
    ensures { Puts (W.state writer.old) (W.state writer.new) held.old held.new (shown_octet octet)
        result }
{
    let escape = [b'\\', b'x', hex_digit(octet / 16), hex_digit(octet % 16)];
    held.put(writer, &escape)
}

/// Puts octets behind what is held as they are shown: the printable octets of ASCII as themselves,
/// except for the quotation mark and the backslash; every other octet as `\x` and two hexadecimal
/// digits. A fault counts octets from the first one ever put.
pub fn put_shown<W: Output>(
    held: &mut BufferedOutput,
    writer: &mut W,
    octets: &[u8],
) -> Result<(), WriteFault>
    ensures { Puts (W.state writer.old) (W.state writer.new) held.old held.new (shown octets.now)
        result }
{
    // where the octets begin that are not yet put, each of them shown as itself
    let mut from = 0;
    'octets: for at in 0..octets.len() {
        let octet = octets[at];
        if !is_plain(octet) {
            held.put(writer, &octets[from..at])?;
            put_escape(held, writer, octet)?;
            from = at + 1;
        }
    }
    held.put(writer, &octets[from..])
}
