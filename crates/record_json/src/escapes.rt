//! Octets as JSON strings spell them (RFC 8259, section 7).

ghost use Rattle.std.specs.Prelude.{◌≡◌, ◌<◌, ◌∷◌, []};
ghost use Rattle.std.specs.Char.{digit_char};
ghost use Rattle.json.specs.Print.{escape, escape_byte, escape_letter, quoted};
ghost use Rattle.octet_language.specs.Language.{Only};
ghost use Rattle.syslog_fields.specs.Appending.{Puts};
ghost use Rattle.record_json.specs.Texts.{ValueOf};

use crate::stops::near_escaped;
use std::alloc::AllocError;
use syslog_fields::appending::put;
use syslog_fields::near::near_octet;
use syslog_fields::unescape::split_meaning;

/// The letter of an octet's short escape, or 0 if it has none.
fn escape_letter(octet: u8) -> u8
    ensures { result ≡ escape_letter octet }
{
    match octet {
        b'"' | b'\\' => octet,
        0x08 => b'b',
        0x0c => b'f',
        b'\n' => b'n',
        b'\r' => b'r',
        b'\t' => b't',
        _ => 0,
    }
}

/// A hexadecimal digit, in lower case.
fn hex_digit(digit: u8) -> u8
    requires { digit < 16 }
    ensures { result ≡ digit_char digit }
{
    if digit < 10 {
        b'0' + digit
    } else {
        b'a' - 10 + digit
    }
}

/// Appends what a string has for one octet.
fn put_octet(octet: u8, out: &mut Vec<u8>) -> Result<(), AllocError>
    ensures { Puts (Only (escape_byte octet)) out.old.items out.new.items result }
{
    let letter = escape_letter(octet);
    if letter > 0 {
        return put(&[b'\\', letter], out);
    }
    if octet < 32 {
        let high = hex_digit(octet / 16);
        let low = hex_digit(octet % 16);
        return put(&[b'\\', b'u', b'0', b'0', high, low], out);
    }
    put(&[octet], out)
}

/// Appends what a string has for octets, one by one.
fn put_octets(octets: &[u8], out: &mut Vec<u8>) -> Result<(), AllocError>
    ensures { Puts (Only (escape octets.now)) out.old.items out.new.items result }
{
    for octet in octets {
        put_octet(*octet, out)?;
    }
    Ok(())
}

/// Appends what a string has for octets, of which some need an escape; those between two of these go
/// in one piece.
#[inline(never)]
fn put_pieces(octets: &[u8], out: &mut Vec<u8>) -> Result<(), AllocError>
    ensures { Puts (Only (escape octets.now)) out.old.items out.new.items result }
{
    let mut rest = octets;
    while let Some(offset) = near_escaped(rest) {
        let (kept, found) = rest.split_at(offset);
        let (octet, behind) = found.split_at(1);
        put(kept, out)?;
        put_octets(octet, out)?;
        rest = behind;
    }
    put(rest, out)
}

/// Appends what a string has for octets: as they lie, if none of them needs an escape. If memory is
/// refused, a part may have been appended.
pub fn put_escaped(octets: &[u8], out: &mut Vec<u8>) -> Result<(), AllocError>
    ensures { Puts (Only (escape octets.now)) out.old.items out.new.items result }
{
    match near_escaped(octets) {
        None => put(octets, out),
        Some(_offset) => put_pieces(octets, out),
    }
}

/// Appends a quotation mark. It fails only when out of memory.
#[inline(always)]
pub fn put_quote(out: &mut Vec<u8>) -> Result<(), AllocError>
    ensures { Puts (Only (34 ∷ [])) out.old.items out.new.items result }
{
    out.push(b'"')?;
    Ok(())
}

/// Appends octets as a string. If memory is refused, a part may have been appended.
#[inline(always)]
pub fn put_string(octets: &[u8], out: &mut Vec<u8>) -> Result<(), AllocError>
    ensures { Puts (Only (quoted octets.now)) out.old.items out.new.items result }
{
    put_quote(out)?;
    put_escaped(octets, out)?;
    put_quote(out)
}

/// Appends octets that need no escape as a string. If memory is refused, a part may have been appended.
#[inline(always)]
pub fn put_kept(octets: &[u8], out: &mut Vec<u8>) -> Result<(), AllocError>
    requires { escape octets.now ≡ octets.now }
    ensures { Puts (Only (quoted octets.now)) out.old.items out.new.items result }
{
    put_quote(out)?;
    put(octets, out)?;
    put_quote(out)
}

/// Appends what a string has for a value whose spelling has escapes.
fn put_unescaped(raw: &[u8], out: &mut Vec<u8>) -> Result<(), AllocError>
    ensures { Puts (ValueOf raw.now) out.old.items out.new.items result }
{
    let mut rest = raw;
    while let Some(offset) = near_octet(b'\\', rest) {
        let (plain, marked) = rest.split_at(offset);
        let (octet, behind) = split_meaning(marked);
        put_escaped(plain, out)?;
        put_escaped(octet, out)?;
        rest = behind;
    }
    put_escaped(rest, out)
}

/// Appends what a string has for the value of a parameter (RFC 5424, 6.3.3), from its spelling: as
/// it lies, if nothing in it needs an escape. If memory is refused, a part may have been appended.
pub fn put_value(raw: &[u8], out: &mut Vec<u8>) -> Result<(), AllocError>
    ensures { Puts (ValueOf raw.now) out.old.items out.new.items result }
{
    match near_escaped(raw) {
        None => put(raw, out),
        Some(_offset) => put_unescaped(raw, out),
    }
}
