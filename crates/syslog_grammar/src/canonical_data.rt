//! The canonical octets of structured data.

ghost use Rattle.octet_language.specs.Language.{Only};
ghost use Rattle.syslog_fields.specs.Appending.{Puts};
ghost use Rattle.syslog_fields.specs.Canonical.{structured_data_form, element_form, escaped};
ghost use Rattle.syslog_fields.specs.Canonical.{param_form};

use memchr::memchr3;
use std::alloc::AllocError;
use syslog_fields::appending::put;
use syslog_value::{Element, Param};

/// Appends a value with a backslash before each octet that needs one.
fn put_escaped(text: &[u8], out: &mut Vec<u8>) -> Result<(), AllocError>
    ensures { Puts (Only (escaped text.now)) out.old.items out.new.items result }
{
    let mut rest = text;
    while let Some(offset) = memchr3(b'"', b'\\', b']', rest) {
        let (plain, special) = rest.split_at(offset);
        let (octet, behind) = special.split_at(1);
        put(plain, out)?;
        put(b"\\", out)?;
        put(octet, out)?;
        rest = behind;
    }
    put(rest, out)
}

/// Appends a space and a parameter.
fn put_param(param: &Param, out: &mut Vec<u8>) -> Result<(), AllocError>
    ensures { Puts (Only (param_form param.now)) out.old.items out.new.items result }
{
    put(b" ", out)?;
    put(param.name().bytes(), out)?;
    put(b"=\"", out)?;
    put_escaped(param.value().as_bytes(), out)?;
    put(b"\"", out)
}

/// Appends an element.
fn put_element(element: &Element, out: &mut Vec<u8>) -> Result<(), AllocError>
    ensures { Puts (Only (element_form element.now)) out.old.items out.new.items result }
{
    put(b"[", out)?;
    put(element.id().bytes(), out)?;
    for param in element.params() {
        put_param(param, out)?;
    }
    put(b"]", out)
}

/// Appends the elements, or NILVALUE. If memory is refused, a part may have been appended.
pub fn put_elements(elements: &[Element], out: &mut Vec<u8>) -> Result<(), AllocError>
    ensures { Puts (Only (structured_data_form elements.now)) out.old.items out.new.items result }
{
    if elements.is_empty() {
        return put(b"-", out);
    }
    for element in elements {
        put_element(element, out)?;
    }
    Ok(())
}
