//! Lines on what failed, and why.

use std::alloc::{AllocError, Global};
use std::fmt::Display;

/// A text as it is printed: octets from 32 to 126, except quote and backslash, as themselves, and
/// every other octet as `\x` and two hexadecimal digits.
pub fn shown(alloc: Global, text: &str) -> Result<String, AllocError> {
    let mut shown = String::new(alloc);
    for octet in text.as_bytes() {
        match *octet {
            b'"' | b'\\' | 0..=31 | 127..=255 => {
                let escaped = format!(in alloc; "\\x{octet:02x}")?;
                shown.push_str(escaped.as_str())?;
            }
            plain => shown.push(char::from(plain))?,
        }
    }
    Ok(shown)
}

/// The line on what failed, and why. The name is printed so that no octet of it reaches a terminal raw.
pub fn line_on(alloc: Global, what: &str, why: impl Display + Drop) -> Result<String, AllocError> {
    let what = shown(alloc, what)?;
    format!(in alloc; "{what}: {why}\n")
}
