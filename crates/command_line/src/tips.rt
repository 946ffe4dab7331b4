//! Tips of the parser, of which one misleads.

use std::alloc::{AllocError, Global};

// How the tip begins that takes an option which a command does not have for a value.
const TIP: &str = "\n  tip: to pass '-";

/// A text without the tip to pass an unknown option as a value.
pub(crate) fn untipped(alloc: Global, text: String) -> Result<String, AllocError> {
    let Some((front, tip)) = text.as_str().split_once(TIP) else {
        return Ok(text);
    };
    let Some((_, back)) = tip.split_once('\n') else {
        return Ok(text);
    };
    format!(in alloc; "{front}{back}")
}
