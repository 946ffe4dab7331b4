//! Room for what is read at once.
ghost use Rattle.std.specs.Vec.{vec_len};
ghost use Rattle.std.specs.Prelude.{◌≡◌};
ghost use Rattle.driver.specs.declared.limits.TheConstants.{ENDLESS_READ_MAX};

use crate::limits::ENDLESS_READ_MAX;
use std::alloc::{AllocError, Global};

/// Room for what a call of a reader gives whose input may have any length.
#[derive(Drop)]
pub struct EndlessRoom {
    pub(crate) piece: Vec<u8>,
    ghost size: { vec_len piece ≡ ENDLESS_READ_MAX },
}

impl EndlessRoom {
    /// Reserves `ENDLESS_READ_MAX` octets. It fails only when out of memory.
    pub fn new(alloc: Global) -> Result<EndlessRoom, AllocError> {
        Ok(EndlessRoom {
            piece: vec![in alloc; 0u8; ENDLESS_READ_MAX]?,
        })
    }
}
