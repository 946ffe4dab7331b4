//! What comes of an input and has not been written yet.

ghost use Rattle.std.specs.Prelude.{◌≡◌};

use std::alloc::Global;

/// What comes of an input and has not been written yet.
#[derive(Debug, Drop)]
pub struct Effects {
    /// Octets for the output.
    pub output: Vec<u8>,
    /// Lines for the diagnostics.
    pub diagnostics: Vec<u8>,
    /// Whether something was refused.
    pub refused: bool,
    /// A buffer that sessions reuse, so that they need not allocate for every frame.
    pub scratch: Vec<u8>,
}

impl Effects {
    ghost use Rattle.driver.specs.Effects.{done_of, nothing};

    /// The effects of an input of which nothing has come so far.
    pub fn new(alloc: Global) -> Effects
        ensures { done_of result ≡ nothing }
    {
        Effects {
            output: Vec::new(alloc),
            diagnostics: Vec::new(alloc),
            refused: false,
            scratch: Vec::new(alloc),
        }
    }
}
