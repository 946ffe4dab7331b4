//! A test of frames.

ghost use Rattle.std.specs.Prelude.{◌↔◌, ℕ, List, IsTrue};

/// What a frame has to pass to be chosen.
pub trait FrameTest {
    // the frames that pass
    ghost passes: { Self → List ℕ → Type 0 };

    /// Whether a frame passes.
    fn is_passed(&self, frame: &[u8]) -> bool
        ensures { IsTrue result ↔ passes self.now frame.now };
}
