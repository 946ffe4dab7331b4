//! Where steps come from.
ghost use Rattle.collect_engine.specs.Steps.{GaveStep, SourceState};

use crate::step::Step;

/// Where steps come from. It counts its steps.
pub trait Source {
    // the counts, each of 64 bits and kept at its largest value, and the steps to come
    ghost state: { Self → SourceState };

    /// The next step. The octets of a piece or a datagram are put at the front of the slice, which
    /// should have room for `FRAME_MAX + 1` of them: so a datagram too long for a frame is seen to
    /// be. What does not fit of a datagram is lost.
    fn next(&mut self, buf: &mut [u8]) -> Step
        ensures { GaveStep (state self.old) (state self.new) result buf.new };
}
