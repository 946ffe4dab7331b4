//! Frames are chosen from a stream of counted frames (RFC 6587, section 3.4.1) that comes in pieces, as an archive
//! is: those that pass a test, or the last of them.
//!
//! [`ChosenFrames`] is the session that does so, [`FrameTest`] what a frame has to pass.
#![tactic(auto)]

mod chosen;
mod frame_test;
mod last_frames;

pub use chosen::ChosenFrames;
pub use frame_test::FrameTest;
pub use last_frames::LastFrames;
