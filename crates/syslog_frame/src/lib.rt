//! How syslog records are framed on a stream (RFC 6587): both framings, a scanner that takes a
//! stream in pieces, cut anywhere, and the laws of frames.
//!
//! A [`Scanner`] keeps one unfinished frame. Feed it by [`Scanner::push`] until the piece is empty,
//! look at [`Scanner::ready`] after each call, and drop what is ready by [`Scanner::release`].
//! [`Scanner::next_borrowed`] lends a frame that lies whole in the piece, without a copy. A
//! [`GrowingScanner`] does the same with room that grows with the frame, for where many streams are
//! read at a time.
#![tactic(auto)]

mod count;
mod fault;
mod frame_ref;
mod framing;
mod growing_scanner;
mod laws;
mod limits;
mod phase;
mod pieces;
mod put;
mod ready;
mod record;
mod scanner;
mod trim;

pub use count::{MsgLen, msg_len};
pub use fault::{EndFault, GrowFault, PiecesFault, PutFault, ScanFault, StartFault};
pub use frame_ref::FrameRef;
pub use framing::Framing;
pub use growing_scanner::GrowingScanner;
pub use laws::{
    bad_counts_end_streams, frames_are_unique, frames_begin, frames_go_on,
    frames_of_a_concatenation, streams_have_frames,
};
pub use limits::{COUNT_MAX, FRAME_MAX, POSITION_MAX, ROOM_KEPT};
pub use pieces::{StreamEnd, StreamFrames, frames_of_pieces};
pub use put::put_frame;
pub use ready::Ready;
pub use scanner::Scanner;
pub use trim::{one_end_is_trimmed, trimmed};
