//! What a command does with the frames of its input: frames are cut from it, each is handled in turn,
//! and what comes of them is written by the driver.
//!
//! [`scan_input`] is the engine, and [`scan_source`] the same for
//! an input of any length. The handlers [`Check`], [`CheckSummary`], [`Convert`], [`Show`] and [`ShowJson`]
//! say what is done with a frame, [`InputFraming`] how records are delimited in the input.
#![tactic(auto)]

mod check;
mod check_summary;
mod closing;
mod convert;
mod datagram_session;
mod frame_handler;
mod input_framing;
mod line;
mod reading;
mod record_lines;
mod scan;
mod show;
mod show_json;
mod stream;
mod stream_session;
mod tally;

pub use check::Check;
pub use check_summary::CheckSummary;
pub use convert::{Convert, add_refusal};
pub use datagram_session::DatagramSession;
pub use frame_handler::FrameHandler;
pub use input_framing::InputFraming;
pub use line::{Line, put_line};
pub use reading::{Reading, read_frame};
pub use scan::{FrameSource, scan_input, scan_source};
pub use show::Show;
pub use show_json::ShowJson;
pub use stream::{end_line, feed};
pub use stream_session::StreamSession;
pub use tally::Tally;
