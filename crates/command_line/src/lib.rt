//! The command line of syslogbox: [`read_words`] reads its words into a [`Request`], and
//! [`collect_words`] reads only the arguments of `collect`, for whoever makes the sockets.
#![tactic(auto)]

mod collecting;
mod count_words;
mod digest_words;
mod expire_words;
mod file_words;
mod frame_words;
mod line;
mod proof_words;
mod reading;
mod request;
mod select_words;
mod send_words;
mod serving;
mod site_words;
mod store_words;
mod tips;
mod words;

pub use collecting::collect_words;
pub use line::VERSION;
pub use request::{
    AnswerWords, ColorWhen, ExpireBound, ExpireWords, FileRequest, FollowWords, FrameCommand,
    FrameRequest, Invocation, ReadForm, ReadWords, ReconcileWay, ReconcileWords, Request,
};
pub use words::{WordsFault, read_words};
