//! Records from a source, such as sockets, into a collector.
//!
//! A [`Source`] gives steps: a connection was opened, octets came on it, it has ended, a datagram
//! came. [`ListSource`] is one in memory, [`UdpSource`] and [`TcpSource`] have sockets. [`serve`]
//! gives the steps to a collector, each as [`receive`] does, and [`run_collect`] writes what came
//! as an archive.
#![tactic(auto)]

mod collect_words;
mod collecting;
mod counts;
mod lines;
mod list_source;
mod receiving;
mod serve_end;
mod serving;
mod source;
mod step;
mod tcp_source;
mod udp_source;

pub use collect_words::{CollectWords, Transport};
pub use collecting::run_collect;
pub use list_source::ListSource;
pub use receiving::{Received, receive, receive_piece};
pub use serve_end::ServeEnd;
pub use serving::{SERVE_TURNS, serve};
pub use source::Source;
pub use step::Step;
pub use tcp_source::TcpSource;
pub use udp_source::UdpSource;
