//! What a server shows to whoever watches it, as texts: the metrics that Prometheus reads, and its
//! health.
//!
//! The metrics are a page in the text format of Prometheus, version 0.0.4. Nothing here has a device: a
//! caller reads the head of a request from a connection, and writes the answer to it.
#![tactic(auto)]

mod answer;
mod asking;
mod commit_times;
mod counts;
mod family;
mod label;
mod listeners;
mod page;
mod request;
mod text;

pub use answer::{Health, put_answer};
pub use asking::{HEADERS_MAX, asked};
pub use commit_times::CommitTimes;
pub use counts::{ListenerCounts, ListenerRow, Totals};
pub use page::put_metrics;
pub use request::Asked;
