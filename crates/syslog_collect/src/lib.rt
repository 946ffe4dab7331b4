//! The collector: streams of syslog records in pieces, and datagrams, into a set of records.
//!
//! Two collectors that were given the same set of well-formed RFC 5424 records, each over any
//! framing that can carry it, in any cut, order, interleaving and repetition, hold byte-equal
//! archives. That is the contract of [`same_archives`]; [`merged_archives`] says the same of the
//! union of two archives, and [`Collector::store`] that the store holds the received set.
//!
//! A collector reads frames by its `FrameReading`: with a clock, each frame without the front of
//! RFC 5424 is a legacy packet (RFC 3164), and a line end or a NUL may first be dropped from the
//! end of each. Then both collectors must read frames in the same way.
//!
//! The words of these contracts are in `specs/`:
//!
//! - History: what a list of events says, with no word of how a collector works. `AcceptedEvent` is
//!   an event that was accepted, `AreAcceptable` says which events may come, and `history_of` folds
//!   them into the openings with their octets and the datagrams.
//! - FrameReadings, of `syslog_legacy`: `IsReadAs`, the record as which a frame is read. Read whole
//!   and without a clock it is the record of RFC 5424 that the frame spells
//!   ([`frames_have_one_reading`]).
//! - Frames: `HasFrames`, the frames of all openings and datagrams; `IsReceived`, the received set:
//!   the records as which a frame of at most `FRAME_MAX` octets is read, each as its entry
//!   ([`received_records`]).
//! - Collectors: `Stands`, where a collector is after events over a first set, and `GoesOn`: each
//!   call's clause `goes_on` says that it then stands at these events with those that the call
//!   accepted. A store may no longer hold what is kept elsewhere: then a collector stands `behind`
//!   that, and [`stands_behind`] says what both together hold. `waits_of`, how many frames of a
//!   number wait because memory was refused for them, and `NoneWaits`. Standing has the same over
//!   the parts of a collector, and Numbers the connection of a number. Lends is the loan of a
//!   store.
//! - Answers and Runs: what a call or a run accepted, as a function of its answer, and the cause of
//!   each refusal. Stops: why a run stopped. Outcomes: what becomes of a frame.
//! - Observers: what an [`Observer`] is told of the frames of a piece.
//! - Logs: `LogsRun`, the log of a run, outcome by outcome.
//! - Headline: `ReceivedSame`, that the received sets of two lists of events are equal.
#![tactic(auto)]

mod advancing;
mod collector;
mod connection;
mod connections;
mod event;
mod fault;
mod law;
mod lending;
mod limits;
mod observer;
mod outcome;
mod piece;
mod running;

pub use collector::Collector;
pub use event::{Event, EventEnd, RunEnd};
pub use fault::{Advance, CollectFault};
pub use law::{
    frames_have_one_reading, merged_archives, received_records, same_archives, stands_behind,
};
pub use limits::{CONNECTIONS_LIMIT, CONNECTIONS_MAX};
pub use observer::Observer;
pub use outcome::Outcome;
pub use syslog_sender::{SendFault, Sender};
