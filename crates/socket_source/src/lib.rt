//! Many sockets as one source of steps, for a server that runs for weeks.
//!
//! A [`ServerSource`] gives steps: a connection opens under a number, octets come on it, it ends; a
//! datagram comes; a period of time is up. A number names one connection at a time.
//! [`SocketSource`] has the sockets of the system, in one loop without threads; [`MemorySource`]
//! has a list.
#![tactic(auto)]

mod allowed;
mod bound;
mod connection;
mod connections;
mod counts;
mod front;
mod input;
mod law;
mod limits;
mod listener;
mod memory_source;
mod open_fault;
mod open_sockets;
mod opening;
mod options;
mod pace;
mod peers;
mod place;
mod ready;
mod ready_sockets;
mod refusal;
mod share;
mod socket_source;
mod sockets;
mod source;
mod step;
mod system;
mod unix_path;

pub use law::{marks_bound_frames, queues_alternate, turn_comes, turns_end, turns_in_order};
pub use limits::{
    ACCEPTS_A_TURN, CONNECTIONS_MAX, DATAGRAM_TURNS_A_ROUND, DATAGRAMS_A_TURN, LEAST_FRAMES,
    LEAST_OCTETS, PIECE_MAX, ROUND_FRAMES, ROUND_OCTETS, STEPS_BETWEEN, TURN_FRAMES, TURN_OCTETS,
};
pub use listener::{Inherited, Listener};
pub use memory_source::MemorySource;
pub use open_fault::OpenFault;
pub use options::SourceOptions;
pub use socket_source::SocketSource;
pub use source::ServerSource;
pub use step::{ConnectionEnd, ServerStep, SourceFault};
