//! How much of what a connection has one turn gives, where other sockets are ready too.
ghost use Rattle.socket_source.specs.Shares.{IsShareOf, Leaves};

use crate::limits::{
    LEAST_FRAMES, LEAST_OCTETS, ROUND_FRAMES, ROUND_OCTETS, TURN_FRAMES, TURN_OCTETS,
};

/// How many octets, and how many ends of frames, one turn of a connection may give.
#[derive(Clone, Copy)]
pub(crate) struct Share {
    pub(crate) octets: usize,
    pub(crate) frames: usize,
}

impl Share {
    /// The share of each of so many sockets that are ready: a round of all of them has an end soon,
    /// however many they are.
    #[tactic(auto, using(crate::proofs::Shares::part_divided))]
    pub(crate) fn of(ready: usize) -> Share
        ensures share { IsShareOf ready result }
        ensures least { Leaves result }
    {
        let ready = ready.max(1);
        Share {
            octets: (ROUND_OCTETS / ready).clamp(LEAST_OCTETS, TURN_OCTETS),
            frames: (ROUND_FRAMES / ready).clamp(LEAST_FRAMES, TURN_FRAMES),
        }
    }
}
