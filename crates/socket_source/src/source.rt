//! What a server is served by.
ghost use Rattle.socket_source.specs.Steps.{Closes, GaveStep, SourceState};

use crate::step::ServerStep;

/// Where the steps of a server come from: many connections at once, and datagrams. It counts its steps.
pub trait ServerSource {
    // what is open; the counts, each of 64 bits and kept at its largest value; and the steps to come
    ghost state: { Self → SourceState };

    /// The next step: one that may come with these connections open. The octets of a piece or a
    /// datagram are put at the front of the slice, which should have room for `PIECE_MAX` of them;
    /// what does not fit of a datagram is lost. An empty slice is a fault (`NoRoom`).
    fn next(&mut self, buf: &mut [u8]) -> ServerStep
        ensures { GaveStep (state self.old) (state self.new) result buf.new };

    /// Closes a connection. Nothing more comes of it, and its number may be given again. If none is
    /// open under the number, nothing is done.
    fn close(&mut self, conn: u32)
        ensures { Closes (state self.old) (state self.new) conn };
}
