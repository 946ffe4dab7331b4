//! Connections to a socket.
ghost use Rattle.std.specs.Prelude.{◌≡◌, IsNone, None, length};
ghost use Rattle.collect_engine.specs.Sockets.{IsOfConnections};
ghost use Rattle.collect_engine.specs.Steps.{GaveStep, IsWithin};

use crate::counts::StepCounts;
use crate::source::Source;
use crate::step::Step;
use std::io::Read;
use std::net::{TcpListener, TcpStream};
use syslog_frame::Framing;

/// The connections to a socket, one after the other in the order in which they are accepted, as
/// many as were asked for. A connection that is reset is a failure.
#[derive(Drop)]
pub struct TcpSource {
    listener: TcpListener,
    pub(crate) framing: Framing,
    pub(crate) left: u32,
    pub(crate) stream: Option<TcpStream>,
    counts: StepCounts,
}

impl TcpSource {
    /// The next `count` connections to a bound socket, whose streams have this framing, and then
    /// the end.
    pub fn new(listener: TcpListener, framing: Framing, count: u32) -> TcpSource
        ensures state { ⟦<TcpSource as Source>⟧.state result
            ≡ record { steps = 0; failures = 0; finishes = 0; coming = None } }
        ensures framing { result.framing ≡ framing }
        ensures left { result.left ≡ count }
        ensures none { IsNone result.stream }
    {
        TcpSource {
            listener,
            framing,
            left: count,
            stream: None,
            counts: StepCounts::new(),
        }
    }

    // Waits for a connection, if one is still asked for.
    fn accept(&mut self) -> Step
        requires { IsNone self.old.stream }
        ensures counts { self.new.counts ≡ self.old.counts }
        ensures within { IsWithin 0 result }
        ensures framing { self.new.framing ≡ self.old.framing }
        ensures left { IsOfConnections self.old.framing self.old.left self.new.left
            self.old.stream self.new.stream result }
    {
        let Some(left) = self.left.checked_sub(1) else {
            return Step::Finished;
        };
        let Ok((stream, _from)) = self.listener.accept() else {
            return Step::Failed;
        };
        self.stream = Some(stream);
        self.left = left;
        Step::Opened(self.framing)
    }

    // Waits for octets on the open connection, or for a connection where none is open.
    fn receive(&mut self, buf: &mut [u8]) -> Step
        ensures within { IsWithin (length buf.new) result }
        ensures counts { self.new.counts ≡ self.old.counts }
        ensures framing { self.new.framing ≡ self.old.framing }
        ensures left { IsOfConnections self.old.framing self.old.left self.new.left
            self.old.stream self.new.stream result }
    {
        let Some(stream) = &mut self.stream else {
            return self.accept();
        };
        match stream.read(buf) {
            Ok(0) => {
                self.stream = None;
                Step::Ended
            }
            Ok(n) => Step::Piece(n),
            Err(_) => Step::Failed,
        }
    }
}

impl Source for TcpSource {
    ghost use Rattle.std.specs.Prelude.{None};

    ghost state = { λ s. record {
      steps = s.counts.steps;
      failures = s.counts.failures;
      finishes = s.counts.finishes;
      coming = None;
    } };

    fn next(&mut self, buf: &mut [u8]) -> Step
        ensures gave { GaveStep (⟦<TcpSource as Source>⟧.state self.old) (⟦<TcpSource as Source>⟧.state self.new)
            result buf.new }

        // a connection while one is asked for, octets and the end of the open one, and then the end
        ensures framing { self.new.framing ≡ self.old.framing }
        ensures left { IsOfConnections self.old.framing self.old.left self.new.left
            self.old.stream self.new.stream result }
    {
        let step = self.receive(buf);
        self.counts.count(step);
        step
    }
}
