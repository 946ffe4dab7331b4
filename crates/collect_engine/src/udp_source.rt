//! Datagrams from a socket.
ghost use Rattle.std.specs.Prelude.{◌≡◌, None, length};
ghost use Rattle.collect_engine.specs.Sockets.{IsOfDatagrams};
ghost use Rattle.collect_engine.specs.Steps.{GaveStep, IsWithin};

use crate::counts::StepCounts;
use crate::source::Source;
use crate::step::Step;
use std::net::UdpSocket;

/// The datagrams that come to a socket, each a step, as many as were asked for.
#[derive(Drop)]
pub struct UdpSource {
    socket: UdpSocket,
    pub(crate) left: u32,
    counts: StepCounts,
}

impl UdpSource {
    /// The next `count` datagrams of a bound socket, and then the end.
    pub fn new(socket: UdpSocket, count: u32) -> UdpSource
        ensures state { ⟦<UdpSource as Source>⟧.state result
            ≡ record { steps = 0; failures = 0; finishes = 0; coming = None } }
        ensures left { result.left ≡ count }
    {
        UdpSource {
            socket,
            left: count,
            counts: StepCounts::new(),
        }
    }

    // Waits for a datagram, if one is still asked for.
    fn receive(&mut self, buf: &mut [u8]) -> Step
        ensures within { IsWithin (length buf.new) result }
        ensures counts { self.new.counts ≡ self.old.counts }
        ensures left { IsOfDatagrams self.old.left self.new.left result }
    {
        let Some(left) = self.left.checked_sub(1) else {
            return Step::Finished;
        };
        let Ok((n, _from)) = self.socket.recv_from(buf) else {
            return Step::Failed;
        };
        self.left = left;
        Step::Datagram(n)
    }
}

impl Source for UdpSource {
    ghost use Rattle.std.specs.Prelude.{None};

    ghost state = { λ s. record {
      steps = s.counts.steps;
      failures = s.counts.failures;
      finishes = s.counts.finishes;
      coming = None;
    } };

    fn next(&mut self, buf: &mut [u8]) -> Step
        ensures gave { GaveStep (⟦<UdpSource as Source>⟧.state self.old) (⟦<UdpSource as Source>⟧.state self.new)
            result buf.new }

        // a datagram while one is asked for, and then the end
        ensures left { IsOfDatagrams self.old.left self.new.left result }
    {
        let step = self.receive(buf);
        self.counts.count(step);
        step
    }
}
