//! A source that writes out what a server told before it is asked for more, and tells the service
//! manager of ticks, and whoever watches of each step.

use crate::outputs::Outputs;
use crate::watched::Watcher;
use socket_source::{ServerSource, ServerStep};

/// A source, before each of whose steps the outputs are flushed.
#[derive(Drop)]
pub struct Flushing<'t, 'n, 'f, 'r, 'w, Q> {
    pub rt: &'t HostRuntime,
    pub source: Q,
    pub outputs: Outputs<'n, 'f, 'r>,
    pub watcher: Watcher<'w, 't>,
}

impl<'t, 'n, 'f, 'r, 'w, Q: ServerSource> ServerSource for Flushing<'t, 'n, 'f, 'r, 'w, Q> {
    ghost state = { λ f. Q.state f.source };

    fn next(&mut self, buf: &mut [u8]) -> ServerStep {
        self.outputs.flush();
        let step = self.source.next(buf);
        if matches!(step, ServerStep::Tick) {
            self.outputs.notes.tell_alive(self.rt);
        }
        self.watcher.step(&step);
        step
    }

    fn close(&mut self, conn: u32) {
        self.source.close(conn);
        self.watcher.closed();
    }
}
