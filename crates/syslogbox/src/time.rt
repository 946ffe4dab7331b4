//! The time of a server.

use crate::outputs::Outputs;
use libc::net::poll;
use serve_engine::Pause;
use std::time::Instant;

// Milliseconds between two tries on a full disk.
const FULL_MILLIS: i32 = 1_000;

/// The time of a server by a clock that never goes back. What was told is written before it waits.
#[derive(Drop)]
pub struct ServerTime<'t, 'n, 'f, 'r> {
    rt: &'t HostRuntime,
    outputs: Outputs<'n, 'f, 'r>,
    began: Option<Instant>,
    // the milliseconds since it began that were told
    told: u64,
}

impl<'t, 'n, 'f, 'r> ServerTime<'t, 'n, 'f, 'r> {
    /// It begins now.
    pub fn new(rt: &'t HostRuntime, outputs: Outputs<'n, 'f, 'r>) -> ServerTime<'t, 'n, 'f, 'r> {
        ServerTime {
            rt,
            outputs,
            began: Instant::now(rt).ok(),
            told: 0,
        }
    }

    // The milliseconds since it began; none where the system does not tell.
    fn since_began(&self) -> u64 {
        match (self.began, Instant::now(self.rt)) {
            (Some(began), Ok(now)) => {
                let since = now.saturating_duration_since(began);
                u64::try_from(since.as_millis()).unwrap_or(u64::MAX)
            }
            _ => 0,
        }
    }
}

impl<'t, 'n, 'f, 'r> Pause for ServerTime<'t, 'n, 'f, 'r> {
    fn pause(&mut self) {
        self.outputs.flush();
        self.outputs.notes.tell_alive(self.rt);
        let _ = poll(&mut [], FULL_MILLIS);
    }

    fn passed(&mut self) -> u32 {
        let passed = self.since_began().saturating_sub(self.told);
        self.told = self.told.saturating_add(passed);
        u32::try_from(passed).unwrap_or(u32::MAX)
    }
}
