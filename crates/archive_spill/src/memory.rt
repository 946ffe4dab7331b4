//! Runs in memory.

ghost use Rattle.std.specs.Prelude.{◌≡◌, ⊤};

use crate::fault::SpillFault;
use crate::spill::Spill;
use octet_devices::{DeviceFault, FromRead, Fuse, ToWrite};
use std::alloc::Global;
use std::io::Cursor;

/// A call on a run, at which it fails.
#[derive(Clone, Copy, Debug, PartialEq, Eq)]
pub enum SpillCall {
    /// It is made.
    Make,
    /// It is written, and `calls` calls have been made.
    Write { calls: u64 },
    /// It is written, and has taken `octets` octets, like a disk that is full.
    Full { octets: u64 },
    /// It is reopened.
    Reopen,
    /// It is read, and `calls` calls have been made.
    Read { calls: u64 },
}

/// Runs in memory, one of which may fail at some call.
#[derive(Debug, Drop)]
pub struct MemorySpill {
    alloc: Global,
    // how many runs were made before
    made: u64,
    // the number of the run that fails, from 0, and at which call
    failing: Option<(u64, SpillCall)>,
}

impl MemorySpill {
    /// Runs of which no call fails.
    pub fn new(alloc: Global) -> MemorySpill {
        MemorySpill {
            alloc,
            made: 0,
            failing: None,
        }
    }

    /// Runs of which the one with this number, from 0, fails at this call.
    pub fn failing(alloc: Global, run: u64, call: SpillCall) -> MemorySpill {
        MemorySpill {
            alloc,
            made: 0,
            failing: Some((run, call)),
        }
    }

    /// How many runs were made.
    pub fn made(&self) -> u64 {
        self.made
    }

    // the call at which the run that was made last fails
    fn failure(&self) -> Option<SpillCall> {
        match self.failing {
            Some((run, call)) if self.made == run.saturating_add(1) => Some(call),
            _ => None,
        }
    }
}

impl Spill for MemorySpill {
    type Written = Fuse<ToWrite<Vec<u8>>>;

    type Run = Fuse<FromRead<Cursor<Vec<u8>>>>;

    ghost tells = { λ _. ⊤ };

    fn make(&mut self) -> Result<Fuse<ToWrite<Vec<u8>>>, SpillFault> {
        self.made = self.made.saturating_add(1);
        let (octets, calls) = match self.failure() {
            Some(SpillCall::Make) => return Err(SpillFault::Spill),
            Some(SpillCall::Write { calls }) => (u64::MAX, calls),
            Some(SpillCall::Full { octets }) => (octets, u64::MAX),
            _ => (u64::MAX, u64::MAX),
        };
        let device = ToWrite::new(Vec::new(self.alloc));
        Ok(Fuse::new(device, octets, calls))
    }

    fn reopen(
        &mut self,
        written: Fuse<ToWrite<Vec<u8>>>,
    ) -> Result<Fuse<FromRead<Cursor<Vec<u8>>>>, DeviceFault> {
        let calls = match self.failure() {
            Some(SpillCall::Reopen) => return Err(DeviceFault),
            Some(SpillCall::Read { calls }) => calls,
            _ => u64::MAX,
        };
        let octets = written.into_inner().into_inner();
        let device = FromRead::new(Cursor::new(octets));
        Ok(Fuse::new(device, u64::MAX, calls))
    }
}
