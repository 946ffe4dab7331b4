//! Archives are joined.

ghost use Rattle.std.specs.Prelude.{◌≡◌, List, IsErrOf, MatchResult, map};
ghost use Rattle.archive_join.specs.Failures.{TellsFailures};
ghost use Rattle.archive_join.specs.Joined.{Joined, JoinedOrStopped, Stopped};

use crate::fault::JoinFault;
use crate::heads::Least;
use crate::joining::Join;
use crate::kept::Kept;
use octet_devices::{Input, Output, WriteFault};
use std::alloc::Global;

impl Join {
    ghost use Rattle.std.specs.Prelude.{◌<◌, length, vec_len, IfErr, OnOk};
    ghost use Rattle.archive_join.specs.Failures.{IsOfDevices};
    ghost use Rattle.archive_join.specs.Heads.{AreClosed, IsFound, total};
    ghost use Rattle.archive_join.specs.Joining.{Halted, IsFresh, Joining, TurnHalts, Turns};
    ghost use Rattle.archive_join.specs.Sides.{AreIdle};

    /// Joins the least entry, and reads the next one of each archive that has it.
    fn turn<K: Kept, R: Input, W: Output>(
        &mut self,
        kept: &K,
        least: Least,
        inputs: &mut [R],
        writer: &mut W,
    ) -> Result<(), JoinFault>
        requires inputs { length inputs.old ≡ vec_len self.old.heads }
        requires idle { AreIdle self.old.holders.items }
        requires found { IsFound self.old.heads.items self.old.heads.items least }
        ensures size { vec_len self.new.heads ≡ vec_len self.old.heads }
        ensures idle { OnOk result (AreIdle self.new.holders.items) }
        ensures nears { OnOk result (total self.new.heads.items < total self.old.heads.items) }
        ensures turns { OnOk result (Turns (K.keeps kept.now) (K.text kept.now) self.old self.new
            (map R.state inputs.old) (map R.state inputs.new)
            (W.state writer.old).taken (W.state writer.new).taken) }
        ensures halts { IfErr result (λ fault. TurnHalts (K.keeps kept.now) (K.text kept.now) fault
            self.old self.new (map R.state inputs.old) (map R.state inputs.new)
            (W.state writer.old).taken (W.state writer.new).taken) }
        ensures devices { IsOfDevices result (map R.state inputs.old) (map R.state inputs.new)
            (W.state writer.old) (W.state writer.new) }
    {
        self.note(least);
        self.take(kept, least.at, writer)?;
        self.advance_holders(least, inputs)
    }

    /// Joins the archives to their ends.
    fn join<K: Kept, R: Input, W: Output>(
        &mut self,
        kept: &K,
        inputs: &mut [R],
        writer: &mut W,
    ) -> Result<(), JoinFault>
        requires inputs { length inputs.old ≡ vec_len self.old.heads }
        requires fresh { IsFresh self.old }
        ensures closed { OnOk result (AreClosed self.new.heads.items) }
        ensures joined { OnOk result (Joining (K.keeps kept.now) (K.text kept.now) self.new
            (map R.state inputs.old) (map R.state inputs.new)
            (W.state writer.old).taken (W.state writer.new).taken) }
        ensures halted { IfErr result (λ fault. Halted (K.keeps kept.now) (K.text kept.now) fault
            self.new.held (map R.state inputs.old) (map R.state inputs.new)
            (W.state writer.old).taken (W.state writer.new).taken) }
        ensures devices { IsOfDevices result (map R.state inputs.old) (map R.state inputs.new)
            (W.state writer.old) (W.state writer.new) }
    {
        self.advance(inputs)?;
        'entries: while let Some(least) = self.least() {
            self.turn(kept, least, inputs, writer)?;
        }
        Ok(())
    }

    /// Joins the archives; what is held back is written before a fault is answered.
    fn run<K: Kept, R: Input, W: Output>(
        &mut self,
        kept: &K,
        inputs: &mut [R],
        writer: &mut W,
    ) -> Result<u64, JoinFault>
        requires inputs { length inputs.old ≡ vec_len self.old.heads }
        requires fresh { IsFresh self.old }
        ensures outcome { JoinedOrStopped (K.keeps kept.now) (K.text kept.now) result
            (map R.state inputs.old) (map R.state inputs.new)
            (W.state writer.old).taken (W.state writer.new).taken }
        ensures told { TellsFailures result (map R.state inputs.old) (map R.state inputs.new)
            (W.state writer.old) (W.state writer.new) }
        ensures not_memory { ¬ (IsErrOf result JoinFault.Memory) }
    {
        let Err(fault) = self.join(kept, inputs, writer) else {
            return match self.held.finish(writer) {
                Ok(()) => Ok(self.count),
                Err(WriteFault { sent }) => Err(JoinFault::Write { sent }),
            };
        };
        match fault {
            JoinFault::Write { sent } => Err(JoinFault::Write { sent }),
            _ => match self.held.finish(writer) {
                Ok(()) => Err(fault),
                Err(WriteFault { sent }) => Err(JoinFault::Write { sent }),
            },
        }
    }
}

/// Reads archives, each the text of a set of records, in one pass, and writes what is kept of their
/// entries, depending on who has them, in the order of an archive. It gives the number of entries
/// that are kept.
///
/// Room for two entries of each archive and for a piece of `ENTRIES_READ_MAX` octets of its reader
/// is reserved first, and no further memory is taken. The call itself holds back up to 16,384
/// octets, so that they leave in large pieces.
///
/// The next entries are read in the order of the inputs: first one of each, and then one of each
/// input that had the least entry, once that was joined. Each input is read to its end.
///
/// # Errors
/// The first fault that is met in this order. What is kept of the entries before it is written
/// first; if the writer fails then, that is the answer. `Memory` comes only before anything is read
/// or written.
pub fn join_streams<K: Kept, R: Input, W: Output>(
    alloc: Global,
    kept: &K,
    inputs: &mut [R],
    writer: &mut W,
) -> Result<u64, JoinFault>
    // all archives whole, and what is kept of their entries; or what a fault says of what was read
    // and written
    ensures outcome { MatchResult result
        (λ n. Joined (K.keeps kept.now) (K.text kept.now)
        (map R.state inputs.old) (map R.state inputs.new)
        (W.state writer.old).taken (W.state writer.new).taken n)
        (λ fault. Stopped (K.keeps kept.now) (K.text kept.now) fault
        (map R.state inputs.old) (map R.state inputs.new)
        (W.state writer.old).taken (W.state writer.new).taken) }

    // a device's fault just where that device failed
    ensures told { TellsFailures result (map R.state inputs.old) (map R.state inputs.new)
        (W.state writer.old) (W.state writer.new) }

    // out of memory only before anything is read or written
    ensures memory { IsErrOf result JoinFault.Memory → (inputs.new ≡ inputs.old)
        × (writer.new ≡ writer.old) }
{
    let Ok(mut join) = Join::new(alloc, inputs.len()) else {
        return Err(JoinFault::Memory);
    };
    join.run(kept, inputs, writer)
}
