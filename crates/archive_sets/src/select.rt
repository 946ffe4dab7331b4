//! The records of an archive that meet a condition.

ghost use Rattle.std.specs.Prelude.{◌≡◌, IsErrOf, MatchResult};
ghost use Rattle.archive_sets.specs.Failures.{TellsFailures};
ghost use Rattle.archive_sets.specs.Selected.{Selected, Stopped};
ghost use Rattle.archive_sets.specs.Selecting.{IsFresh};

use crate::condition::Condition;
use crate::fault::SelectFault;
use crate::selection::Selection;
use octet_devices::{Input, Output, WriteFault};
use std::alloc::Global;

impl Selection {
    /// Selects up to the end of the archive; what is held back is written before a fault is answered.
    fn run<C: Condition, R: Input, W: Output>(
        &mut self,
        condition: &C,
        reader: &mut R,
        writer: &mut W,
    ) -> Result<u64, SelectFault>
        requires { IsFresh self.old }
        ensures outcome { MatchResult result
            (λ n. Selected (C.meets condition.now) (R.state reader.old) (R.state reader.new)
            (W.state writer.old).taken (W.state writer.new).taken n)
            (λ fault. Stopped (C.meets condition.now) fault (R.state reader.old)
            (R.state reader.new) (W.state writer.old).taken (W.state writer.new).taken) }
        ensures told { TellsFailures result (R.state reader.old) (R.state reader.new)
            (W.state writer.old) (W.state writer.new) }
        ensures not_memory { ¬ (IsErrOf result SelectFault.Memory) }
    {
        match self.copy(condition, reader, writer) {
            Ok(()) => match self.held.finish(writer) {
                Ok(()) => Ok(self.count),
                Err(WriteFault { sent }) => Err(SelectFault::Write { sent }),
            },
            Err(SelectFault::Write { sent }) => Err(SelectFault::Write { sent }),
            Err(fault) => match self.held.finish(writer) {
                Ok(()) => Err(fault),
                Err(WriteFault { sent }) => Err(SelectFault::Write { sent }),
            },
        }
    }
}

/// Reads an archive, the text of a set of records, and writes the archive of those that meet the
/// condition. It gives their number.
///
/// Room for two entries and for a piece of `ENTRIES_READ_MAX` octets of the reader is reserved
/// first, and no further memory is taken. The call itself holds back up to 16,384 octets, so that
/// they leave in large pieces.
///
/// # Errors
/// The first fault that is met. What is selected of the entries before it is written first; if the
/// writer fails then, that is the answer. `Memory` comes only before anything is read or written.
pub fn select_stream<C: Condition, R: Input, W: Output>(
    alloc: Global,
    condition: &C,
    reader: &mut R,
    writer: &mut W,
) -> Result<u64, SelectFault>
    // the whole archive, and the text of what is selected of it; or what a fault says of what was
    // read and written
    ensures outcome { MatchResult result
        (λ n. Selected (C.meets condition.now) (R.state reader.old) (R.state reader.new)
        (W.state writer.old).taken (W.state writer.new).taken n)
        (λ fault. Stopped (C.meets condition.now) fault (R.state reader.old)
        (R.state reader.new) (W.state writer.old).taken (W.state writer.new).taken) }

    // a device's fault just where that device failed
    ensures told { TellsFailures result (R.state reader.old) (R.state reader.new)
        (W.state writer.old) (W.state writer.new) }

    // out of memory only before anything is read or written
    ensures memory { IsErrOf result SelectFault.Memory → (reader.new ≡ reader.old)
        × (writer.new ≡ writer.old) }
{
    let Ok(mut selection) = Selection::new(alloc) else {
        return Err(SelectFault::Memory);
    };
    selection.run(condition, reader, writer)
}
