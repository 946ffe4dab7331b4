//! The entries of an archive, one after the other.

ghost use Rattle.std.specs.Prelude.{◌≡◌, false, IfErr, IfOk, IsTrue};
ghost use Rattle.archive_streams.specs.Entries.{Ends, IsOpen, ReadsOne};
ghost use Rattle.archive_sets.specs.Failures.{ReadFailures};
ghost use Rattle.archive_sets.specs.Selecting.{IsHalt};

use archive_sets::SelectFault;
use archive_streams::{ArchiveEntries, EntriesFault, InputFault};
use octet_devices::Input;

/// Reads the next entry and answers true, or finds the end and answers false. It fails if there is
/// neither.
pub(crate) fn next_entry<R: Input>(
    entries: &mut ArchiveEntries,
    reader: &mut R,
) -> Result<bool, SelectFault>
    requires { IsOpen entries.old }
    ensures entry { IfOk result (λ some. IsTrue some → ReadsOne entries.old entries.new
        (R.state reader.old) (R.state reader.new)) }
    ensures end { IfOk result (λ some. some ≡ false → Ends entries.old entries.new
        (R.state reader.old) (R.state reader.new)) }
    ensures fault { IfErr result (λ fault. IsHalt fault entries.old entries.new
        (R.state reader.old) (R.state reader.new)) }
    ensures told { ReadFailures result (R.state reader.old).failures
        (R.state reader.new).failures }
{
    match entries.next(reader) {
        Ok(some) => Ok(some),
        Err(EntriesFault::Archive(fault)) => Err(SelectFault::Archive(fault)),
        Err(EntriesFault::Input(InputFault::Device)) => Err(SelectFault::Read),
        Err(EntriesFault::Input(InputFault::Endless)) => Err(SelectFault::Endless),
    }
}
