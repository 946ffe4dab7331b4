//! An archive is added.
ghost use Rattle.std.specs.Prelude.{◌≡◌, IfErr, IfOk, MatchResult};
ghost use Rattle.store_addition.specs.Additions.{AddsPart, AddsWhole, FailuresAt};

use crate::adding::Adding;
use crate::addition::Addition;
use crate::fault::{AddFault, Interrupted};
use disk::Disk;
use octet_devices::Input;
use std::alloc::Global;

/// Reads an archive, the text of a set of records, and puts its records into the folder of a store,
/// beside a server or not: whenever 64 MiB of it were read, and at its end, those become segments, as
/// at a checkpoint, under the draft `add.archive`. Nobody else may add to the folder meanwhile. Once it
/// has returned `Ok`, segments hold every record of the archive, whatever a crash leaves. A crash at
/// any moment leaves what the folder held, the pieces of the archive that were written, and of the next
/// piece the records of some segments. It can say so only if no sync has failed since the machine was
/// started.
///
/// It takes room in memory for a piece of 64 MiB and one entry, in pages, and for two entries and
/// `ENTRIES_READ_MAX` octets of the input.
///
/// # Errors
/// The first fault that is met, or that of the disk where what was read before is written, and how much
/// of the archive is on the disk. Where the input is no archive, fails or has no end, all entries before
/// that are.
pub fn add_archive<D: Disk, R: Input>(
    alloc: Global,
    disk: &mut D,
    input: &mut R,
) -> Result<Addition, Interrupted>
    ensures added { IfOk result (λ added. AddsWhole (D.tells disk.new) (R.state input.old)
        (R.state input.new) (D.state disk.old) (D.state disk.new) added) }

    // so at every moment
    ensures interrupted { IfErr result (λ at. AddsPart (D.tells disk.new) (D.has_failed disk.new)
        (R.state input.old) (R.state input.new) (D.state disk.old) (D.state disk.new) at.added at.fault) }

    // the reader's fault just where it failed, unless the disk failed then
    ensures failures { MatchResult result
        (λ _. (R.state input.new).failures ≡ (R.state input.old).failures)
        (λ at. FailuresAt at.fault (R.state input.old).failures (R.state input.new).failures) }
    ensures told { D.tells disk.new → D.tells disk.old }
{
    let Ok(mut adding) = Adding::new(alloc) else {
        return Err(Interrupted {
            added: Addition::none(),
            fault: AddFault::Memory,
        });
    };
    match adding.add_pieces(alloc, disk, input) {
        Ok(()) => Ok(adding.added),
        Err(fault) => Err(Interrupted {
            added: adding.added,
            fault,
        }),
    }
}
