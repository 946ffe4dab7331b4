//! The union of two archives.

ghost use Rattle.std.specs.Prelude.{MatchResult};
ghost use Rattle.c_library.specs.Answers.{Answers};
ghost use Rattle.c_library.specs.Unions.{IsArchiveOf, IsNoArchive, IsNoUnion, UnionOf};

use crate::answer::answer;
use crate::fault::SyslogboxFault;
use crate::numbers::{LEFT, NO_MEMORY, RIGHT};
use archive_vec::{ReadFault, VecArchive, merge};
use octet_devices::ToWrite;
use std::alloc::Global;

/// The archive of a text on this side.
pub fn archive_of(alloc: Global, side: u32, text: &[u8]) -> Result<VecArchive, SyslogboxFault>
    ensures { MatchResult result (λ archive. IsArchiveOf archive.list text.now)
        (IsNoArchive side text.now) }
{
    match VecArchive::read(alloc, text) {
        Ok(archive) => {
            let _archive = archive.len();
            Ok(archive)
        }
        Err(ReadFault::Bad(fault)) => Err(SyslogboxFault::of_archive(side, fault)),
        Err(ReadFault::Memory) => Err(SyslogboxFault::new(NO_MEMORY, 0)),
    }
}

/// The text of the archive of the records of two archives.
fn union_text(alloc: Global, left: &[u8], right: &[u8]) -> Result<Vec<u8>, SyslogboxFault>
    ensures { MatchResult result (λ v. UnionOf left.now right.now v.items)
        (IsNoUnion left.now right.now) }
{
    let left = match archive_of(alloc, LEFT, left) {
        Ok(left) => left,
        Err(fault) => return Err(fault),
    };
    let right = match archive_of(alloc, RIGHT, right) {
        Ok(right) => right,
        Err(fault) => return Err(fault),
    };
    let Ok(joined) = merge(alloc, &left, &right) else {
        return Err(SyslogboxFault::new(NO_MEMORY, 0));
    };
    let mut writer = ToWrite::new(Vec::new(alloc));
    match joined.write(&mut writer) {
        Ok(()) => Ok(writer.into_inner()),
        Err(_) => Err(SyslogboxFault::new(NO_MEMORY, 0)),
    }
}

/// Writes the archive of the records of two archives, and returns how many octets it has; or -1 and
/// why not. If neither text is an archive, the fault is that of the left one.
#[unsafe(no_mangle)]
pub extern "C" fn syslogbox_proved_union(
    alloc: Global,
    left: &[u8],
    right: &[u8],
    out: &mut [u8],
    fault: &mut SyslogboxFault,
) -> i64
    ensures { Answers (UnionOf left.now right.now) (IsNoUnion left.now right.now)
        (record { room = out.old; fault = fault.old })
        (record { room = out.new; fault = fault.new }) result }
{
    answer(union_text(alloc, left, right), out, fault)
}
