//! What two archives have in common, and what one has alone.

ghost use Rattle.std.specs.Prelude.{MatchResult};
ghost use Rattle.c_library.specs.Answers.{Answers};
ghost use Rattle.c_library.specs.Sets.{CommonOf, JoinOf, MinusOf};
ghost use Rattle.c_library.specs.Unions.{IsNoUnion};

use crate::answer::answer;
use crate::archives::archive_of;
use crate::fault::SyslogboxFault;
use crate::numbers::{LEFT, NO_MEMORY, RIGHT};
use archive_join::{Common, Kept, Minus, join_streams, kept_entries_are_archives};
use octet_devices::{FromRead, ToWrite};
use std::alloc::Global;

/// Why two texts were not joined: one is no archive, the left one first; or there was no memory.
fn fault_of_both(alloc: Global, left: &[u8], right: &[u8]) -> SyslogboxFault
    ensures { IsNoUnion left.now right.now result }
{
    match archive_of(alloc, LEFT, left) {
        Err(fault) => fault,
        Ok(_left) => match archive_of(alloc, RIGHT, right) {
            Err(fault) => fault,
            Ok(_right) => SyslogboxFault::new(NO_MEMORY, 0),
        },
    }
}

/// What is kept of the records of two archives, in one pass over both.
fn joined_text<K: Kept>(
    alloc: Global,
    kept: &K,
    left: &[u8],
    right: &[u8],
) -> Result<Vec<u8>, SyslogboxFault>
    ensures { MatchResult result
        (λ v. JoinOf (K.keeps kept.now) (K.text kept.now) left.now right.now v.items)
        (IsNoUnion left.now right.now) }
{
    kept_entries_are_archives(kept);
    let mut writer = ToWrite::new(Vec::new(alloc));
    let mut inputs = [FromRead::new(left), FromRead::new(right)];
    match join_streams(alloc, kept, &mut inputs, &mut writer) {
        Ok(_count) => Ok(writer.into_inner()),
        Err(_) => Err(fault_of_both(alloc, left, right)),
    }
}

/// The text of the archive of the records that both archives have.
fn common_text(alloc: Global, left: &[u8], right: &[u8]) -> Result<Vec<u8>, SyslogboxFault>
    ensures { MatchResult result (λ v. CommonOf left.now right.now v.items)
        (IsNoUnion left.now right.now) }
{
    joined_text(alloc, &Common, left, right)
}

/// The text of the archive of the records that the left archive has and the right one lacks.
fn minus_text(alloc: Global, left: &[u8], right: &[u8]) -> Result<Vec<u8>, SyslogboxFault>
    ensures { MatchResult result (λ v. MinusOf left.now right.now v.items)
        (IsNoUnion left.now right.now) }
{
    joined_text(alloc, &Minus, left, right)
}

/// Writes the archive of the records that two archives have in common, and returns how many octets it has; or
/// -1 and why not. If neither text is an archive, the fault is that of the left one.
#[unsafe(no_mangle)]
pub extern "C" fn syslogbox_proved_common(
    alloc: Global,
    left: &[u8],
    right: &[u8],
    out: &mut [u8],
    fault: &mut SyslogboxFault,
) -> i64
    ensures { Answers (CommonOf left.now right.now) (IsNoUnion left.now right.now)
        (record { room = out.old; fault = fault.old })
        (record { room = out.new; fault = fault.new }) result }
{
    answer(common_text(alloc, left, right), out, fault)
}

/// Writes the archive of the records that the left archive has and the right one lacks, and returns how many
/// octets it has; or -1 and why not. If neither text is an archive, the fault is that of the left one.
#[unsafe(no_mangle)]
pub extern "C" fn syslogbox_proved_minus(
    alloc: Global,
    left: &[u8],
    right: &[u8],
    out: &mut [u8],
    fault: &mut SyslogboxFault,
) -> i64
    ensures { Answers (MinusOf left.now right.now) (IsNoUnion left.now right.now)
        (record { room = out.old; fault = fault.old })
        (record { room = out.new; fault = fault.new }) result }
{
    answer(minus_text(alloc, left, right), out, fault)
}
