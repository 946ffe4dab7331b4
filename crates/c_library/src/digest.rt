//! The digest of an archive.

ghost use Rattle.std.specs.Prelude.{◌≡◌, MatchOption, MatchResult, ℤ};
ghost use Rattle.archive_text.specs.declared.period.Period.{Period};
ghost use Rattle.c_library.specs.Answers.{Answers};
ghost use Rattle.c_library.specs.Digests.{DigestOf, IsNoDigest, period_number};
ghost use Rattle.c_library.specs.Unions.{IsNoArchive};

use crate::answer::answer;
use crate::archives::archive_of;
use crate::fault::SyslogboxFault;
use crate::numbers::{BAD_PERIOD, DAY, HOUR, MONTH, NO_FIELD, NO_MEMORY};
use archive_digest::{Period, digest_stream};
use octet_devices::{FromRead, ToWrite};
use std::alloc::Global;

/// Why the text of an archive was not read: it is none, or there was no memory.
pub fn fault_of_one(alloc: Global, text: &[u8]) -> SyslogboxFault
    ensures { IsNoArchive 0 text.now result }
{
    match archive_of(alloc, NO_FIELD, text) {
        Err(fault) => fault,
        Ok(_archive) => SyslogboxFault::new(NO_MEMORY, 0),
    }
}

/// The period with this number, if there is one.
fn period_of(number: i32) -> Option<Period>
    ensures { MatchOption result ((period : Period) → ¬ (number ≡ period_number period))
        (λ period. number ≡ period_number period) }
{
    match number {
        MONTH => Some(Period::Month),
        DAY => Some(Period::Day),
        HOUR => Some(Period::Hour),
        _ => None,
    }
}

/// The digest of an archive by a period of this number.
fn digested(alloc: Global, period: i32, archive: &[u8]) -> Result<Vec<u8>, SyslogboxFault>
    ensures { MatchResult result (λ v. DigestOf period archive.now v.items)
        (IsNoDigest period archive.now) }
{
    let Some(period) = period_of(period) else {
        return Err(SyslogboxFault::new(BAD_PERIOD, 0));
    };
    let mut writer = ToWrite::new(Vec::new(alloc));
    let mut reader = FromRead::new(archive);
    match digest_stream(alloc, period, &mut reader, &mut writer) {
        Ok(_count) => Ok(writer.into_inner()),
        Err(_) => Err(fault_of_one(alloc, archive)),
    }
}

/// Writes the digest of an archive, a line for each period that has records and one for all, and returns how many
/// octets it has; or -1 and why not. The period is 1 for months, 2 for days and 3 for hours.
#[unsafe(no_mangle)]
pub extern "C" fn syslogbox_proved_digest(
    alloc: Global,
    period: i32,
    archive: &[u8],
    out: &mut [u8],
    fault: &mut SyslogboxFault,
) -> i64
    ensures { Answers (DigestOf period archive.now) (IsNoDigest period archive.now)
        (record { room = out.old; fault = fault.old })
        (record { room = out.new; fault = fault.new }) result }
{
    answer(digested(alloc, period, archive), out, fault)
}
