//! The digest of an archive.

ghost use Rattle.std.specs.Prelude.{◌≡◌, ◌↔◌, [], ℕ, List, IfErr, IfOk, IsErrOf, MatchResult};
ghost use Rattle.octet_devices.specs.Held.{Puts};
ghost use Rattle.archive_text.specs.Entries.{Entry};
ghost use Rattle.archive_sets.specs.Failures.{ReadFailures, TellsFailures, WriteFailures};
ghost use Rattle.archive_digest.specs.Digested.{Digested, Stopped};
ghost use Rattle.archive_digest.specs.DigestedWith.{DigestedWith, StoppedWith};
ghost use Rattle.archive_digest.specs.Digesting.{FinishFails, Finishes, IsFresh};
ghost use Rattle.archive_digest.specs.Putting.{TellsWrites, ending};
ghost use Rattle.archive_digest.specs.Sums.{IsTallyOf};
ghost use Rattle.archive_digest.specs.declared.roots.Roots.{Roots};
ghost use Rattle.archive_digest.specs.declared.roots.Roots.TheVariants.{With};

use crate::digesting::Digesting;
use crate::line::put_line;
use crate::roots::Roots;
use archive_sets::SelectFault;
use archive_text::Period;
use octet_devices::{Input, Output, WriteFault};
use std::alloc::Global;

impl Digesting {
    // Puts the line of the latest period, if there is one, and that of all.
    fn put_ending<W: Output>(&mut self, writer: &mut W) -> Result<(), WriteFault>
        ensures tally { self.new.tally ≡ self.old.tally }
        ensures told { TellsWrites (W.state writer.old) (W.state writer.new) result }
        ensures puts { (roots : Roots) (xs latest : List Entry) → ((xs ≡ []) ↔ (latest ≡ []))
            → IsTallyOf roots self.old.tally xs latest → Puts (W.state writer.old) (W.state writer.new)
            self.old.held self.new.held (ending roots self.old.name xs latest) result }
    {
        if self.tally.is_empty() {
            return put_line(&mut self.held, writer, b"total", &self.tally.total);
        }
        put_line(
            &mut self.held,
            writer,
            self.name.octets(),
            self.tally.latest(),
        )?;
        put_line(&mut self.held, writer, b"total", &self.tally.total)
    }

    // Puts these lines, and writes what is held back. Answers how many entries there are.
    fn finish<W: Output>(&mut self, writer: &mut W) -> Result<u64, SelectFault>
        ensures finishes { IfOk result (Finishes self.old (W.state writer.old).taken
            (W.state writer.new).taken) }
        ensures fault { IfErr result (λ fault. FinishFails fault self.old
            (W.state writer.old).taken (W.state writer.new).taken) }
        ensures told { WriteFailures result (W.state writer.old).failures
            (W.state writer.new).failures }
        ensures not_reader { (n : ℕ) → ReadFailures result n n }
        ensures not_memory { ¬ (IsErrOf result SelectFault.Memory) }
    {
        match self.put_ending(writer) {
            Ok(()) => match self.held.finish(writer) {
                Ok(()) => Ok(self.tally.total.records),
                Err(WriteFault { sent }) => Err(SelectFault::Write { sent }),
            },
            Err(WriteFault { sent }) => Err(SelectFault::Write { sent }),
        }
    }

    // Counts to the end of the archive, and writes what is held back before a fault is answered.
    fn run<R: Input, W: Output>(
        &mut self,
        period: Period,
        reader: &mut R,
        writer: &mut W,
    ) -> Result<u64, SelectFault>
        requires { IsFresh self.old.tally.roots self.old }
        ensures outcome { MatchResult result
            (λ n. DigestedWith self.old.tally.roots period (R.state reader.old) (R.state reader.new)
            (W.state writer.old).taken (W.state writer.new).taken n)
            (λ fault. StoppedWith self.old.tally.roots period fault (R.state reader.old) (R.state reader.new)
            (W.state writer.old).taken (W.state writer.new).taken) }
        ensures told { TellsFailures result (R.state reader.old) (R.state reader.new)
            (W.state writer.old) (W.state writer.new) }
        ensures not_memory { ¬ (IsErrOf result SelectFault.Memory) }
    {
        match self.count_all(period, reader, writer) {
            Ok(()) => self.finish(writer),
            Err(SelectFault::Write { sent }) => Err(SelectFault::Write { sent }),
            Err(fault) => match self.held.finish(writer) {
                Ok(()) => Err(fault),
                Err(WriteFault { sent }) => Err(SelectFault::Write { sent }),
            },
        }
    }
}

/// Reads an archive, the text of a set of records, and writes its digest: for each period that has
/// records, ascending, `PERIOD COUNT OCTETS SHA256` and a line feed, and finally the same for all
/// records as `total`. PERIOD is `undated`, or the first octets of a canonical timestamp (RFC 5424,
/// section 6.2.3): `2026-11`, `2026-11-25` or `2026-11-25T10`, in UTC. COUNT is how many records
/// there are, OCTETS how many octets their archive has, and SHA256 its hash (FIPS 180-4) in
/// lower-case hexadecimal. The answer is the number of all records.
///
/// Room for two entries and for a piece of `ENTRIES_READ_MAX` octets of the reader is reserved
/// first, and no further memory is taken. The call itself holds back up to 16,384 octets.
///
/// # Errors
/// The first fault that is met, as `select_stream` of `archive_sets` answers it. The lines of the
/// periods before that of the last entry that was read are written first; if the writer fails then,
/// that is the answer. `Memory` comes only before anything is read or written.
pub fn digest_stream<R: Input, W: Output>(
    alloc: Global,
    period: Period,
    reader: &mut R,
    writer: &mut W,
) -> Result<u64, SelectFault>
    // the whole archive, and its digest; or what a fault says of what was read and written
    ensures outcome { MatchResult result
        (λ n. Digested period (R.state reader.old) (R.state reader.new)
        (W.state writer.old).taken (W.state writer.new).taken n)
        (λ fault. Stopped period fault (R.state reader.old) (R.state reader.new)
        (W.state writer.old).taken (W.state writer.new).taken) }

    // a device's fault just where that device failed
    ensures told { TellsFailures result (R.state reader.old) (R.state reader.new)
        (W.state writer.old) (W.state writer.new) }

    // out of memory only before anything is read or written
    ensures memory { IsErrOf result SelectFault.Memory → (reader.new ≡ reader.old)
        × (writer.new ≡ writer.old) }
{
    let Ok(mut digesting) = Digesting::new(alloc, Roots::Without) else {
        return Err(SelectFault::Memory);
    };
    digesting.run(period, reader, writer)
}

/// Writes the digest of [`digest_stream`], where each line has one word more at its end, behind a
/// space: the root of its records, which is their Merkle tree hash (RFC 9162, section 2.1.1) in
/// lower-case hexadecimal. The leaves are the canonical records, without their counts, in the
/// archive's order. So the root of a period is that of its own archive, and the root of `total` that
/// of the whole archive.
///
/// Besides the room of [`digest_stream`], which is reserved first, the call has room for two trees of
/// 64 hashes.
///
/// # Errors
/// Those of [`digest_stream`].
pub fn digest_stream_with_roots<R: Input, W: Output>(
    alloc: Global,
    period: Period,
    reader: &mut R,
    writer: &mut W,
) -> Result<u64, SelectFault>
    // the whole archive, and its digest; or what a fault says of what was read and written
    ensures outcome { MatchResult result
        (λ n. DigestedWith With period (R.state reader.old) (R.state reader.new)
        (W.state writer.old).taken (W.state writer.new).taken n)
        (λ fault. StoppedWith With period fault (R.state reader.old) (R.state reader.new)
        (W.state writer.old).taken (W.state writer.new).taken) }

    // a device's fault just where that device failed
    ensures told { TellsFailures result (R.state reader.old) (R.state reader.new)
        (W.state writer.old) (W.state writer.new) }

    // out of memory only before anything is read or written
    ensures memory { IsErrOf result SelectFault.Memory → (reader.new ≡ reader.old)
        × (writer.new ≡ writer.old) }
{
    let Ok(mut digesting) = Digesting::new(alloc, Roots::With) else {
        return Err(SelectFault::Memory);
    };
    digesting.run(period, reader, writer)
}
