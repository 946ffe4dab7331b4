//! The entries of an archive are counted, up to its end.

ghost use Rattle.std.specs.Prelude.{MatchResult};
ghost use Rattle.archive_sets.specs.Failures.{ReadFailures, WriteFailures};
ghost use Rattle.archive_digest.specs.Digesting.{Halted, IsFresh, ReadWhole};

use crate::digesting::Digesting;
use archive_sets::SelectFault;
use archive_text::Period;
use octet_devices::{Input, Output};

impl Digesting {
    /// Counts each entry up to the end of the archive. It fails at the first fault that is met.
    pub fn count_all<R: Input, W: Output>(
        &mut self,
        period: Period,
        reader: &mut R,
        writer: &mut W,
    ) -> Result<(), SelectFault>
        requires { IsFresh self.old.tally.roots self.old }
        ensures outcome { MatchResult result
            (λ _. ReadWhole self.old.tally.roots period self.new (R.state reader.old) (R.state reader.new)
            (W.state writer.old).taken (W.state writer.new).taken)
            (λ fault. Halted self.old.tally.roots period fault self.new.held (R.state reader.old) (R.state reader.new)
            (W.state writer.old).taken (W.state writer.new).taken) }
        ensures reader { ReadFailures result (R.state reader.old).failures
            (R.state reader.new).failures }
        ensures writer { WriteFailures result (W.state writer.old).failures
            (W.state writer.new).failures }
    {
        'entries: while self.advance(reader)? {
            self.count(period, writer)?;
        }
        Ok(())
    }
}
