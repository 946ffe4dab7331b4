//! What is selected of an archive is copied, up to its end.

ghost use Rattle.std.specs.Prelude.{MatchResult};
ghost use Rattle.archive_sets.specs.Failures.{ReadFailures, WriteFailures};
ghost use Rattle.archive_sets.specs.Selecting.{Copied, Halted, IsFresh};

use crate::condition::Condition;
use crate::fault::SelectFault;
use crate::selection::Selection;
use octet_devices::{Input, Output};

impl Selection {
    /// Puts each entry that meets the condition behind what was selected, up to the end of the
    /// archive. It fails at the first fault that is met.
    pub fn copy<C: Condition, R: Input, W: Output>(
        &mut self,
        condition: &C,
        reader: &mut R,
        writer: &mut W,
    ) -> Result<(), SelectFault>
        requires { IsFresh self.old }
        ensures outcome { MatchResult result
            (λ _. Copied (C.meets condition.now) self.new (R.state reader.old)
            (R.state reader.new) (W.state writer.old).taken (W.state writer.new).taken)
            (λ fault. Halted (C.meets condition.now) fault self.new.held (R.state reader.old)
            (R.state reader.new) (W.state writer.old).taken (W.state writer.new).taken) }
        ensures reader { ReadFailures result (R.state reader.old).failures
            (R.state reader.new).failures }
        ensures writer { WriteFailures result (W.state writer.old).failures
            (W.state writer.new).failures }
    {
        'entries: while self.advance(reader)? {
            self.keep(condition, writer)?;
        }
        Ok(())
    }
}
