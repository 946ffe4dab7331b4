//! Two archives are joined.

ghost use Rattle.std.specs.Prelude.{◌≡◌, ◌<◌, [], IfErr, IfOk, IsErrOf, MatchResult, OnOk};
ghost use Rattle.archive_streams.specs.Joined.{Joined};
ghost use Rattle.archive_streams.specs.Merging.{HasRoom, IsLeftDue, IsNextOrder, IsSteady};
ghost use Rattle.archive_streams.specs.Merging.{height, rank};
ghost use Rattle.archive_streams.specs.Steps.{AreJoined, FinishFails, IsFinished, IsTurned};
ghost use Rattle.archive_streams.specs.Steps.{JoinHalts, RunJoins, RunStops, TellsDevice};
ghost use Rattle.archive_streams.specs.Steps.{TellsFailures, TellsWriter, TurnHalts};
ghost use Rattle.archive_streams.specs.Stopped.{Stopped};

use crate::fault::{MergeFault, Side};
use crate::merge::Merge;
use octet_devices::{Input, Output, WriteFault};
use std::alloc::Global;
use std::cmp::Ordering;

impl Merge {
    /// Writes the next entry, and reads the next one of each side that has it.
    fn turn<R1: Input, R2: Input, W: Output>(
        &mut self,
        order: Ordering,
        left: &mut R1,
        right: &mut R2,
        writer: &mut W,
    ) -> Result<(), MergeFault>
        requires steady { IsSteady self.old }
        requires order { IsNextOrder order self.old }
        ensures steady { OnOk result (IsSteady self.new) }
        ensures falls { OnOk result (height self.new < height self.old) }
        ensures joins { OnOk result (IsTurned self.old self.new
            (R1.state left.old) (R1.state left.new) (R2.state right.old)
            (R2.state right.new) (W.state writer.old) (W.state writer.new)) }
        ensures halted { IfErr result (λ fault. TurnHalts fault self.old self.new
            (R1.state left.old) (R1.state left.new) (R2.state right.old)
            (R2.state right.new) (W.state writer.old) (W.state writer.new)) }
        ensures told { TellsDevice result
            (R1.state left.old) (R1.state left.new) (R2.state right.old)
            (R2.state right.new) (W.state writer.old) (W.state writer.new) }
    {
        match order {
            Ordering::Less => {
                self.write_left(writer)?;
                self.advance_left(left)
            }
            Ordering::Greater => {
                self.write_right(writer)?;
                self.advance_right(right)
            }
            Ordering::Equal => {
                self.write_left(writer)?;
                self.advance_left(left)?;
                self.advance_right(right)
            }
        }
    }

    /// Joins the two.
    fn join<R1: Input, R2: Input, W: Output>(
        &mut self,
        left: &mut R1,
        right: &mut R2,
        writer: &mut W,
    ) -> Result<(), MergeFault>
        requires due { IsLeftDue self.old }
        requires empty { self.old.right.entry.text.items ≡ [] }
        ensures done { OnOk result (rank self.new ≡ 0) }
        ensures room { OnOk result (HasRoom self.new) }
        ensures joins { OnOk result (AreJoined self.old self.new
            (R1.state left.old) (R1.state left.new) (R2.state right.old)
            (R2.state right.new) (W.state writer.old) (W.state writer.new)) }
        ensures halted { IfErr result (λ fault. JoinHalts fault self.old self.new
            (R1.state left.old) (R1.state left.new) (R2.state right.old)
            (R2.state right.new) (W.state writer.old) (W.state writer.new)) }
        ensures told { TellsDevice result
            (R1.state left.old) (R1.state left.new) (R2.state right.old)
            (R2.state right.new) (W.state writer.old) (W.state writer.new) }
    {
        self.advance_left(left)?;
        self.advance_right(right)?;
        'entries: while let Some(order) = self.order() {
            self.turn(order, left, right, writer)?;
        }
        Ok(())
    }

    /// Writes what is held back, and gives the number of entries that were joined.
    fn finish<W: Output>(&mut self, writer: &mut W) -> Result<u64, MergeFault>
        ensures ok { IfOk result (λ n. IsFinished self.old (W.state writer.old)
            (W.state writer.new) n) }
        ensures err { IfErr result (λ fault. FinishFails fault self.old (W.state writer.old)
            (W.state writer.new)) }
        ensures told { TellsWriter result (W.state writer.old) (W.state writer.new) }
    {
        match self.held.finish(writer) {
            Ok(()) => Ok(self.count),
            Err(WriteFault { sent }) => Err(MergeFault::Write { sent }),
        }
    }

    /// Joins the two; what is held back is written before a fault is answered.
    fn run<R1: Input, R2: Input, W: Output>(
        &mut self,
        left: &mut R1,
        right: &mut R2,
        writer: &mut W,
    ) -> Result<u64, MergeFault>
        requires due { IsLeftDue self.old }
        requires empty { self.old.right.entry.text.items ≡ [] }
        ensures joined { IfOk result (λ n. RunJoins self.old
            (R1.state left.old) (R1.state left.new) (R2.state right.old)
            (R2.state right.new) (W.state writer.old) (W.state writer.new) n) }
        ensures stopped { IfErr result (λ fault. RunStops fault self.old
            (R1.state left.old) (R1.state left.new) (R2.state right.old)
            (R2.state right.new) (W.state writer.old) (W.state writer.new)) }
        ensures told { TellsFailures result
            (R1.state left.old) (R1.state left.new) (R2.state right.old)
            (R2.state right.new) (W.state writer.old) (W.state writer.new) }
        ensures not_memory { ¬ (IsErrOf result MergeFault.Memory) }
    {
        let Err(fault) = self.join(left, right, writer) else {
            return self.finish(writer);
        };
        match fault {
            MergeFault::Write { sent } => Err(MergeFault::Write { sent }),
            _ => match self.finish(writer) {
                Ok(_) => Err(fault),
                Err(write) => Err(write),
            },
        }
    }
}

/// Joins two archives, each the text of a set of records, into the text of the union, and gives the
/// number of its entries.
///
/// Room is reserved first for three entries, `ENTRY_MAX` octets each and 11 more for its length and
/// space, and for a piece of `READ_MAX` octets of each reader; no further memory is taken. The call
/// itself holds back up to 16,384 octets, so that they leave in large pieces.
///
/// An entry of the left is read, then one of the right. The lesser is written, or equal ones once;
/// then the next entry of each input that had it is read, the left one first. The first fault in
/// this order is the answer, and what is held back is written before it.
pub fn merge_streams<R1: Input, R2: Input, W: Output>(
    alloc: Global,
    left: &mut R1,
    right: &mut R2,
    writer: &mut W,
) -> Result<u64, MergeFault>
    // both archives whole, and the text of their union; or what a fault says of what was read and
    // written
    ensures outcome { MatchResult result
        (λ n. Joined (R1.state left.old) (R1.state left.new)
        (R2.state right.old) (R2.state right.new)
        (W.state writer.old).taken (W.state writer.new).taken n)
        (λ fault. Stopped fault (R1.state left.old) (R1.state left.new)
        (R2.state right.old) (R2.state right.new)
        (W.state writer.old).taken (W.state writer.new).taken) }

    // a device's fault just where that device failed
    ensures told { TellsFailures result (R1.state left.old) (R1.state left.new)
        (R2.state right.old) (R2.state right.new) (W.state writer.old) (W.state writer.new) }

    // out of memory only before anything is read or written
    ensures memory { IsErrOf result MergeFault.Memory → (left.new ≡ left.old)
        × (right.new ≡ right.old) × (writer.new ≡ writer.old) }
{
    let Ok(mut merge) = Merge::new(alloc) else {
        return Err(MergeFault::Memory);
    };
    merge.run(left, right, writer)
}
