//! Two archives on their way into one, step by step.

ghost use Rattle.std.specs.Prelude.{◌≡◌};
ghost use Rattle.octet_devices.specs.declared.loops.TheConstants.{READ_MAX};
ghost use Rattle.archive_streams.specs.Pieces.{size_of};

use crate::entry::EntryText;
use crate::fault::{InputFault, MergeFault, Side, SideFault};
use crate::side::ArchiveReader;
use archive_text::compare;
use octet_devices::{BufferedOutput, Input, Output, READ_MAX, WriteFault};
use std::alloc::{AllocError, Global};
use std::cmp::Ordering;
use std::mem::swap;

/// Two archives on their way into one.
#[derive(Drop)]
pub struct Merge {
    /// What was read of the left one.
    pub left: ArchiveReader,
    /// What was read of the right one.
    pub right: ArchiveReader,
    /// The entry that was written last.
    pub last: EntryText,
    /// What is held back of the text.
    pub held: BufferedOutput,
    /// How many entries that text has.
    pub count: u64,
    pub ghost left_size: { size_of left.pieces ≡ READ_MAX },
    pub ghost right_size: { size_of right.pieces ≡ READ_MAX },
}

impl Merge {
    ghost use Rattle.std.specs.Prelude.{◌≢◌, [], List, Option, ℕ, IfErr, IfOk, MatchOption, OnOk};
    ghost use Rattle.octet_devices.specs.Device.{InputState};
    ghost use Rattle.archive_streams.specs.Joins.{BothDue};
    ghost use Rattle.archive_streams.specs.Merging.{IsLeftDue, IsNextOrder, IsRightDue, IsSteady};
    ghost use Rattle.archive_streams.specs.Merging.{rank};
    ghost use Rattle.archive_streams.specs.Steps.{KeepsLeft, KeepsRight, LeftHalts, LeftIsOn};
    ghost use Rattle.archive_streams.specs.Steps.{LeftReady, LeftWriteHalts, LeftWritten, RightHalts};
    ghost use Rattle.archive_streams.specs.Steps.{RightIsOn, RightReady, RightWriteHalts};
    ghost use Rattle.archive_streams.specs.Steps.{RightWritten, TakesLeft, TakesRight, TellsLeft};
    ghost use Rattle.archive_streams.specs.Steps.{TellsRight, TellsWriter};

    /// Two archives before their first entries. It fails only when out of memory.
    pub fn new(alloc: Global) -> Result<Merge, AllocError>
        ensures due { IfOk result IsLeftDue }
        ensures empty { IfOk result (λ m. m.right.entry.text.items ≡ []) }
        ensures both { IfOk result (λ m. (dl dr : InputState) (start : Option (List ℕ)) →
            BothDue m dl dl dr dr start start) }
    {
        Ok(Merge {
            left: ArchiveReader::new(alloc, READ_MAX)?,
            right: ArchiveReader::new(alloc, READ_MAX)?,
            last: EntryText::new(alloc)?,
            held: BufferedOutput::new(),
            count: 0,
        })
    }

    /// How the next entries of the two sides compare; a side at its end counts as above the other.
    /// None if both are at their ends.
    pub fn order(&self) -> Option<Ordering>
        requires { IsSteady self.now }
        ensures { MatchOption result (rank self.now ≡ 0) (λ order. IsNextOrder order self.now) }
    {
        if self.left.entry.text.is_empty() {
            if self.right.entry.text.is_empty() {
                return None;
            }
            return Some(Ordering::Greater);
        }
        if self.right.entry.text.is_empty() {
            return Some(Ordering::Less);
        }
        Some(compare(&self.left.entry.view(), &self.right.entry.view()))
    }

    /// Reads the next entry of the left, or finds its end. Faults are those of the left.
    pub fn advance_left<R: Input>(&mut self, left: &mut R) -> Result<(), MergeFault>
        requires { IsLeftDue self.old }
        ensures on { OnOk result (LeftIsOn self.old self.new) }
        ensures kept { KeepsRight self.old self.new }
        ensures told { TellsLeft result (R.state left.old) (R.state left.new) }
        ensures ready { OnOk result (LeftReady self.old self.new
            (R.state left.old) (R.state left.new)) }
        ensures halted { IfErr result (λ fault. LeftHalts fault self.old self.new
            (R.state left.old) (R.state left.new)) }
    {
        match self.left.advance(left, &self.last) {
            Ok(()) => Ok(()),
            Err(SideFault::Archive(fault)) => Err(MergeFault::Left(fault)),
            Err(SideFault::Input(InputFault::Device)) => Err(MergeFault::Read(Side::Left)),
            Err(SideFault::Input(InputFault::Endless)) => Err(MergeFault::Endless(Side::Left)),
        }
    }

    /// Reads the next entry of the right, or finds its end. Faults are those of the right.
    pub fn advance_right<R: Input>(&mut self, right: &mut R) -> Result<(), MergeFault>
        requires { IsRightDue self.old }
        ensures on { OnOk result (RightIsOn self.old self.new) }
        ensures kept { KeepsLeft self.old self.new }
        ensures told { TellsRight result (R.state right.old) (R.state right.new) }
        ensures ready { OnOk result (RightReady self.old self.new
            (R.state right.old) (R.state right.new)) }
        ensures halted { IfErr result (λ fault. RightHalts fault self.old self.new
            (R.state right.old) (R.state right.new)) }
    {
        match self.right.advance(right, &self.last) {
            Ok(()) => Ok(()),
            Err(SideFault::Archive(fault)) => Err(MergeFault::Right(fault)),
            Err(SideFault::Input(InputFault::Device)) => Err(MergeFault::Read(Side::Right)),
            Err(SideFault::Input(InputFault::Endless)) => Err(MergeFault::Endless(Side::Right)),
        }
    }

    /// Writes the next entry of the left. It fails if the writer does.
    pub fn write_left<W: Output>(&mut self, writer: &mut W) -> Result<(), MergeFault>
        requires steady { IsSteady self.old }
        requires some { self.old.left.entry.text.items ≢ [] }
        ensures due { OnOk result (IsLeftDue self.new) }
        ensures taken { TakesLeft self.old self.new }
        ensures told { TellsWriter result (W.state writer.old) (W.state writer.new) }
        ensures written { OnOk result (LeftWritten self.old self.new
            (W.state writer.old) (W.state writer.new)) }
        ensures halted { IfErr result (λ fault. LeftWriteHalts fault self.old self.new
            (W.state writer.old) (W.state writer.new)) }
    {
        swap(&mut self.last, &mut self.left.entry);
        self.count += 1;
        match self.held.put(writer, &self.last.text) {
            Ok(()) => Ok(()),
            Err(WriteFault { sent }) => Err(MergeFault::Write { sent }),
        }
    }

    /// Writes the next entry of the right. It fails if the writer does.
    pub fn write_right<W: Output>(&mut self, writer: &mut W) -> Result<(), MergeFault>
        requires steady { IsSteady self.old }
        requires some { self.old.right.entry.text.items ≢ [] }
        ensures due { OnOk result (IsRightDue self.new) }
        ensures taken { TakesRight self.old self.new }
        ensures told { TellsWriter result (W.state writer.old) (W.state writer.new) }
        ensures written { OnOk result (RightWritten self.old self.new
            (W.state writer.old) (W.state writer.new)) }
        ensures halted { IfErr result (λ fault. RightWriteHalts fault self.old self.new
            (W.state writer.old) (W.state writer.new)) }
    {
        swap(&mut self.last, &mut self.right.entry);
        self.count += 1;
        match self.held.put(writer, &self.last.text) {
            Ok(()) => Ok(()),
            Err(WriteFault { sent }) => Err(MergeFault::Write { sent }),
        }
    }
}
