//! The own set.

ghost use Rattle.std.specs.Prelude.{◌≡◌, List, IfOk};
ghost use Rattle.archive_text.specs.Entries.{Entry, Has};
ghost use Rattle.archive_text.specs.Text.{IsArchive};
ghost use Rattle.reconcile.specs.Honest.{AreParts};
ghost use Rattle.reconcile.specs.Ranges.{AreThose, Covers, IsProper, IsSumIn};
ghost use Rattle.reconcile.specs.Unions.{Joins};

use crate::part::Part;
use crate::range::Range;
use crate::records::Records;
use crate::stopped::SetFault;
use crate::sum::Sum;

/// A set of records that answers for ranges of the archive's order, and that records are added to.
pub trait RangedSet {
    ghost use Rattle.archive_text.specs.declared.limits.TheConstants.{ENTRY_MAX};

    // the entries of the records that it has, in order
    ghost entries: { Self → List Entry };

    /// What stands for the entries in a range.
    fn sum(&mut self, range: &Range) -> Result<Sum, SetFault>
        ensures kept { entries self.new ≡ entries self.old }
        ensures sum { IfOk result (IsSumIn (entries self.old) range.now) };

    /// The parts of a range: at most `most` (or two, where that is fewer), of about the same count.
    fn parts(&mut self, range: &Range, most: u64) -> Result<Vec<Part>, SetFault>
        ensures kept { entries self.new ≡ entries self.old }
        ensures parts { IfOk result (λ parts. IsProper range.now
            → AreParts (entries self.old) range.now parts.items) };

    /// The entries in the ranges of some parts.
    fn within(&mut self, parts: &[Part]) -> Result<Records, SetFault>
        ensures kept { entries self.new ≡ entries self.old }
        ensures within { IfOk result (AreThose (Covers parts.now) (entries self.old)) };

    /// The entries in the ranges of some parts that are not among those that were got.
    fn lacking(&mut self, parts: &[Part], got: &Records) -> Result<Records, SetFault>
        ensures kept { entries self.new ≡ entries self.old }
        ensures lacking { IfOk result (AreThose (λ x. Covers parts.now x × ¬ (Has got.now x))
            (entries self.old)) };

    /// Adds records. At `Ok` they are there, whatever comes then; after a fault some of them may be.
    fn add(&mut self, records: &Records) -> Result<(), SetFault>
        ensures { Joins (entries self.old) records.now (entries self.new) result };

    // they are an archive
    ghost archive: { (s : Self) → IsArchive ENTRY_MAX (entries s) };
}
