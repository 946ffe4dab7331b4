//! The other site.

ghost use Rattle.std.specs.Prelude.{◌≡◌, List};
ghost use Rattle.archive_text.specs.Entries.{Entry};
ghost use Rattle.archive_text.specs.Text.{IsArchive};
ghost use Rattle.reconcile.specs.Honest.{Answers, AreParts, ArePartsOf};
ghost use Rattle.reconcile.specs.Ranges.{AreAllProper, AreThose, Covers, IsProper};
ghost use Rattle.reconcile.specs.Requests.{Seen, Sends, lists_of};
ghost use Rattle.reconcile.specs.Unions.{Joins};

use crate::part::Part;
use crate::range::Range;
use crate::records::Records;
use crate::stopped::Stopped;

/// The other site. It may be honest, and then it answers as its set is, and changes that by what it
/// is handed alone; else it may answer anything.
pub trait Peer {
    ghost use Rattle.archive_text.specs.declared.limits.TheConstants.{ENTRY_MAX};

    // what an honest one holds
    ghost held: { Self → List Entry };

    // how many requests were sent to it, and what it said of records that were put
    ghost seen: { Self → Seen };

    // it answers as its set is
    ghost is_honest: { Self → Type 0 };

    /// The parts of a range, at most `most` where it chooses them by count.
    fn parts(&mut self, range: &Range, most: u64) -> Result<Vec<Part>, Stopped>
        ensures sends { Sends 1 (seen self.old) (seen self.new) result }
        ensures honest { is_honest self.old → is_honest self.new × (held self.new ≡ held self.old)
            × Answers (λ parts. IsProper range.now → AreParts (held self.old) range.now parts.items)
            result };

    /// Finer parts of each of some parts, at most `most` of each.
    fn split(&mut self, parts: &[Part], most: u64) -> Result<Vec<Vec<Part>>, Stopped>
        ensures sends { Sends 1 (seen self.old) (seen self.new) result }
        ensures honest { is_honest self.old → is_honest self.new × (held self.new ≡ held self.old)
            × Answers (λ cuts. AreAllProper parts.now
            → ArePartsOf (held self.old) parts.now (lists_of cuts.items)) result };

    /// The entries in the ranges of some parts.
    fn get(&mut self, parts: &[Part]) -> Result<Records, Stopped>
        ensures sends { Sends 1 (seen self.old) (seen self.new) result }
        ensures honest { is_honest self.old → is_honest self.new × (held self.new ≡ held self.old)
            × Answers (λ got. AreThose (Covers parts.now) (held self.old) got) result };

    /// Hands records over. At `Ok` they are kept.
    fn put(&mut self, records: &Records) -> Result<(), Stopped>
        ensures sends { Sends 1 (seen self.old) (seen self.new) result }
        ensures honest { is_honest self.old → is_honest self.new
            × Joins (held self.old) records.now (held self.new) result
            × Answers (λ _. Unit {0}) result };

    // an honest peer holds an archive
    ghost archive: { (p : Self) → is_honest p → IsArchive ENTRY_MAX (held p) };
}
