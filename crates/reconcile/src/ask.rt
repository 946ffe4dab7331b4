//! The site that asks.

ghost use Rattle.std.specs.Prelude.{◌≡◌, ◌+◌, ◌*◌, ◌≤◌, ◌<◌, List, OnOk, length};
ghost use Rattle.std.specs.List.{AllByRecursion};
ghost use Rattle.archive_text.specs.Entries.{Entry};
ghost use Rattle.archive_text.specs.Text.{IsArchive};
ghost use Rattle.archive_text.specs.declared.limits.TheConstants.{ENTRY_MAX};
ghost use Rattle.reconcile.specs.Honest.{Answers};
ghost use Rattle.reconcile.specs.Ranges.{AreAllProper, AreWithin, Covers, IsInside, IsProper, IsTold};
ghost use Rattle.reconcile.specs.Reconciling.{Goes, Going, Reconciled, Settles};
ghost use Rattle.reconcile.specs.Requests.{Did, Refined, Sends, allowance, joined};
ghost use Rattle.reconcile.specs.Unions.{Joins};
ghost use Rattle.reconcile.specs.declared.range.Range.{Range as the_range};
ghost use Rattle.reconcile.specs.declared.part.Part.{Part as the_part};

use crate::checking::{are_covered, are_cuts, is_chain, push_all};
use crate::part::Part;
use crate::peer::Peer;
use crate::plan::Plan;
use crate::range::Range;
use crate::ranged_set::RangedSet;
use crate::records::Records;
use crate::sorting::sort_parts;
use crate::stopped::Stopped;
use std::alloc::Global;

// Hands over what the peer lacks, if that is something.
fn hand_over<P: Peer>(peer: &mut P, missing: &Records) -> Result<(), Stopped>
    ensures sends { Sends 1 (P.seen peer.old) (P.seen peer.new) result }
    ensures honest { P.is_honest peer.old → P.is_honest peer.new
        × Joins (P.held peer.old) missing.now (P.held peer.new) result
        × Answers (λ _. Unit {0}) result }
{
    if missing.len() == 0 {
        return Ok(());
    }
    peer.put(missing)
}

// Makes both sets have what either has in the ranges of some parts.
fn settle<S: RangedSet, P: Peer>(own: &mut S, peer: &mut P, parts: &[Part]) -> Result<(), Stopped>
    ensures did { Did (Covers parts.now) (S.entries own.old) (S.entries own.new) (P.seen peer.old)
        (P.seen peer.new) result }
    ensures sends { Sends 2 (P.seen peer.old) (P.seen peer.new) result }
    ensures few { (P.seen peer.new).requests
        ≤ (P.seen peer.old).requests + (length parts.now + length parts.now) }
    ensures honest { P.is_honest peer.old → P.is_honest peer.new
        × Settles (Covers parts.now) (S.entries own.old) (P.held peer.old) (S.entries own.new)
        (P.held peer.new) result }
{
    if parts.is_empty() {
        return Ok(());
    }
    let got = peer.get(parts)?;
    if !are_covered(got.entries(), parts) {
        return Err(Stopped::Lied);
    }
    let missing = own.lacking(parts, &got)?;
    own.add(&got)?;
    hand_over(peer, &missing)
}

// Asks for finer parts of some parts.
fn refine<P: Peer>(
    peer: &mut P,
    pending: &mut Vec<Part>,
    parts: &[Part],
    most: u64,
) -> Result<(), Stopped>
    ensures sends { Sends 1 (P.seen peer.old) (P.seen peer.new) result }
    ensures few { (P.seen peer.new).requests ≤ (P.seen peer.old).requests + length parts.now }
    ensures finer { OnOk result (Refined parts.now pending.old.items pending.new.items) }
    ensures honest { P.is_honest peer.old → AreAllProper parts.now
        → AllByRecursion (IsTold (P.held peer.old)) parts.now
        → AllByRecursion (λ (p : the_part). 2 ≤ p.sum.records) parts.now
        → P.is_honest peer.new × (P.held peer.new ≡ P.held peer.old)
        × Answers (λ _. (f : Refined parts.now pending.old.items pending.new.items)
        × AllByRecursion (IsTold (P.held peer.old)) (joined f.cuts)) result }
{
    if parts.is_empty() {
        return Ok(());
    }
    let cuts = peer.split(parts, most)?;
    if !are_cuts(parts, cuts.as_slice()) {
        return Err(Stopped::Lied);
    }
    push_all(pending, cuts)?;
    Ok(())
}

// Does what some of the pending parts need.
fn turn<S: RangedSet, P: Peer>(
    alloc: Global,
    own: &mut S,
    peer: &mut P,
    pending: &mut Vec<Part>,
    plan: Plan,
) -> Result<(), Stopped>
    ensures did { (r : the_range) → AreWithin r pending.old.items
        → Did (IsInside r) (S.entries own.old) (S.entries own.new) (P.seen peer.old)
        (P.seen peer.new) result × OnOk result (AreWithin r pending.new.items) }
    ensures sends { Sends 3 (P.seen peer.old) (P.seen peer.new) result }
    ensures costs { OnOk result ((P.seen peer.new).requests + allowance pending.new.items
        ≤ (P.seen peer.old).requests + allowance pending.old.items) }
    ensures most { (P.seen peer.new).requests
        ≤ (P.seen peer.old).requests + allowance pending.old.items }
    ensures honest { (r : the_range) (a b : List Entry) → IsArchive ENTRY_MAX a
        → IsArchive ENTRY_MAX b → P.is_honest peer.old
        → Going r a b (S.entries own.old) (P.held peer.old) pending.old.items
        → P.is_honest peer.new
        × Goes r a b (S.entries own.new) (P.held peer.new) pending.new.items result }
{
    let sorted = sort_parts(alloc, own, pending, plan)?;
    settle(own, peer, sorted.small.as_slice())?;
    refine(peer, pending, sorted.large.as_slice(), plan.most)
}

/// Makes both sites hold, in a range, what either holds there. The peer is asked for the parts of
/// the range. Where the own set has the same sum there is nothing to do; parts of few records are
/// got whole, and what the peer lacks there is put; of all others finer parts are asked for, many
/// at once.
///
/// # Errors
/// The first fault that is met. What came before it stays.
pub fn reconcile<S: RangedSet, P: Peer>(
    alloc: Global,
    own: &mut S,
    peer: &mut P,
    range: &Range,
    plan: Plan,
) -> Result<(), Stopped>
    // whatever the peer is
    ensures did { Did (IsInside range.now) (S.entries own.old) (S.entries own.new) (P.seen peer.old)
        (P.seen peer.new) result }

    ensures sends { Sends (3 * plan.turns + 1) (P.seen peer.old) (P.seen peer.new) result }

    // where it is honest
    ensures honest { IsProper range.now → P.is_honest peer.old
        → Reconciled range.now (S.entries own.old) (P.held peer.old) (S.entries own.new)
        (P.held peer.new) (P.seen peer.old) (P.seen peer.new) result }
{
    let mut pending = peer.parts(range, plan.most)?;
    if !is_chain(Some(&range.low), range.high.as_ref(), pending.as_slice()) {
        return Err(Stopped::Lied);
    }
    'turns: for _ in 0..plan.turns {
        if pending.is_empty() {
            return Ok(());
        }
        turn(alloc, own, peer, &mut pending, plan)?;
    }
    Err(Stopped::TooMany)
}
