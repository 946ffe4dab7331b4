//! A peer in this very process.

ghost use Rattle.std.specs.Prelude.{◌≡◌, Ok, Err, OnErr, IfOk};
ghost use Rattle.reconcile.specs.Honest.{ArePartsOf};
ghost use Rattle.reconcile.specs.Ranges.{AreAllProper};
ghost use Rattle.reconcile.specs.Requests.{lists_of};
ghost use Rattle.reconcile.specs.declared.stopped.Stopped.TheVariants.{Broken};

use crate::part::Part;
use crate::peer::Peer;
use crate::range::Range;
use crate::ranged_set::RangedSet;
use crate::records::Records;
use crate::stopped::{SetFault, Stopped};
use std::alloc::Global;

/// A peer that answers from a set in this very process.
#[derive(Drop)]
pub struct LocalPeer<S> {
    alloc: Global,
    set: S,
    requests: u64,
    put: u64,
    kept: u64,
}

impl<S> LocalPeer<S> {
    /// A peer over a set.
    pub fn new(alloc: Global, set: S) -> LocalPeer<S>
        ensures { result.set ≡ set }
    {
        LocalPeer {
            alloc,
            set,
            requests: 0,
            put: 0,
            kept: 0,
        }
    }

    /// The set.
    pub fn into_set(self) -> S
        ensures { result ≡ self.set }
    {
        self.set
    }
}

// What a set did not answer ends the connection.
fn answered<A>(answer: Result<A, SetFault>) -> Result<A, Stopped>
    ensures ok { IfOk answer (λ a. result ≡ Ok a) }
    ensures err { OnErr answer (result ≡ Err Broken) }
{
    match answer {
        Ok(answer) => Ok(answer),
        Err(_) => Err(Stopped::Broken),
    }
}

// The parts of each of some ranges.
fn cuts_of<S: RangedSet>(
    alloc: Global,
    set: &mut S,
    parts: &[Part],
    most: u64,
) -> Result<Vec<Vec<Part>>, SetFault>
    ensures kept { S.entries set.new ≡ S.entries set.old }
    ensures cuts { IfOk result (λ cuts. AreAllProper parts.now
        → ArePartsOf (S.entries set.old) parts.now (lists_of cuts.items)) }
{
    let mut cuts = Vec::new(alloc);
    'parts: for part in parts {
        cuts.push(set.parts(&part.range, most)?)?;
    }
    Ok(cuts)
}

impl<S: RangedSet> Peer for LocalPeer<S> {
    ghost held = { λ p. S.entries p.set };

    ghost seen = { λ p. record { requests = p.requests; put = p.put; kept = p.kept } };

    ghost is_honest = { λ _. Unit {0} };

    fn parts(&mut self, range: &Range, most: u64) -> Result<Vec<Part>, Stopped> {
        self.requests = self.requests.saturating_add(1);
        answered(self.set.parts(range, most))
    }

    fn split(&mut self, parts: &[Part], most: u64) -> Result<Vec<Vec<Part>>, Stopped> {
        self.requests = self.requests.saturating_add(1);
        answered(cuts_of(self.alloc, &mut self.set, parts, most))
    }

    fn get(&mut self, parts: &[Part]) -> Result<Records, Stopped> {
        self.requests = self.requests.saturating_add(1);
        answered(self.set.within(parts))
    }

    fn put(&mut self, records: &Records) -> Result<(), Stopped> {
        self.requests = self.requests.saturating_add(1);
        let count = records.len() as u64;
        let (Some(put), Some(kept)) = (self.put.checked_add(count), self.kept.checked_add(count))
        else {
            return Err(Stopped::Broken);
        };
        self.put = put;
        answered(self.set.add(records))?;
        self.kept = kept;
        Ok(())
    }

    ghost archive = { λ p h. S.archive p.set };
}
