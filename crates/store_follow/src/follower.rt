//! A follower of a store's journals.

ghost use Rattle.std.specs.Prelude.{◌≡◌, ◌<◌, IfErr, IfOk, IfSome, None};
ghost use Rattle.disk.specs.Calls.{IsUnchanged};
ghost use Rattle.journal.specs.Journals.{IsSound};
ghost use Rattle.store_follow.specs.Looks.{ComesTo, Fails, IsBeginning, IsBehindAll, IsToldAs, IsTurn};
ghost use Rattle.store_follow.specs.Looks.{Looks, place_of};

use crate::fault::{BatchFault, FollowFault};
use crate::following::{end_of, follow_batches};
use crate::listing::{are_all_below, first, last, later, list};
use crate::names::name_of_journal;
use crate::place::Place;
use crate::reading::is_shorter;
use disk::{Disk, DiskFault};
use octet_devices::Output;
use std::alloc::Global;

/// What a look has come to.
#[derive(Clone, Copy, Debug, PartialEq, Eq)]
pub struct Looked {
    /// Whether there is more to be read at once. If not, all that the journals hold has been read.
    pub more: bool,
}

/// A follower of the journals of a store, behind a batch of one of them. It reads that journal until it
/// has another one after it, and then this.
#[derive(Clone, Copy, Debug, PartialEq, Eq)]
pub struct Follower {
    // none: the journal with the least number comes first
    pub(crate) place: Option<Place>,
}

// The place behind what was read: the same, or the start of the next journal if no batch is left and a
// later journal was listed before. Whether there is more to be read.
fn turned(place: Place, ended: bool, later: Option<u64>) -> (Place, bool)
    requires { IfSome later (λ n. place.number < n) }
    ensures { IsTurn place ended later result.0 result.1 }
{
    if !ended {
        return (place, true);
    }
    match later {
        Some(_) => (Place::start_of(place.number + 1), true),
        None => (place, false),
    }
}

// The fault that is told of a journal.
fn fault_at(place: &Place, fault: BatchFault) -> FollowFault
    ensures { IsToldAs place.now fault result }
{
    match fault {
        BatchFault::Disk(DiskFault::Memory) => FollowFault::Memory,
        BatchFault::Disk(fault) => FollowFault::Read {
            number: place.number,
            fault,
        },
        BatchFault::Damaged => FollowFault::Damaged {
            number: place.number,
            at: place.at,
        },
        BatchFault::Write => FollowFault::Write,
    }
}

impl Follower {
    /// A follower that begins with all that the journals hold.
    pub fn from_start() -> Follower
        ensures { place_of result ≡ None }
    {
        Follower { place: None }
    }

    /// A follower that passes over what the journals hold now. It changes nothing.
    ///
    /// # Errors
    /// `Names` or `Read` with the disk's fault, `Damaged` where a batch of the newest journal is cut
    /// short, or `Memory`.
    pub fn from_now<D: Disk>(alloc: Global, disk: &mut D) -> Result<Follower, FollowFault>
        ensures behind { IfOk result (λ follower. D.tells disk.new → IsSound (D.state disk.old)
            → IsBehindAll (D.state disk.old) (place_of follower)) }
        ensures same { D.tells disk.new → IsUnchanged (D.state disk.old) (D.state disk.new) }
        ensures told { D.tells disk.new → D.tells disk.old }
    {
        let numbers = list(alloc, disk)?;
        let Some(number) = last(&numbers) else {
            return Ok(Follower { place: None });
        };
        let name = name_of_journal(alloc, number)?;
        let mut place = Place::start_of(number);
        match end_of(alloc, disk, &name) {
            Ok(end) => place.at = end,
            Err(fault) => return Err(fault_at(&place, fault)),
        }
        Ok(Follower { place: Some(place) })
    }

    // Where the next look begins, if there is a journal.
    fn begins_at(&self, numbers: &[u64]) -> Option<Place>
        ensures { IsBeginning (place_of self.now) numbers.now result }
    {
        match self.place {
            Some(place) => Some(place),
            None => match first(numbers) {
                Some(number) => Some(Place::start_of(number)),
                None => None,
            },
        }
    }

    // What a look comes to that is at a place of a journal. One that is gone is told as a gap if a later one
    // was listed, and the follower goes on with that; if none was, a later look shows one.
    fn came_to(
        &mut self,
        place: Place,
        read: Result<bool, BatchFault>,
        later: Option<u64>,
    ) -> Result<Looked, FollowFault>
        requires { IfSome later (λ n. place.number < n) }
        ensures { ComesTo place read later (place_of self.new) result }
    {
        self.place = Some(place);
        match read {
            Ok(ended) => {
                let (next, more) = turned(place, ended, later);
                self.place = Some(next);
                Ok(Looked { more })
            }
            Err(BatchFault::Disk(DiskFault::Missing)) => match later {
                None => Ok(Looked { more: false }),
                Some(number) => {
                    self.place = Some(Place::start_of(number));
                    Err(FollowFault::Gap {
                        number: place.number,
                    })
                }
            },
            Err(fault) => Err(fault_at(&place, fault)),
        }
    }

    // Goes back to before all journals, since that of the place is another one or gone. The fault that tells it.
    fn begins_anew(&mut self, number: u64) -> FollowFault
        ensures place { place_of self.new ≡ None }
        ensures fault { result ≡ FollowFault.Replaced number }
    {
        self.place = None;
        FollowFault::Replaced { number }
    }

    /// Looks at the journals, and writes the entries of the batches that were committed since the last
    /// look, in their order: at most `BATCHES_MAX` of them, and none behind `OCTETS_MAX` octets, and only
    /// those of one journal. It changes nothing in the folder. The names are listed first: a journal before
    /// another one that is there then has had its last batch.
    ///
    /// # Errors
    /// `Names` or `Read` with the disk's fault, `Damaged`, `Gap`, `Replaced`, `Write` or `Memory`. What was written
    /// then are the entries of whole batches; the follower is behind them, and the next look goes on there.
    /// Only at `Write` a part of the next batch's entries may have been written too, which the next look
    /// writes again, all of them. At `Gap` the follower is at the start of the first later journal.
    /// At `Replaced`, which comes where the journal of the place is shorter than that, or gone while earlier ones
    /// are there and no later one, nothing was written, and the next look begins with the first journal.
    pub fn look<D: Disk, W: Output>(
        &mut self,
        alloc: Global,
        disk: &mut D,
        output: &mut W,
    ) -> Result<Looked, FollowFault>
        ensures looked { IfOk result (λ looked. D.tells disk.new → IsSound (D.state disk.old)
            → Looks (D.state disk.old) (place_of self.old) (place_of self.new)
            (W.state output.old).taken (W.state output.new).taken looked.more) }
        ensures stopped { IfErr result (λ fault. D.tells disk.new → IsSound (D.state disk.old)
            → Fails fault (D.state disk.old) (place_of self.old) (place_of self.new)
            (W.state output.old).taken (W.state output.new).taken) }
        ensures same { D.tells disk.new → IsUnchanged (D.state disk.old) (D.state disk.new) }
        ensures told { D.tells disk.new → D.tells disk.old }
    {
        let numbers = list(alloc, disk)?;
        let Some(mut place) = self.begins_at(&numbers) else {
            return Ok(Looked { more: false });
        };
        let name = name_of_journal(alloc, place.number)?;
        self.place = Some(place);
        match is_shorter(alloc, disk, &name, place.at) {
            Ok(false) => {}
            Ok(true) => return Err(self.begins_anew(place.number)),
            Err(fault) => return Err(fault_at(&place, BatchFault::Disk(fault))),
        }
        let read = follow_batches(alloc, disk, output, &name, &mut place);
        let later = later(&numbers, place.number);
        let looked = self.came_to(place, read, later)?;
        if !looked.more && are_all_below(&numbers, place.number) {
            return Err(self.begins_anew(place.number));
        }
        Ok(looked)
    }
}
