//! Which journals a folder has.
ghost use Rattle.std.specs.Prelude.{◌≡◌, ◌<◌, ◌≤◌, ◌-◌, ◌^◌, [], Contains, IfErr, IfNone, IfOk, IfSome, ℕ};
ghost use Rattle.std.specs.Prelude.{◌⊎◌, false, true};
ghost use Rattle.std.specs.List.Sorted.{IsStrictlyIncreasing};
ghost use Rattle.disk.specs.Calls.{IsUnchanged};
ghost use Rattle.journal.specs.Journals.{IsSound};
ghost use Rattle.record_store.specs.Shown.{AreShown};
ghost use Rattle.store_follow.specs.Looks.{IsFirst, IsListingFault};

use crate::fault::FollowFault;
use disk::{Disk, DiskFault};
use record_store::{StoreFault, journals};
use std::alloc::Global;

/// The numbers, ascending, of the journals that a read shows.
pub(crate) fn list<D: Disk>(alloc: Global, disk: &mut D) -> Result<Vec<u64>, FollowFault>
    ensures shown { IfOk result (λ numbers. D.tells disk.new → IsSound (D.state disk.old)
        → AreShown (D.state disk.old) (2 ^ 64 - 1) numbers.items) }
    ensures same { D.tells disk.new → IsUnchanged (D.state disk.old) (D.state disk.new) }
    ensures told { D.tells disk.new → D.tells disk.old }
    ensures fault { IfErr result IsListingFault }
{
    match journals(alloc, disk, u64::MAX) {
        Ok(numbers) => Ok(numbers),
        Err(StoreFault::Memory) => Err(FollowFault::Memory),
        Err(
            StoreFault::Folder {
                fault: DiskFault::Memory,
            },
        ) => Err(FollowFault::Memory),
        Err(StoreFault::Folder { fault }) => Err(FollowFault::Names { fault }),
        Err(_) => Err(FollowFault::Names {
            fault: DiskFault::Failed,
        }),
    }
}

/// The least of the numbers.
pub(crate) fn first(numbers: &[u64]) -> Option<u64>
    ensures { IsFirst numbers.now result }
{
    numbers.first().copied()
}

/// The greatest of the numbers.
pub(crate) fn last(numbers: &[u64]) -> Option<u64>
    ensures some { IfSome result (λ n. Contains numbers.now n) }
    ensures greatest { IfSome result (λ n. IsStrictlyIncreasing numbers.now
        → (m : ℕ) → Contains numbers.now m → m ≤ n) }
    ensures none { IfNone result (numbers.now ≡ []) }
{
    numbers.last().copied()
}

/// The first of the numbers that is above one, if some is.
pub(crate) fn later(numbers: &[u64], number: u64) -> Option<u64>
    ensures some { IfSome result (λ n. Contains numbers.now n × (number < n)) }
    ensures none { IfNone result ((n : ℕ) → Contains numbers.now n → n ≤ number) }
{
    for n in numbers {
        if *n > number {
            return Some(*n);
        }
    }
    None
}

/// Whether there are numbers, and all of them are below one.
pub(crate) fn are_all_below(numbers: &[u64], number: u64) -> bool
    ensures below { result ≡ true → IsStrictlyIncreasing numbers.now → (m : ℕ) → Contains numbers.now m → m < number }
    ensures some { result ≡ true → (n : ℕ) × Contains numbers.now n }
    ensures small { result ≡ true → number < 2 ^ 64 }
    ensures otherwise { result ≡ false → (numbers.now ≡ [])
        ⊎ ((m : ℕ) × Contains numbers.now m × (number ≤ m)) }
{
    let Some(newest) = last(numbers) else {
        return false;
    };
    if newest >= number {
        return false;
    }
    true
}
