//! What stands for entries is computed.

ghost use Rattle.std.specs.Prelude.{◌≡◌, ◌++◌, List, ℕ, IfOk, IfSome, length};
ghost use Rattle.sha2.specs.Hashers.{Holds256};
ghost use Rattle.syslog_frame.specs.Frames.{framed};
ghost use Rattle.syslog_frame.specs.declared.framing.Framing.TheVariants.{Counted};
ghost use Rattle.reconcile.specs.Ranges.{IsSumOf};

use crate::place::Place;
use crate::stopped::SetFault;
use crate::sum::Sum;
use itoa::Buffer;
use sha2::{Digest, Sha256};

// Hashes the text of an entry with these octets, and answers how many octets that has.
fn hash_entry(hasher: &mut Sha256, octets: &[u8]) -> Option<u64>
    ensures hashed { (m : List ℕ) → Holds256 hasher.old m
        → Holds256 hasher.new (m ++ framed Counted octets.now) }
    ensures size { IfSome result (λ n. n ≡ length (framed Counted octets.now)) }
{
    let mut buffer = Buffer::new();
    let count = buffer.format(octets.len()).as_bytes();
    hasher.update(count);
    hasher.update(b" ");
    hasher.update(octets);
    (octets.len() as u64).checked_add(count.len() as u64 + 1)
}

/// What stands for some entries.
///
/// # Errors
/// The length of their archive has no room in 64 bits.
pub fn sum_of(entries: &[Place]) -> Result<Sum, SetFault>
    ensures { IfOk result (IsSumOf entries.now) }
{
    let mut hasher = Sha256::new();
    let mut octets: u64 = 0;
    'summing: for entry in entries {
        let Some(size) = hash_entry(&mut hasher, entry.view().octets) else {
            return Err(SetFault::Failed);
        };
        octets = match octets.checked_add(size) {
            Some(sum) => sum,
            None => return Err(SetFault::Failed),
        };
    }
    Ok(Sum {
        records: entries.len() as u64,
        octets,
        digest: hasher.finalize(),
    })
}
