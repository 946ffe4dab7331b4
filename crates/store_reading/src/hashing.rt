//! Digests of segments, and their names.
ghost use Rattle.std.specs.Prelude.{◌≡◌, ◌++◌, ◌∷◌, ◌<◌, ◌^◌, IfErr, IfOk, List, ℕ, OnOk, codes, length};
ghost use Rattle.hex.specs.Hex.{encode_lower};
ghost use Rattle.sha2.specs.Hashers.{Holds256};
ghost use Rattle.sha2.specs.Sha256.{sha256};
ghost use Rattle.syslog_frame.specs.Frames.{framed};
ghost use Rattle.syslog_frame.specs.declared.framing.Framing.TheVariants.{Counted};
ghost use Rattle.store_reading.specs.Damages.{IsOtherDigest, Tells, position};
ghost use Rattle.store_reading.specs.Segments.{IsNamedBy};

use crate::fault::{CheckFault, FileFault};
use crate::period::Period;
use itoa::Buffer;
use sha2::{Digest, Sha256};
use std::alloc::{AllocError, Global};

/// How many octets a SHA-256 has in hexadecimal.
pub const HEX_LEN: usize = 64;

/// Hashes the text of an entry, and gives the number of its octets.
pub fn hash_entry(hasher: &mut Sha256, octets: &[u8]) -> u64
    ensures hashed { (m : List ℕ) → Holds256 hasher.old m
        → Holds256 hasher.new (m ++ framed Counted octets.now) }
    ensures size { result ≡ position (length (framed Counted octets.now)) }
{
    let mut buffer = Buffer::new();
    let count = buffer.format(octets.len()).as_bytes();
    hasher.update(count);
    hasher.update(b" ");
    hasher.update(octets);
    (octets.len() as u64).saturating_add(count.len() as u64 + 1)
}

/// The digest of what was hashed, in lower-case hexadecimal.
pub fn hexadecimal(hasher: Sha256) -> [u8; HEX_LEN]
    ensures { (text : List ℕ) → Holds256 hasher text → result ≡ encode_lower (sha256 text) }
{
    let mut hex = [0; HEX_LEN];
    let _ = hex::encode_to_slice(hasher.finalize(), &mut hex);
    hex
}

/// The name of a segment, `PERIOD.HEX.archive`.
pub fn segment_octets(
    alloc: Global,
    period: &[u8],
    hex: &[u8; HEX_LEN],
) -> Result<Vec<u8>, AllocError>
    ensures { IfOk result (λ v. v.items ≡ period.now ++ 46 ∷ hex.now ++ codes ".archive") }
{
    let mut octets = period.to_vec(alloc)?;
    octets.push(b'.')?;
    octets.extend_from_slice(hex)?;
    octets.extend_from_slice(b".archive")?;
    Ok(octets)
}

/// Whether a name is that of a segment of a period with this digest.
pub fn check_digest(
    alloc: Global,
    name: &[u8],
    period: &Period,
    hex: &[u8; HEX_LEN],
) -> Result<(), CheckFault>
    ensures named { OnOk result (IsNamedBy period.now name.now hex.now) }
    ensures damaged { IfErr result (λ fault. Tells fault (IsOtherDigest period.now name.now hex.now)) }
{
    let named = segment_octets(alloc, period.as_octets(), hex)?;
    if named.as_slice() != name {
        return Err(CheckFault::Damaged(FileFault::Digest));
    }
    Ok(())
}
