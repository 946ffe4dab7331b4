//! Entries are counted and hashed.

ghost use Rattle.std.specs.Prelude.{◌≡◌, ◌++◌, ◌∷◌, ◌<◌, ◌^◌, [], ℕ, List, length};
ghost use Rattle.hex.specs.Hex.{encode_lower};
ghost use Rattle.sha2.specs.Hashers.{Holds256};
ghost use Rattle.sha2.specs.Sha256.{sha256};
ghost use Rattle.syslog_frame.specs.Frames.{framed};
ghost use Rattle.syslog_frame.specs.declared.framing.Framing.TheVariants.{Counted};
ghost use Rattle.archive_text.specs.Entries.{Entry};
ghost use Rattle.archive_text.specs.Text.{text_of};
ghost use Rattle.archive_digest.specs.Putting.{root_of};
ghost use Rattle.archive_digest.specs.Sums.{IsSumOf};
ghost use Rattle.archive_digest.specs.declared.roots.Roots.{Roots};

use crate::roots::{Roots, grow, root_so_far};
use archive_tree::TreeStream;
use itoa::Buffer;
use sha2::{Digest, Sha256};

/// How many octets a SHA-256 has in hexadecimal.
pub const HEX_LEN: usize = 64;

/// How many entries there are, how many octets their text has, what was hashed of that, and their
/// Merkle tree, if there are to be roots.
#[derive(Drop)]
pub struct Sum {
    /// How many entries there are.
    pub records: u64,
    /// How many octets their text has.
    pub octets: u64,
    /// The hash of the text so far.
    pub hasher: Sha256,
    /// The tree of the entries so far.
    pub tree: Option<TreeStream>,
}

// Hashes the text of an entry, and answers how many octets that has.
fn hash_entry(hasher: &mut Sha256, octets: &[u8]) -> u64
    ensures hashed { (m : List ℕ) → Holds256 hasher.old m
        → Holds256 hasher.new (m ++ framed Counted octets.now) }
    ensures size { length (framed Counted octets.now) < 2 ^ 64
        → result ≡ length (framed Counted octets.now) }
{
    let mut buffer = Buffer::new();
    let count = buffer.format(octets.len()).as_bytes();
    hasher.update(count);
    hasher.update(b" ");
    hasher.update(octets);
    (octets.len() as u64).saturating_add(count.len() as u64 + 1)
}

impl Sum {
    /// The sum of no entries.
    pub fn new(roots: Roots) -> Sum
        ensures { IsSumOf roots result [] }
    {
        Sum {
            records: 0,
            octets: 0,
            hasher: Sha256::new(),
            tree: roots.new_tree(),
        }
    }

    /// Adds an entry with these octets.
    pub fn add(&mut self, octets: &[u8])
        ensures { (roots : Roots) (es : List Entry) (e : Entry) → e.octets ≡ octets.now
            → length (text_of (es ++ e ∷ [])) < 2 ^ 64 → IsSumOf roots self.old es
            → IsSumOf roots self.new (es ++ e ∷ []) }
    {
        let size = hash_entry(&mut self.hasher, octets);
        self.octets = self.octets.saturating_add(size);
        self.records = self.records.saturating_add(1);
        grow(&mut self.tree, octets);
    }

    /// The SHA-256 of their text, in lower-case hexadecimal.
    pub fn hexadecimal(&self) -> [u8; HEX_LEN]
        ensures { (roots : Roots) (es : List Entry) → IsSumOf roots self.now es
            → result ≡ encode_lower (sha256 (text_of es)) }
    {
        let hasher = self.hasher.clone().unwrap();
        let mut text = [0; HEX_LEN];
        let _ = hex::encode_to_slice(hasher.finalize(), &mut text);
        text
    }

    /// The root of their tree, in lower-case hexadecimal, if there is to be one.
    pub fn root(&self) -> Option<[u8; HEX_LEN]>
        ensures { (roots : Roots) (es : List Entry) → IsSumOf roots self.now es
            → result ≡ root_of roots es }
    {
        let _records = self.records;
        let Some(tree) = &self.tree else {
            return None;
        };
        let mut text = [0; HEX_LEN];
        let _ = hex::encode_to_slice(root_so_far(tree), &mut text);
        Some(text)
    }
}
