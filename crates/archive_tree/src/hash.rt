//! The hashes of a Merkle tree (RFC 9162, section 2.1.1): SHA-256 (FIPS 180-4).

ghost use Rattle.std.specs.Prelude.{◌≡◌, [], ℕ, length};
ghost use Rattle.sha2.specs.Sha256.{sha256};
ghost use Rattle.archive_tree.specs.Tree.{leaf_hash, node_hash};

use sha2::{Digest, Sha256};

/// A SHA-256 (FIPS 180-4).
pub type Hash = [u8; 32];

/// The hash of a leaf: SHA-256 of an octet 0 and the entry.
pub fn hash_leaf(octets: &[u8]) -> Hash
    ensures { result ≡ leaf_hash octets.now }
{
    let mut hasher = Sha256::new();
    hasher.update(&[0]);
    hasher.update(octets);
    hasher.finalize()
}

/// The hash above two others: SHA-256 of an octet 1 and both.
pub fn hash_node(left: &Hash, right: &Hash) -> Hash
    ensures { result ≡ node_hash left.now right.now }
{
    let mut hasher = Sha256::new();
    hasher.update(&[1]);
    hasher.update(left);
    hasher.update(right);
    hasher.finalize()
}

/// The hash of no entries: SHA-256 of no octets.
pub fn hash_nothing() -> Hash
    ensures { result ≡ sha256 [] }
{
    Sha256::new().finalize()
}
