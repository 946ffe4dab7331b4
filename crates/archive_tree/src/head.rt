//! The head of a tree: what stands for some entries.

ghost use Rattle.std.specs.Prelude.{◌≡◌, [], ◌∷◌, ◌++◌, ℕ, ◌^◌, ◌<◌, ◌≤◌, List, length};
ghost use Rattle.archive_tree.specs.Trees.{IsHeadOf};

use crate::hash::{Hash, hash_leaf, hash_node};

/// How many entries there are, and their Merkle tree hash (RFC 9162, section 2.1.1).
#[derive(Clone, Copy, Debug, Default, PartialEq, Eq)]
pub struct TreeHead {
    /// How many entries there are.
    pub size: u64,
    /// Their Merkle tree hash.
    pub hash: Hash,
}

impl TreeHead {
    // The head of the tree of one entry.
    pub(crate) fn of_one(octets: &[u8]) -> TreeHead
        ensures { IsHeadOf result (octets.now ∷ []) }
    {
        TreeHead {
            size: 1,
            hash: hash_leaf(octets),
        }
    }

    // The head of the tree above two, the first of which is perfect and has no fewer entries.
    pub(crate) fn above(left: &TreeHead, right: &TreeHead) -> TreeHead
        ensures { (h : ℕ) (ys zs : List (List ℕ)) → length ys ≡ 2 ^ h → 0 < length zs
            → length zs ≤ 2 ^ h → length (ys ++ zs) < 2 ^ 64 → IsHeadOf left.now ys
            → IsHeadOf right.now zs → IsHeadOf result (ys ++ zs) }
    {
        TreeHead {
            size: left.size.saturating_add(right.size),
            hash: hash_node(&left.hash, &right.hash),
        }
    }
}
