//! The Merkle tree hash of entries that come one by one, and their audit paths.

ghost use Rattle.std.specs.Prelude.{◌≡◌, [], ◌∷◌, ◌++◌, ℕ, ◌+◌, ◌^◌, ◌<◌, ◌≤◌, List, MatchOption, length, reverse};
ghost use Rattle.archive_tree.specs.Tree.{audit_path};
ghost use Rattle.archive_tree.specs.Trees.{AtOnePlace, HasTaken, IsAny, IsCarried, IsFolded, IsFollowed, IsHeadOf};
ghost use Rattle.archive_tree.specs.Trees.{IsNotLarger, IsPathIn, IsSmaller};
ghost use Rattle.archive_tree.specs.declared.audit_path.AuditPath.{AuditPath};

use crate::audit_path::{AuditPath, pass_all};
use crate::hash::hash_nothing;
use crate::head::TreeHead;
use arrayvec::ArrayVec;

/// A tree under way. There is room for all that may come: below 2^64 entries, 64 heads are enough.
#[derive(Drop)]
pub struct TreeStream {
    /// How many entries came.
    pub count: u64,
    /// The heads of perfect trees of these entries, the largest and first one first.
    pub heads: ArrayVec<TreeHead, 64>,
}

// Takes the last head away, if it has at most so many entries.
fn pop_not_larger(heads: &mut ArrayVec<TreeHead, 64>, size: u64) -> Option<TreeHead>
    ensures { MatchOption result
        ((heads.new.items ≡ heads.old.items) × IsSmaller size (reverse heads.old.items))
        (λ last. (heads.old.items ≡ heads.new.items ++ last ∷ []) × (last.size ≤ size)) }
{
    match heads.as_slice().last() {
        Some(last) if last.size <= size => heads.pop(),
        _ => None,
    }
}

// Joins a tree with those of its size that end where it begins. It ends with the entry before `end`.
fn carry(
    heads: &mut ArrayVec<TreeHead, 64>,
    tree: TreeHead,
    end: u64,
    paths: &mut [AuditPath],
) -> TreeHead
    ensures taken { (xs : List (List ℕ)) → length xs < 2 ^ 64 → end ≡ length xs
        → IsCarried IsAny (reverse heads.old.items) tree xs
        → IsNotLarger tree.size (reverse heads.old.items)
        → IsCarried IsAny (reverse heads.new.items) result xs
        × IsSmaller result.size (reverse heads.new.items) }
    ensures followed { (p q : AuditPath) (xs : List (List ℕ)) → AtOnePlace paths.old paths.new p q
        → length xs < 2 ^ 64 → end ≡ length xs
        → IsCarried (IsPathIn p) (reverse heads.old.items) tree xs
        → IsNotLarger tree.size (reverse heads.old.items)
        → (q.index ≡ p.index) × (length xs ≤ p.index → q.hashes.items ≡ p.hashes.items)
        × IsCarried (IsPathIn q) (reverse heads.new.items) result xs
        × IsSmaller result.size (reverse heads.new.items) }
{
    let Some(last) = pop_not_larger(heads, tree.size) else {
        return tree;
    };
    pass_all(paths, end, &last, &tree);
    let above = TreeHead::above(&last, &tree);
    carry(heads, above, end, paths)
}

// Joins a tree with all that come before it. It ends with the entry before `end`.
fn fold(
    heads: &mut ArrayVec<TreeHead, 64>,
    tree: TreeHead,
    end: u64,
    paths: &mut [AuditPath],
) -> TreeHead
    ensures taken { (xs : List (List ℕ)) → length xs < 2 ^ 64 → end ≡ length xs
        → IsFolded IsAny (reverse heads.old.items) tree xs → IsHeadOf result xs }
    ensures followed { (p q : AuditPath) (xs : List (List ℕ)) → AtOnePlace paths.old paths.new p q
        → length xs < 2 ^ 64 → end ≡ length xs
        → IsFolded (IsPathIn p) (reverse heads.old.items) tree xs
        → (q.index ≡ p.index) × IsPathIn q 0 xs }
{
    let Some(last) = heads.pop() else {
        return tree;
    };
    pass_all(paths, end, &last, &tree);
    let above = TreeHead::above(&last, &tree);
    fold(heads, above, end, paths)
}

impl TreeStream {
    /// A tree of no entries.
    pub fn new() -> TreeStream
        ensures { HasTaken result [] }
    {
        TreeStream {
            count: 0,
            heads: ArrayVec::new(),
        }
    }

    /// Adds an entry behind the others, and goes on with each of the paths.
    pub fn push(&mut self, octets: &[u8], paths: &mut [AuditPath])
        ensures taken { (xs : List (List ℕ)) → length xs + 1 < 2 ^ 64 → HasTaken self.old xs
            → HasTaken self.new (xs ++ octets.now ∷ []) }
        ensures followed { (index : ℕ) (p q : AuditPath) (xs : List (List ℕ))
            → AtOnePlace paths.old paths.new p q → length xs + 1 < 2 ^ 64
            → IsFollowed self.old index p xs
            → IsFollowed self.new index q (xs ++ octets.now ∷ []) }
    {
        let count = self.count.saturating_add(1);
        let tree = carry(&mut self.heads, TreeHead::of_one(octets), count, paths);
        let _ = self.heads.try_push(tree);
        self.count = count;
    }

    /// The head of the tree of the entries that came. Each of the paths grows up to the root.
    pub fn finish(mut self, paths: &mut [AuditPath]) -> TreeHead
        ensures taken { (xs : List (List ℕ)) → length xs < 2 ^ 64 → HasTaken self xs
            → IsHeadOf result xs }
        ensures followed { (index : ℕ) (p q : AuditPath) (xs : List (List ℕ))
            → AtOnePlace paths.old paths.new p q → length xs < 2 ^ 64
            → IsFollowed self index p xs → index < length xs
            → (q.index ≡ index) × (q.hashes.items ≡ audit_path xs index) }
    {
        match self.heads.pop() {
            None => TreeHead {
                size: 0,
                hash: hash_nothing(),
            },
            Some(last) => fold(&mut self.heads, last, self.count, paths),
        }
    }
}
