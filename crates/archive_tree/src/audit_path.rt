//! Audit paths (RFC 9162, section 2.1.3).

ghost use Rattle.std.specs.Prelude.{◌≡◌, [], ℕ, ◌≤◌, List, length};
ghost use Rattle.archive_tree.specs.Trees.{AllPass, HasTaken, IsFollowed, Passes};
ghost use Rattle.archive_tree.specs.declared.stream.TreeStream.{TreeStream};

use crate::hash::Hash;
use crate::head::TreeHead;
use arrayvec::ArrayVec;

/// The way from an entry to the root of the tree, as far as it has grown.
#[derive(Drop)]
pub struct AuditPath {
    /// How many entries come before the entry.
    pub index: u64,
    /// The hashes beside the way, that beside the entry first.
    pub hashes: ArrayVec<Hash, 64>,
}

impl AuditPath {
    /// The path of the entry that comes behind so many others, before it comes.
    pub fn new(index: u64) -> AuditPath
        ensures index { result.index ≡ index }
        ensures empty { result.hashes.items ≡ [] }
        ensures begins { (t : TreeStream) (xs : List (List ℕ)) → HasTaken t xs → length xs ≤ index
            → IsFollowed t index result xs }
    {
        AuditPath {
            index,
            hashes: ArrayVec::new(),
        }
    }

    // Goes on above two trees, which end with the entry before `end`, if the entry is in one of them.
    fn pass(&mut self, end: u64, left: &TreeHead, right: &TreeHead)
        ensures { Passes end left.now right.now self.old self.new }
    {
        if self.index >= end {
            return;
        }
        let to_end = end - self.index;
        if to_end <= right.size {
            let _ = self.hashes.try_push(left.hash);
        } else if to_end - right.size <= left.size {
            let _ = self.hashes.try_push(right.hash);
        }
    }
}

/// Each path goes on above two trees, which end with the entry before `end`.
pub(crate) fn pass_all(paths: &mut [AuditPath], end: u64, left: &TreeHead, right: &TreeHead)
    ensures { AllPass end left.now right.now paths.old paths.new }
{
    for path in paths.iter_mut() {
        path.pass(end, left, right);
    }
}
