//! The Merkle trees of entries, whose roots may end the lines.

ghost use Rattle.std.specs.Prelude.{◌≡◌, ◌++◌, ◌∷◌, ◌+◌, ◌<◌, ◌^◌, [], ℕ, List, length};
ghost use Rattle.archive_text.specs.Entries.{Entry};
ghost use Rattle.archive_tree.specs.Tree.{tree_hash};
ghost use Rattle.archive_tree.specs.Trees.{HasTaken};
ghost use Rattle.archive_digest.specs.Sums.{IsTreeOf};
ghost use Rattle.archive_digest.specs.declared.roots.Roots.{Roots};

use archive_tree::{Hash, TreeStream};
use arrayvec::ArrayVec;

/// Whether a line ends with the root of the entries' Merkle tree.
#[derive(Clone, Copy, Debug, PartialEq, Eq)]
pub enum Roots {
    /// No line has one.
    Without,
    /// Each line does.
    With,
}

impl Roots {
    /// The tree of no entries, if there are to be roots.
    pub fn new_tree(self) -> Option<TreeStream>
        ensures { IsTreeOf self result [] }
    {
        match self {
            Roots::Without => None,
            Roots::With => Some(TreeStream::new()),
        }
    }
}

/// Adds an entry with these octets to the tree, if there is one.
pub fn grow(tree: &mut Option<TreeStream>, octets: &[u8])
    ensures { (roots : Roots) (es : List Entry) (e : Entry) → e.octets ≡ octets.now
        → length es + 1 < 2 ^ 64 → IsTreeOf roots tree.old es
        → IsTreeOf roots tree.new (es ++ e ∷ []) }
{
    if let Some(tree) = tree {
        tree.push(octets, &mut []);
    }
}

/// The root of a tree that may go on growing.
pub fn root_so_far(tree: &TreeStream) -> Hash
    ensures { (xs : List (List ℕ)) → length xs < 2 ^ 64 → HasTaken tree.now xs
        → result ≡ tree_hash xs }
{
    let mut heads = ArrayVec::new();
    let _ = heads.try_extend_from_slice(tree.heads.as_slice());
    let so_far = TreeStream {
        count: tree.count,
        heads,
    };
    so_far.finish(&mut []).hash
}
