//! The definitions are those of RFC 9162. Each function does nothing, and its contract is the law.

ghost use Rattle.std.specs.Prelude.{◌≡◌, [], ◌∷◌, ◌++◌, ℕ, ◌+◌, ◌-◌, ◌^◌, ◌<◌, ◌≤◌, List, length};
ghost use Rattle.sha2.specs.Sha256.{sha256};
ghost use Rattle.archive_tree.specs.Tree.{audit_path, tree_hash};
ghost use Rattle.archive_tree.specs.Trees.{HasTaken};
ghost use Rattle.archive_tree.specs.declared.stream.TreeStream.{TreeStream};

/// Section 2.1.1: the hash of none, of one, and of more, where 2^h is the largest power of two below
/// their number.
pub fn tree_hashes_are_of_the_standard()
    ensures none { tree_hash [] ≡ sha256 [] }
    ensures one { (x : List ℕ) → tree_hash (x ∷ []) ≡ sha256 (0 ∷ x) }
    ensures more { (h : ℕ) (xs ys : List (List ℕ)) → length xs ≡ 2 ^ h → 0 < length ys
        → length ys ≤ 2 ^ h
        → tree_hash (xs ++ ys) ≡ sha256 (1 ∷ tree_hash xs ++ tree_hash ys) }
{}

/// Section 2.1.3.1: the path of one, and of more in the left and in the right part.
pub fn audit_paths_are_of_the_standard()
    ensures one { (x : List ℕ) (i : ℕ) → audit_path (x ∷ []) i ≡ [] }
    ensures left { (h i : ℕ) (xs ys : List (List ℕ)) → length xs ≡ 2 ^ h → 0 < length ys
        → length ys ≤ 2 ^ h → i < length xs
        → audit_path (xs ++ ys) i ≡ audit_path xs i ++ tree_hash ys ∷ [] }
    ensures right { (h i : ℕ) (xs ys : List (List ℕ)) → length xs ≡ 2 ^ h → 0 < length ys
        → length ys ≤ 2 ^ h → length xs ≤ i
        → audit_path (xs ++ ys) i ≡ audit_path ys (i - length xs) ++ tree_hash xs ∷ [] }
{}

/// A stream keeps no more heads than the number of its entries has binary digits, and a path has no
/// more hashes.
pub fn room_is_enough()
    ensures heads { (t : TreeStream) (xs : List (List ℕ)) → HasTaken t xs
        → 2 ^ length t.heads.items ≤ length xs + 1 }
    ensures path { (h i : ℕ) (xs : List (List ℕ)) → length xs ≤ 2 ^ h
        → length (audit_path xs i) ≤ h }
{}
