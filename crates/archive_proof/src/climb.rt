//! The way from an entry to the root.

ghost use Rattle.std.specs.Prelude.{◌≡◌, [], ◌∷◌, ◌++◌, ℕ, ◌^◌, ◌<◌, ◌≤◌, List, MatchOption, MatchResult, reverse};
ghost use Rattle.archive_proof.specs.Climbing.{climb};

use archive_tree::{Hash, hash_node};

fn power(level: u32) -> u64
    requires { level < 64 }
    ensures { result ≡ 2 ^ level }
{
    1 << level
}

// The last of some hashes, and those before it.
fn last_and_rest(path: &[Hash]) -> Option<(&Hash, &[Hash])>
    ensures { MatchOption result (path.now ≡ []) (λ p. path.now ≡ p.1.now ++ p.0.now ∷ []) }
{
    path.split_last()
}

// The root of so many entries, at most 2 ^ level, of which that at the index has this hash.
pub(crate) fn climb_from(
    level: u32,
    count: u64,
    index: u64,
    leaf: &Hash,
    path: &[Hash],
) -> Option<Hash>
    requires { level ≤ 64 }
    ensures { result ≡ climb level count index leaf.now (reverse path.now) }
{
    if level == 0 {
        return match last_and_rest(path) {
            None => Some(*leaf),
            Some(_) => None,
        };
    }
    let half = power(level - 1);
    if count <= half {
        return climb_from(level - 1, count, index, leaf, path);
    }
    let Some((beside, rest)) = last_and_rest(path) else {
        return None;
    };
    if index < half {
        match climb_from(level - 1, half, index, leaf, rest) {
            None => None,
            Some(left) => Some(hash_node(&left, beside)),
        }
    } else {
        match climb_from(level - 1, count - half, index - half, leaf, rest) {
            None => None,
            Some(right) => Some(hash_node(beside, &right)),
        }
    }
}
