//! The Merkle tree of an archive (RFC 9162, section 2.1): its entries, the canonical records, are
//! the leaves, in the archive's order. Its hash stands for all of them, and a few hashes show that
//! an entry is one of them.
//!
//! [`TreeStream`] hashes entries that come one by one, in room for 64 hashes. [`AuditPath`] follows
//! one of them to the root.
#![tactic(auto)]

mod audit_path;
mod hash;
mod head;
mod laws;
mod stream;

pub use audit_path::AuditPath;
pub use hash::{Hash, hash_leaf, hash_node, hash_nothing};
pub use head::TreeHead;
pub use laws::{audit_paths_are_of_the_standard, room_is_enough, tree_hashes_are_of_the_standard};
pub use stream::TreeStream;
