//! What the commands on proofs do: [`root_archive`] prints the head of an archive's Merkle tree,
//! [`prove_archive`] proves that records are in an archive, or that they are not, and
//! [`confirm_proofs`] says what such proofs show to someone who has the head alone.
#![tactic(auto)]

mod asking;
mod bounded;
mod confirm;
mod line;
mod prove;
mod proving;
mod reading;
mod root;
mod rooting;

pub use asking::RECORDS_MAX;
pub use confirm::confirm_proofs;
pub use prove::prove_archive;
pub use root::root_archive;
pub use rooting::root_of;
