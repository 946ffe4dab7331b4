//! Proofs that a record is in an archive, or that it is not, for someone who has no more of the
//! archive than the head of its Merkle tree (RFC 9162, section 2.1).
//!
//! [`Prover`] makes those of many records, each an [`AskedRecord`], as the entries of the archive come
//! once, in its order. [`confirm`] says what a proof shows, of any proof, however it was made, and
//! [`confirm_all`] what a text of proofs shows of the records in their order.
#![tactic(auto)]

mod answering;
mod asked;
mod climb;
mod laws;
mod made;
mod proof;
mod prover;
mod reading;
mod records;
mod search;
mod shown;
mod writing;

pub use answering::confirm_all;
pub use asked::{AskFault, AskedRecord};
pub use laws::proofs_that_are_made_are_confirmed;
pub use proof::{Answer, Neighbour, Proof};
pub use prover::{Prover, ProverFault};
pub use reading::read_proof;
pub use records::{ASKED_MAX, RecordsFault, read_records};
pub use search::{Place, Search};
pub use shown::confirm;
pub use writing::{PROOF_MAX, put_proof};
