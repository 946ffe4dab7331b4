//! Laws of archives. Each function does nothing, and its contract is the law; only
//! [`archive_or_fault`] reads a text, to find which of the two holds of it.
#![tactic(auto)]

mod faults;
mod merging;
mod order;
mod sets;
mod stores;
mod validation;

pub use faults::{archives_have_no_fault, larger_limits_keep_faults, texts_have_one_fault};
pub use merging::{
    merging_is_associative, merging_is_commutative, merging_is_idempotent, merging_is_union,
};
pub use order::entry_order_is_total;
pub use sets::{
    larger_limits_keep_archives, one_set_has_one_text, one_text_has_one_set,
    records_have_canonical_octets, sets_that_fit_have_a_text,
};
pub use stores::same_records_have_one_text;
pub use validation::archive_or_fault;
