//! Sets of syslog records, each kept as an archive that may be larger than memory: what is chosen
//! of one as it is read from a device.
//!
//! [`select_stream`] writes the archive of the records that meet a [`Condition`].
#![tactic(auto)]

mod condition;
mod conditions;
mod copying;
mod element;
mod fault;
mod field_test;
mod fields;
mod laws;
mod range;
mod select;
mod selection;
mod word_field;

pub use condition::{Both, Condition, OnlyUndated};
pub use conditions::{Conditions, Times};
pub use element::HasElement;
pub use fault::SelectFault;
pub use field_test::FieldTest;
pub use fields::{AsSevereAs, HasWord, OfFacility};
pub use laws::{
    selecting_by_both_is_selecting_by_each, selecting_distributes_over_union,
    selecting_is_idempotent, selections_are_archives, selections_of_one_text_begin_alike,
};
pub use range::InRange;
pub use select::select_stream;
pub use word_field::WordField;
