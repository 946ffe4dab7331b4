//! Archives of the old form, in which the elements of a record stand in the order of its octets,
//! brought into the form in which they stand by id.
//!
//! [`migrate_into`] reads such an old archive and adds its records to a store, whose text is then
//! the new archive.
#![tactic(auto)]

mod law;
mod migrating;
mod old_entry;
mod text;

pub use archive_vec::ReadFault;
pub use law::{
    migrated_octets_are_as_many, migrating_a_union_is_the_union, old_texts_give_the_migrated_set,
    records_have_one_new_form, sets_by_id_are_migrated_already,
};
pub use migrating::migrate_into;
pub use old_entry::{OldEntry, old_entry_of_octets, read_old_entry};
pub use text::migrate;
