//! Many archives, each the text of a set of syslog records and possibly larger than memory, joined
//! in one pass as they are read from devices.
//!
//! [`join_streams`] writes what is [`Kept`] of each entry, depending on who has it: [`Union`],
//! [`Common`] and [`Minus`] write an archive, [`Diff`] lines.
#![tactic(auto)]

mod common;
mod diff;
mod fault;
mod head;
mod heads;
mod join;
mod joining;
mod kept;
mod laws;
mod minus;
mod shown;
mod union;

pub use common::Common;
pub use diff::Diff;
pub use fault::JoinFault;
pub use join::join_streams;
pub use kept::Kept;
pub use laws::{
    archives_of_ranges_are_concatenated, common_and_minus_part_an_archive,
    equal_archives_do_not_differ, kept_entries_are_archives, kept_texts_begin_alike,
    selecting_distributes_over_common_and_minus, union_is_that_of_all_sets,
    union_of_two_is_what_merging_gives,
};
pub use minus::Minus;
pub use union::Union;
