//! Archives: finite sets of records, each as one text. Two archives of equal sets are equal octets,
//! and merging is set union.
//!
//! A [`Store`] is a set of records: [`VecArchive`] keeps its entries in one vector,
//! [`PagedArchive`] in pages for millions of records. [`merge_streams`] joins two archives as they
//! are read, with room for three entries; [`join_streams`] joins many, by what is [`Kept`] of a
//! record that some have and others lack; [`select_stream`] selects from one, and [`digest_stream`]
//! digests its periods. [`merging_is_union`] and its fellows are the laws.
#![tactic(auto)]

pub use archive_digest::{
    DigestFault, Period, digest_stream, digest_stream_with_roots, digests_are_one,
};
pub use archive_join::{
    Common, Diff, JoinFault, Kept, Minus, Union, archives_of_ranges_are_concatenated,
    common_and_minus_part_an_archive, equal_archives_do_not_differ, join_streams,
    kept_entries_are_archives, kept_texts_begin_alike, selecting_distributes_over_common_and_minus,
    union_is_that_of_all_sets, union_of_two_is_what_merging_gives,
};
pub use archive_laws::{
    archive_or_fault, archives_have_no_fault, entry_order_is_total, larger_limits_keep_archives,
    larger_limits_keep_faults, merging_is_associative, merging_is_commutative,
    merging_is_idempotent, merging_is_union, one_set_has_one_text, one_text_has_one_set,
    records_have_canonical_octets, same_records_have_one_text, sets_that_fit_have_a_text,
    texts_have_one_fault,
};
pub use archive_migration::{migrate, migrate_into};
pub use archive_pages::PagedArchive;
pub use archive_sets::{
    AsSevereAs, Both, Condition, Conditions, FieldTest, HasElement, HasWord, InRange, OfFacility,
    OnlyUndated, SelectFault, Times, WordField, select_stream,
    selecting_by_both_is_selecting_by_each, selecting_distributes_over_union,
    selecting_is_idempotent, selections_are_archives, selections_of_one_text_begin_alike,
};
pub use archive_streams::{
    ArchiveEntries, ENTRIES_READ_MAX, EntriesFault, InputFault, MergeFault, Side, merge_streams,
};
pub use archive_text::{
    AddFault, Added, ArchiveFault, ENTRY_MAX, EntryFault, EntryView, Store, entry_of_octets,
    put_entry, read_entry,
};
pub use archive_vec::{ReadFault, VecArchive, merge};
