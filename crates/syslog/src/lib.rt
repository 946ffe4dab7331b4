//! Syslog: records, frames, archives, collectors and senders, behind one door.
//!
//! - Octets as a record: [`view`] lends its parts, [`decode`] owns them, and a refusal tells the
//!   field and the octet ([`Fault`]). [`canon`] is the one canonical form of a record, and
//!   [`write_canonical_octets`] that of octets.
//! - Octets of a stream as frames, in whatever pieces they come: [`Scanner`].
//! - Records as a set with one text: [`VecArchive`], [`PagedArchive`], [`merge`],
//!   [`merge_streams`]; algebra of sets: [`join_streams`], [`select_stream`], [`digest_stream`];
//!   larger than memory: [`SpilledArchive`]; proofs of what is in one: [`Prover`], [`confirm`].
//! - Many connections and datagrams into one set: [`Collector`].
//! - Records of one origin: [`Sender`].
//! - Legacy packets (RFC 3164): [`LegacyClock`], [`read_legacy`].
//! - The program's commands over any devices: [`run`], [`serve`], [`run_collect`].
//!
//! The crate `examples` has one example of each.
#![tactic(auto)]

// what the program does, over any devices
pub use collect_engine::{
    CollectWords, ListSource, SERVE_TURNS, ServeEnd, Source, Step, TcpSource, Transport, UdpSource,
    run_collect, serve,
};
pub use commands::{Files, MemoryFile, MemoryFiles, run};

// archives
pub use syslog_archive::{
    AddFault, Added, ArchiveEntries, ArchiveFault, AsSevereAs, Both, Condition, Conditions,
    ENTRIES_READ_MAX, ENTRY_MAX, EntriesFault, EntryFault, EntryView, FieldTest, HasElement,
    HasWord, InRange, InputFault, MergeFault, OfFacility, OnlyUndated, PagedArchive, ReadFault,
    SelectFault, Side, Store, Times, VecArchive, WordField, entry_order_is_total, merge,
    merge_streams, merging_is_associative, merging_is_commutative, merging_is_idempotent,
    merging_is_union, migrate, one_set_has_one_text, one_text_has_one_set, read_entry,
    same_records_have_one_text, select_stream,
};

// archives as sets
pub use syslog_archive::{
    Common, Diff, DigestFault, JoinFault, Kept, Minus, Period, Union,
    archives_of_ranges_are_concatenated, common_and_minus_part_an_archive, digest_stream,
    digests_are_one, equal_archives_do_not_differ, join_streams, kept_entries_are_archives,
    selecting_by_both_is_selecting_by_each, selecting_distributes_over_common_and_minus,
    selecting_distributes_over_union, selecting_is_idempotent, selections_are_archives,
    union_is_that_of_all_sets, union_of_two_is_what_merging_gives,
};

// archives that are larger than memory
pub use archive_spill::{
    FolderSpill, MemorySpill, Spill, SpillCall, SpillFault, SpilledArchive, Uninterrupted,
};

// the Merkle tree of an archive, and proofs of what is in it
pub use archive_proof::{
    AskFault, AskedRecord, Proof, Prover, ProverFault, RecordsFault, confirm, confirm_all,
    proofs_that_are_made_are_confirmed, put_proof, read_proof, read_records,
};
pub use archive_tree::{TreeHead, TreeStream};

// collectors and senders
pub use syslog_collect::{
    Advance, CONNECTIONS_LIMIT, CONNECTIONS_MAX, CollectFault, Collector, Event, Outcome, RunEnd,
    SendFault, Sender, frames_have_one_reading, merged_archives, received_records, same_archives,
};

// frames
pub use syslog_frame::{
    COUNT_MAX, EndFault, FRAME_MAX, Framing, GrowFault, GrowingScanner, MsgLen, POSITION_MAX,
    PiecesFault, PutFault, Ready, ScanFault, Scanner, StartFault, frames_of_pieces, msg_len,
    put_frame, trimmed,
};

// records, and legacy packets
pub use syslog_grammar::{
    DecodeFault, ElementView, Fault, Field, ParamView, RecordView, canon, canonical_is_injective,
    canonical_timestamp, decode, fault_of, is_canon, is_canon_unsorted, octets_are_one_record,
    octets_have_one_fault, same_value, utf8, view, view_and_form, write_canonical_octets,
    write_canonical_view,
};
pub use syslog_legacy::{
    Dialect, FrameReading, LegacyClock, LegacyFault, LegacyView, has_new_form, legacy_view,
    packets_have_one_answer, read_legacy,
};

// records as JSON
pub use record_json::{
    a_line_has_one_line_feed, a_line_is_its_object, lines_are_injective, put_json_line,
};

// values
pub use syslog_value::{
    Civil, DeviceFault, Element, Facility, FromRead, Fuse, Input, Instant, Mask, Message, Output,
    Param, Priority, PushFault, READ_MAX, READER_CALLS, Record, SdName, Severity, StructuredData,
    TimeFault, ToWrite, Word, WordFault, WriteFault,
};
