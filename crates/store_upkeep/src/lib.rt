//! A store's folder is kept up: [`verify`] reads all of it and finds what is damaged, [`compact`] joins
//! the segments of each day that has many, and the mixed ones.
#![tactic(auto)]

mod compact_fault;
mod compaction;
mod damage;
mod segments;
mod stream_disk;
mod verification;
mod whole_files;

pub use compact_fault::{CompactFault, check_fault, open_fault, write_fault};
pub use compaction::{SEGMENTS_MAX, compact, join_period};
pub use damage::DamagedFile;
pub use segments::{
    begin as begin_draft, discard as discard_draft, list as list_names, name_of_draft,
    names_of as segments_of, open as open_file, settle as settle_draft,
};
pub use stream_disk::StreamDisk;
pub use verification::verify;
pub use whole_files::WholeFiles;
