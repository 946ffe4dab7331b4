//! A disk over a folder of the system's files, by std's calls: each call of the disk is one or a
//! few calls of the system, and what the system answers is told as faults of the disk.
//!
//! No contract can say what a file gives, so this disk tells contracts nothing of what it holds.
//! That the system keeps what it says is a matter of trust: that `sync_data` and `sync_all` return
//! `Ok` only once the octets and the names are where a power cut leaves them. Of a sync that fails for
//! want of room it is not trusted to keep what it was to bring there: that is kept here, and written again.
#![tactic(auto)]

mod boot;
mod fault;
mod folder;
mod lock;
mod open_files;
mod opened_file;
mod owner;
mod path;
mod regular;
mod transfers;
mod unsynced;

pub use fault::FileError;
pub use folder::FolderDisk;
pub use lock::{FolderLock, LockError, LockFault, LockFile};
pub use owner::FolderFault;
pub use path::FolderPath;
pub use regular::{
    Access, RegularFile, create_regular, open_or_create, open_regular, remove_regular,
};
