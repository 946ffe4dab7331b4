//! The values of syslog: priorities, instants, words, structured data, messages and records, each
//! valid by its type; and the devices that are read from and written to.
#![tactic(auto)]

mod civil;
mod element;
mod facility;
mod instant;
mod mask;
mod message;
mod name;
mod priority;
mod record;
mod severity;
mod structured;
mod word;

pub use civil::Civil;
pub use element::{Element, Param};
pub use facility::Facility;
pub use instant::{Instant, TimeFault};
pub use mask::{Mask, masks_are_their_severities};
pub use message::Message;
pub use name::SdName;
pub use octet_devices::{
    DeviceFault, FromRead, Fuse, Input, Output, READ_MAX, READER_CALLS, ReadAllFault, ToWrite,
    WriteFault, read_all, write_all,
};
pub use priority::Priority;
pub use record::Record;
pub use severity::Severity;
pub use structured::{PushFault, StructuredData};
pub use word::{Word, WordFault};
