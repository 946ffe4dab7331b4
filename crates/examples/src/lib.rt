//! Examples of the main calls of [`syslog`], the only crate that they call. Each is proved, and run as a test; all but
//! [`severest`] and [`archive_of_datagrams`] have a clause that says what they show.
#![tactic(auto)]

mod archives;
mod collecting;
mod frames;
mod packets;
mod records;
mod sending;

pub use archives::{daily, severe, union_of};
pub use collecting::archive_of_datagrams;
pub use frames::{first_frame, severest};
pub use packets::record_of_packet;
pub use records::{app_name_of, json_of, normalize};
pub use sending::notice;
