//! Legacy syslog records: packets of the form that RFC 3164, section 4, describes.
//!
//! With a clock that gives the year and the offset from UTC, any octets are a record with the parts
//! of RFC 5424, or have a message that starts with the byte order mark and is not UTF-8. Nothing is
//! invented: no time, no host, and no year but that of the clock.
#![tactic(auto)]

mod canonical;
mod clock;
mod dialect_parts;
mod fault;
mod frame_reading;
mod front;
mod host;
mod law;
mod new_form;
mod octets;
mod owned;
mod runs;
mod tag;
mod timestamp;
mod view;
mod whole;
mod wide_tag;
mod wide_time;

pub use canonical::put_legacy_canonical;
pub use clock::{Dialect, LegacyClock};
pub use fault::{LegacyFault, MessageNotUtf8};
pub use frame_reading::FrameReading;
pub use law::{legacy_canonical_is_bounded, legacy_is_a_record, packets_have_one_answer};
pub use new_form::has_new_form;
pub use owned::read_legacy;
pub use view::LegacyView;
pub use whole::legacy_view;
