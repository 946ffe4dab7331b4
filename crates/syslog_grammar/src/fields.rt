//! Readers and writers of single fields, on which other forms of a record are built too.

pub use crate::canonical::{HeaderValues, put_header, put_message_part};
pub use syslog_fields::priority::{priority, version};
pub use syslog_fields::reading::Stop;
pub use syslog_fields::timestamp::{clock, last_day};
pub use syslog_reading::{MessageView, known_word, to_message, to_word};
