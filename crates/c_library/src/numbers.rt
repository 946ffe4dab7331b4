//! The numbers of `include/syslogbox.h`.

// enum syslogbox_kind
/// The octets are outside the grammar (RFC 5424, section 6), from the offset on.
pub const SYNTAX: u32 = 1;

/// The timestamp at the offset names an instant before the year 0 or after the year 9999.
pub const INSTANT_RANGE: u32 = 2;

/// The element's id at the offset is that of an earlier one (RFC 5424, section 6.3.2).
pub const REPEATED_ID: u32 = 3;

/// The message of a legacy packet starts with the BOM and is not UTF-8 at the offset.
pub const NOT_UTF8: u32 = 4;

/// No count of an archive can continue with the octet at the offset, or the archive ends inside an
/// entry.
pub const BAD_FRAME: u32 = 5;

/// The entry at the offset has more than `ENTRY_MAX` octets.
pub const ENTRY_TOO_LONG: u32 = 6;

/// The entry at the offset is no record.
pub const BAD_ENTRY: u32 = 7;

/// The entry at the offset is a record, but not in its canonical form.
pub const NOT_CANONICAL: u32 = 8;

/// The entry at the offset is not above the one before it.
pub const NOT_ASCENDING: u32 = 9;

/// The room is too small: the offset is how many octets are needed.
pub const NO_ROOM: u32 = 10;

/// An allocation failed.
pub const NO_MEMORY: u32 = 11;

/// The year or the offset from UTC is out of range.
pub const BAD_CLOCK: u32 = 12;

/// There is no such element: the offset is how many there are.
pub const NO_ELEMENT: u32 = 13;

/// There is no such parameter: the offset is how many there are.
pub const NO_PARAM: u32 = 14;

/// The record has more octets than are read: the offset is how many may be.
pub const RECORD_TOO_LONG: u32 = 15;

/// There is no such dialect.
pub const BAD_DIALECT: u32 = 16;

/// A field of a record that is to be written may not be so, from the octet at the offset on.
pub const BAD_FIELD: u32 = 17;

/// The item of structured data with this number may not stand there, or not be so.
pub const BAD_ITEM: u32 = 18;

/// There is no such period.
pub const BAD_PERIOD: u32 = 19;

// enum syslogbox_field
/// No field, as the kind of the fault names none.
pub const NO_FIELD: u32 = 0;

/// PRI (RFC 5424, section 6.2.1).
pub const PRIORITY: u32 = 1;

/// VERSION (6.2.2).
pub const VERSION: u32 = 2;

/// TIMESTAMP (6.2.3).
pub const TIMESTAMP: u32 = 3;

/// HOSTNAME (6.2.4).
pub const HOSTNAME: u32 = 4;

/// APP-NAME (6.2.5).
pub const APP_NAME: u32 = 5;

/// PROCID (6.2.6).
pub const PROC_ID: u32 = 6;

/// MSGID (6.2.7).
pub const MSG_ID: u32 = 7;

/// STRUCTURED-DATA (6.3).
pub const STRUCTURED_DATA: u32 = 8;

/// MSG (6.4).
pub const MESSAGE: u32 = 9;

/// The left one of two archives.
pub const LEFT: u32 = 10;

/// The right one of two archives.
pub const RIGHT: u32 = 11;

// enum syslogbox_framing
/// Octet counting (RFC 6587, 3.4.1).
pub const COUNTED: i32 = 1;

/// A record and a line feed (RFC 6587, 3.4.2).
pub const LF: i32 = 2;

// enum syslogbox_dialect
/// Legacy packets of RFC 3164, section 4.
pub const BSD: i32 = 1;

/// Those, and what devices and programs send besides.
pub const WIDE: i32 = 2;

// enum syslogbox_scanned
/// The piece has no end of a frame.
pub const SCAN_WAITS: i32 = 0;

/// A frame that is not too long.
pub const SCAN_FRAME: i32 = 1;

/// The end of a frame that is too long.
pub const SCAN_TOO_LONG: i32 = 2;

/// No frame can continue with an octet.
pub const SCAN_BROKEN: i32 = -1;

// struct syslogbox_scanner
/// Nothing is passed over.
pub const IN_NOTHING: u32 = 0;

/// A counted frame is.
pub const IN_COUNTED: u32 = 1;

/// A line is.
pub const IN_LINE: u32 = 2;

// enum syslogbox_period
/// Months, such as `2026-11`.
pub const MONTH: i32 = 1;

/// Days, such as `2026-11-25`.
pub const DAY: i32 = 2;

/// Hours, such as `2026-11-25T10`.
pub const HOUR: i32 = 3;

// enum syslogbox_part
/// PRIVAL (RFC 5424, section 6.2.1).
pub const PART_PRIORITY: u32 = 1;

/// VERSION (6.2.2).
pub const PART_VERSION: u32 = 2;

/// TIMESTAMP (6.2.3).
pub const PART_TIMESTAMP: u32 = 3;

/// HOSTNAME (6.2.4).
pub const PART_HOSTNAME: u32 = 4;

/// APP-NAME (6.2.5).
pub const PART_APP_NAME: u32 = 5;

/// PROCID (6.2.6).
pub const PART_PROC_ID: u32 = 6;

/// MSGID (6.2.7).
pub const PART_MSG_ID: u32 = 7;

/// The id of an element (6.3.2).
pub const PART_ELEMENT_ID: u32 = 8;

/// The name of a parameter (6.3.3).
pub const PART_PARAM_NAME: u32 = 9;

/// The value of a parameter, as it is spelled between the quotation marks (6.3.3).
pub const PART_PARAM_VALUE: u32 = 10;

/// MSG without the BOM (6.4).
pub const PART_MESSAGE: u32 = 11;
