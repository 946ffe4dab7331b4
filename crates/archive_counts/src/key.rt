//! What records are counted by.

/// What records are counted by: a field of the header (RFC 5424, section 6.2), or a part of it.
#[derive(Clone, Copy, Debug, PartialEq, Eq)]
pub enum CountKey {
    /// HOSTNAME (6.2.4).
    Host,
    /// APP-NAME (6.2.5).
    App,
    /// PROCID (6.2.6).
    Proc,
    /// MSGID (6.2.7).
    Msgid,
    /// The facility in PRI (6.2.1), by its short name, such as `local0`.
    Facility,
    /// The severity in PRI (6.2.1), by its short name, such as `err`.
    Severity,
    /// The day of TIMESTAMP (6.2.3) in UTC, such as `2026-11-25`.
    Day,
    /// The hour of TIMESTAMP in UTC, such as `2026-11-25T10`.
    Hour,
    /// The minute of TIMESTAMP in UTC, such as `2026-11-25T10:07`.
    Minute,
}
