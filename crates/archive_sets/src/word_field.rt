//! The fields of a header that are words.

/// A field of a header that is a word (RFC 5424, sections 6.2.4 to 6.2.7).
#[derive(Clone, Copy, Debug, PartialEq, Eq)]
pub enum WordField {
    /// HOSTNAME (6.2.4).
    Hostname,
    /// APP-NAME (6.2.5).
    AppName,
    /// PROCID (6.2.6).
    ProcId,
    /// MSGID (6.2.7).
    MsgId,
}
