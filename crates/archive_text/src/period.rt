//! How long the periods of an archive are.

/// How long the periods are by which the entries of an archive are told apart, in UTC.
#[derive(Clone, Copy, Debug, PartialEq, Eq)]
pub enum Period {
    /// A month, such as `2026-11`.
    Month,
    /// A day, such as `2026-11-25`.
    Day,
    /// An hour, such as `2026-11-25T10`.
    Hour,
}
