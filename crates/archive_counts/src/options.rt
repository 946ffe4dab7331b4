//! What is counted, and how that is written.

use crate::key::CountKey;

/// How the lines of a count are written.
#[derive(Clone, Copy, Debug, PartialEq, Eq)]
pub enum CountForm {
    /// `COUNT OCTETS FIRST LAST KEY..`
    Lines,
    /// An object of JSON (RFC 8259), `{"count":N,"octets":N,"first":..,"last":..,"host":..}`: a
    /// member for each key, in their order. Times and words are strings; what is `-` in a line is
    /// null.
    Json,
    /// `COUNT BAR KEY..`, with counts that end in one column. The bar of the largest count has what
    /// that count, a space and the longest words leave of so many columns, and at least one; the
    /// others have their part of it, rounded up. If the only key is a day, an hour or a minute, the
    /// lines stand in the order of time, that of the records without one last.
    Bars { columns: u16 },
}

/// What is counted, and how that is written.
#[derive(Debug, Drop)]
pub struct CountOptions {
    /// What records are counted by; without keys all are counted together.
    pub keys: Vec<CountKey>,
    /// How many lines are written at most; None for all.
    pub top: Option<u64>,
    /// How they are written.
    pub form: CountForm,
}
