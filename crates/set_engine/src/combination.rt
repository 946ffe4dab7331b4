//! How archives are joined.

/// What is written of archives, depending on who has a record.
#[derive(Clone, Copy, Debug, PartialEq, Eq)]
pub enum Combination {
    /// The archive of the records that any of them has.
    Union,
    /// The archive of the records that all have.
    Common,
    /// The archive of the records that the first has and no other one.
    Minus,
    /// A line for each record that exactly one of two archives has.
    Diff,
}
