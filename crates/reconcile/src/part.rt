//! Parts of a set, as they are told.

use crate::range::Range;
use crate::sum::Sum;

/// What is told of the entries of a set in a range.
#[derive(Debug, Drop)]
pub struct Part {
    /// The range.
    pub range: Range,
    /// What stands for the entries there.
    pub sum: Sum,
}
