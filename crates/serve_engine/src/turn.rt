//! How a server goes on.

use crate::serve_end::ServeEnd;

/// How a server goes on after a step.
#[derive(Clone, Copy, Debug, PartialEq, Eq)]
pub enum Turn {
    /// With the next step.
    On,
    /// Not at all.
    End(ServeEnd),
}
