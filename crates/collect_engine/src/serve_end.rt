//! How serving ends.

/// How serving ended.
#[derive(Clone, Copy, Debug, PartialEq, Eq)]
pub enum ServeEnd {
    /// The source gave its end. `refused` says whether a line was noted.
    Done { refused: bool },
    /// The source failed, the collector refused a step, or the notes could not be written.
    Failed,
    /// The source did not give its end in `SERVE_TURNS` steps.
    Endless,
    /// An allocation failed.
    Memory,
}

/// Why a source was not served to its end.
#[derive(Clone, Copy, Debug, PartialEq, Eq)]
pub(crate) enum Stopped {
    /// The source failed, or the collector refused a step.
    Step,
    /// The notes could not be written.
    Notes,
    /// The source did not give its end in `SERVE_TURNS` steps.
    Endless,
    /// An allocation failed.
    Memory,
    /// An allocation failed, and the lines on what was met could not be written.
    MemoryAndNotes,
}
