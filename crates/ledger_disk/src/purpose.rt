//! What a disk is used for.
ghost use Rattle.std.specs.Prelude.{◌≡◌, ◌↔◌, IsTrue};

/// What a disk is used for: it decides what the lines say, and which segments may go.
#[derive(Clone, Copy, Debug, PartialEq, Eq)]
pub enum Purpose {
    /// A server's checkpoints. In a folder that has segments and no ledger, none is listed.
    Serve,
    /// Records are added.
    Add,
    /// Segments are joined. Sealed ones are left alone.
    Join,
    /// Segments expire, sealed ones too.
    Expire,
    /// Segments are joined, and sealed. Those that are sealed already are left alone.
    Seal,
}

impl Purpose {
    /// Whether what gets its name is a join of segments.
    pub(crate) fn joins(self) -> bool {
        matches!(self, Purpose::Join | Purpose::Seal)
    }

    /// Whether a segment that is sealed may be removed.
    pub(crate) fn removes_sealed(self) -> bool
        ensures { IsTrue result ↔ (self ≡ Purpose.Expire) }
    {
        matches!(self, Purpose::Expire)
    }
}
