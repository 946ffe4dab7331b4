//! What a page of metrics tells of a server.

/// What is counted of one listener, since the server began.
#[derive(Clone, Copy, Debug, PartialEq, Eq)]
pub struct ListenerCounts {
    /// Frames that are records.
    pub records: u64,
    /// Octets of pieces and datagrams.
    pub octets: u64,
    /// Frames that are no records.
    pub not_records: u64,
    /// Frames that are longer than a frame may be.
    pub too_long: u64,
    /// Connections that went on with no count, ended inside a frame, or had no memory; and datagrams that
    /// had none.
    pub broken: u64,
    /// Datagrams and connections of peers that may not send, of which nothing was read.
    pub not_allowed: u64,
    /// Datagrams above the rates of their peers, which were thrown away.
    pub dropped: u64,
}

/// A listener, and what is counted of it.
#[derive(Drop)]
pub struct ListenerRow {
    /// Its name, such as `udp 0.0.0.0:514`.
    pub name: String,
    /// What is counted of it.
    pub counts: ListenerCounts,
}

/// What is counted and measured of the whole server.
#[derive(Clone, Copy, Debug, PartialEq, Eq)]
pub struct Totals {
    /// Records that had not been held before.
    pub new_records: u64,
    /// Records that had.
    pub held_records: u64,
    /// Commits of a record or more.
    pub batches: u64,
    /// Lines of notes that could not be written.
    pub notes_dropped: u64,
    /// Lines of notes that their pace left out.
    pub notes_quiet: u64,
    /// Connections that are open now.
    pub connections: u64,
    /// Octets of the journal now.
    pub journal_octets: u64,
    /// Whether the disk is full now.
    pub disk_full: bool,
    /// When the last commit was made, in Unix seconds; 0 before the first.
    pub last_commit: u64,
    /// When the server began, in Unix seconds.
    pub start: u64,
}
