//! What a line of a ledger says.

/// How many octets a hash has in hexadecimal.
pub(crate) const HASH_LEN: usize = 64;

/// Why a segment is gone.
#[derive(Clone, Copy, Debug, PartialEq, Eq)]
pub enum Removal {
    /// It was joined into the segment that the line with this number lists.
    Joined(u64),
    /// It expired.
    Expired,
}

/// What happened to a segment.
#[derive(Clone, Copy, Debug, PartialEq, Eq)]
pub enum Event {
    /// It came.
    Added,
    /// It came, made of others that it was joined of.
    Joined,
    /// It went.
    Gone(Removal),
    /// It was sealed: the Merkle tree hash of its records (RFC 9162, section 2.1.1) in hexadecimal.
    Sealed([u8; 64]),
}

/// What a line says of a segment.
#[derive(Clone, Copy, Debug)]
pub struct LedgerEntry<'a> {
    /// What happened to it.
    pub event: Event,
    /// Its name.
    pub name: &'a [u8],
    /// How many records it has.
    pub count: u64,
    /// How many octets it has.
    pub octets: u64,
}
