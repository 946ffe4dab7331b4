//! What is lacking of a message.

/// Why octets are not read.
#[derive(Clone, Copy, Debug, PartialEq, Eq)]
pub enum Gap {
    /// They are the front of a message at most: at least so many octets are lacking.
    More(usize),
    /// Whatever follows them, they begin no message.
    Bad,
}
