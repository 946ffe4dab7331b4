//! What those who write lines of a ledger take in turn.

use crate::fault::ListFault;
use disk::DiskFault;

/// The octets of a timestamp in canonical form.
pub const TIME_LEN: usize = 27;

/// A lock among the processes that write lines of a ledger, a clock, and where it is told that lines cannot be written.
pub trait Turns {
    /// Takes the turn, for which others are waited for.
    fn begin(&mut self) -> Result<(), DiskFault>;

    /// Gives the turn back.
    fn end(&mut self);

    /// The time now, as a timestamp in canonical form.
    fn time(&mut self) -> [u8; TIME_LEN];

    /// Is told why a server does not list its segments, once it does not, and `None` once it does again.
    fn tell(&mut self, unlisted_for: Option<ListFault>);
}
