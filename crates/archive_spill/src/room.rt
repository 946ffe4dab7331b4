//! How many runs are joined at once.

ghost use Rattle.std.specs.Prelude.{◌≤◌, ◌≡◌, ◌/◌, max, min};

use archive_streams::ENTRIES_READ_MAX;
use archive_text::ENTRY_MAX;

/// How many octets a run takes in memory while it is joined: those of two entries and of a piece.
pub const JOINED_ROOM: usize = 2 * ENTRY_MAX + ENTRIES_READ_MAX;

/// How many runs are joined at once at most, since each of them is an open file.
pub const JOINED_MAX: usize = 256;

/// How many runs are joined at once in `room` octets: as many as fit, but from two to `JOINED_MAX`.
pub fn joined_at_once(room: usize) -> usize
    ensures value { result ≡ max 2 (min JOINED_MAX (room / JOINED_ROOM)) }
    ensures two { 2 ≤ result }
{
    (room / JOINED_ROOM).min(JOINED_MAX).max(2)
}
