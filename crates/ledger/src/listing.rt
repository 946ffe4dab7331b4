//! What a line does to what is listed of its segment.

ghost use Rattle.std.specs.Prelude.{◌≡◌};
ghost use Rattle.ledger.specs.Lines.{said_of};
ghost use Rattle.ledger.specs.Standings.{behind_line};

use crate::entry::{Event, LedgerEntry, Removal};
use crate::standing::Listed;

/// What is listed behind a line on a segment, or `None` if it is gone. One that is sealed goes only where it
/// expires: it stays listed behind a line that tells it joined into another.
pub(crate) fn listed_behind(
    before: Option<Listed>,
    number: u64,
    entry: &LedgerEntry<'_>,
) -> Option<Listed>
    ensures { result ≡ behind_line before number (said_of entry.now) }
{
    let fresh = Listed {
        count: entry.count,
        octets: entry.octets,
        line: number,
        sealed: false,
    };
    match entry.event {
        Event::Gone(Removal::Joined(_)) if before.unwrap_or(fresh).sealed => before,
        Event::Gone(_) => None,
        Event::Added | Event::Joined => Some(Listed {
            sealed: before.unwrap_or(fresh).sealed,
            ..fresh
        }),
        Event::Sealed(_) => Some(Listed {
            sealed: true,
            ..before.unwrap_or(fresh)
        }),
    }
}
