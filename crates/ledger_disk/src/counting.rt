//! The entries of a segment are counted.
ghost use Rattle.std.specs.Prelude.{◌≡◌, ◌<◌, IfOk, List, Some, length, ℕ};
ghost use Rattle.disk.specs.Calls.{IsUnchanged};
ghost use Rattle.disk.specs.Memory.{shown_now};
ghost use Rattle.journal.specs.Journals.{IsSound};

use disk::{Disk, DiskFault, FileName};

// the most octets that are asked for in a call
const PIECE: usize = 16_384;

// the most octets of a segment that is counted
const COUNTED_MAX: u64 = 1 << 62;

// the most that the length of an entry may be
const LENGTH_MAX: u64 = 1 << 40;

// Where in an entry octets end.
#[derive(Clone, Copy)]
enum Place {
    // in its length, of which so many digits came
    Length { digits: u64, value: u64 },
    // in its octets, of which so many are left
    Octets { left: u64 },
    // they are no entries
    Other,
}

// How many entries came of an archive, and where in one the octets end.
#[derive(Clone, Copy)]
struct EntryCount {
    entries: u64,
    place: Place,
}

/// How many entries and octets a file has, and whether the octets are entries to the end.
#[derive(Clone, Copy)]
pub(crate) struct Counted {
    pub(crate) entries: u64,
    pub(crate) octets: u64,
    pub(crate) is_whole: bool,
}

impl EntryCount {
    // None came.
    fn new() -> EntryCount {
        EntryCount {
            entries: 0,
            place: Place::Length {
                digits: 0,
                value: 0,
            },
        }
    }

    // Whether the octets are entries, each of them whole.
    fn is_whole(&self) -> bool {
        matches!(
            self.place,
            Place::Length {
                digits: 0,
                value: _
            }
        )
    }

    // Takes an octet of a length.
    fn take_digit(&mut self, octet: u8, digits: u64, value: u64) {
        self.place = match octet {
            b'0'..=b'9' if value < LENGTH_MAX && (digits > 0 || octet != b'0') => Place::Length {
                digits: digits.saturating_add(1),
                value: value
                    .saturating_mul(10)
                    .saturating_add((octet - b'0') as u64),
            },
            b' ' if digits > 0 => Place::Octets { left: value },
            _ => Place::Other,
        };
    }

    // Takes octets of an entry, as many as are left of it. Gives what follows.
    fn take_octets<'a>(&mut self, piece: &'a [u8], left: u64) -> &'a [u8]
        requires { 0 < left }
        ensures { 0 < length piece.now → length result.now < length piece.now }
    {
        let n = left.min(piece.len() as u64) as usize;
        if left > n as u64 {
            self.place = Place::Octets {
                left: left - n as u64,
            };
        } else {
            self.entries = self.entries.saturating_add(1);
            self.place = Place::Length {
                digits: 0,
                value: 0,
            };
        }
        &piece[n..]
    }

    // Takes the first octets of a piece. Gives what follows.
    fn take_some<'a>(&mut self, piece: &'a [u8]) -> &'a [u8]
        ensures { 0 < length piece.now → length result.now < length piece.now }
    {
        match (self.place, piece) {
            (Place::Octets { left }, _) if left > 0 => self.take_octets(piece, left),
            (Place::Length { digits, value }, [octet, rest @ ..]) => {
                self.take_digit(*octet, digits, value);
                rest
            }
            _ => &piece[piece.len()..],
        }
    }

    // Takes the next octets.
    fn take(&mut self, piece: &[u8]) {
        let mut rest = piece;
        'rest: while !rest.is_empty() {
            rest = self.take_some(rest);
        }
    }
}

/// Counts the entries and the octets of a file.
pub(crate) fn count_entries<D: Disk>(disk: &mut D, name: &FileName) -> Result<Counted, DiskFault>
    ensures octets { IfOk result (λ counted. D.tells disk.new → IsSound (D.state disk.old)
        → (file : List ℕ) → shown_now ((D.state disk.old).entries name.now) ≡ Some file
        → counted.octets ≡ length file) }
    ensures same { D.tells disk.new → IsUnchanged (D.state disk.old) (D.state disk.new) }
    ensures told { D.tells disk.new → D.tells disk.old }
{
    let mut piece = [0u8; PIECE];
    let mut count = EntryCount::new();
    let mut at = 0u64;
    'pieces: while at < COUNTED_MAX {
        let n = disk.read(name, at, &mut piece)?;
        if n == 0 {
            return Ok(Counted {
                entries: count.entries,
                octets: at,
                is_whole: count.is_whole(),
            });
        }
        count.take(&piece[..n]);
        at += n as u64;
    }
    Err(DiskFault::Failed)
}
