//! A peer to which records are put, or not.

ghost use Rattle.std.specs.Prelude.{◌≡◌, length, true};

use itoa::Buffer;
use reconcile::{Part, Peer, Range, Records, Stopped};
use site_pipe::Amount;

/// A peer to which records are put; or they are counted, and the peer is not told of them.
#[derive(Drop)]
pub(crate) struct Directed<P> {
    pub(crate) peer: P,
    puts: bool,
    /// What was not put.
    pub(crate) held_back: Amount,
}

// How many octets the text of an entry with these octets has.
fn entry_len(octets: &[u8]) -> u64 {
    let count = Buffer::new().format(octets.len()).len() as u64;
    (octets.len() as u64)
        .saturating_add(count)
        .saturating_add(1)
}

// How many records there are, and how many octets their archive has.
fn amount_of(records: &Records) -> Amount
    ensures { result.records ≡ length records.now }
{
    let mut octets: u64 = 0;
    for entry in records.entries() {
        octets = octets.saturating_add(entry_len(entry.view().octets));
    }
    Amount {
        records: records.len() as u64,
        octets,
    }
}

impl<P> Directed<P> {
    /// A peer to which nothing was put yet.
    pub(crate) fn new(peer: P, puts: bool) -> Directed<P>
        ensures peer { result.peer ≡ peer }
        ensures puts { result.puts ≡ puts }
    {
        Directed {
            peer,
            puts,
            held_back: Amount {
                records: 0,
                octets: 0,
            },
        }
    }

    // Counts records that are not put.
    fn hold_back(&mut self, records: &Records)
        ensures peer { self.new.peer ≡ self.old.peer }
        ensures puts { self.new.puts ≡ self.old.puts }
    {
        let amount = amount_of(records);
        self.held_back = Amount {
            records: self.held_back.records.saturating_add(amount.records),
            octets: self.held_back.octets.saturating_add(amount.octets),
        };
    }
}

impl<P: Peer> Peer for Directed<P> {
    ghost held = { λ d. P.held d.peer };

    ghost seen = { λ d. P.seen d.peer };

    // one to which nothing is put does not come to have it
    ghost is_honest = { λ d. (d.puts ≡ true) × P.is_honest d.peer };

    fn parts(&mut self, range: &Range, most: u64) -> Result<Vec<Part>, Stopped> {
        self.peer.parts(range, most)
    }

    fn split(&mut self, parts: &[Part], most: u64) -> Result<Vec<Vec<Part>>, Stopped> {
        self.peer.split(parts, most)
    }

    fn get(&mut self, parts: &[Part]) -> Result<Records, Stopped> {
        self.peer.get(parts)
    }

    fn put(&mut self, records: &Records) -> Result<(), Stopped> {
        if !self.puts {
            self.hold_back(records);
            return Ok(());
        }
        self.peer.put(records)
    }

    ghost archive = { λ d h. P.archive d.peer h.1 };
}
