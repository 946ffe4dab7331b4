//! How fast peers may send, by the clock of a source.
ghost use Rattle.std.specs.Prelude.{◌≡◌, is_some, option_map};

use peer_rules::Rates;
use std::net::IpAddr;
use std::time::Instant;

/// How fast each peer may send, in milliseconds since a time. Without rates nobody has to wait.
#[derive(Drop)]
pub(crate) struct Pace {
    pub(crate) rates: Option<Rates>,
    pub(crate) since: Instant,
}

impl Pace {
    ghost use Rattle.peer_rules.specs.Addresses.{number_of};
    ghost use Rattle.peer_rules.specs.Rates.{room_of};
    ghost use Rattle.socket_source.specs.Paces.{PassesIn, millis_at};

    pub(crate) fn new(rates: Option<Rates>, since: Instant) -> Pace
        ensures rates { result.rates ≡ rates }
        ensures since { result.since ≡ since }
    {
        Pace { rates, since }
    }

    // The milliseconds that have passed.
    fn millis(&self, now: Instant) -> u64
        ensures { result ≡ millis_at self.now now }
    {
        let millis = now.duration_since(self.since).as_millis();
        u64::try_from(millis).unwrap_or(u64::MAX)
    }

    /// Whether any peer has a rate.
    pub(crate) fn is_bounded(&self) -> bool
        ensures { result ≡ is_some self.now.rates }
    {
        self.rates.is_some()
    }

    /// How many more records of a peer may pass now; None means any number.
    pub(crate) fn room(&self, peer: IpAddr, now: Instant) -> Option<u64>
        ensures { result ≡ option_map (λ rates. room_of rates (number_of peer) (millis_at self.now now))
            self.now.rates }
    {
        let millis = self.millis(now);
        match &self.rates {
            Some(rates) => Some(rates.room(peer, millis)),
            None => None,
        }
    }

    /// How many of `count` records of a peer pass now: without rates all do, and so do those of a peer
    /// for which there is no memory.
    pub(crate) fn take(&mut self, peer: IpAddr, now: Instant, count: u64) -> u64
        ensures passes { PassesIn self.old.rates self.new.rates (number_of peer)
            (millis_at self.old now) count result }
        ensures since { self.new.since ≡ self.old.since }
    {
        let millis = self.millis(now);
        let Some(rates) = &mut self.rates else {
            return count;
        };
        match rates.take(peer, millis, count) {
            Ok(passed) => passed,
            Err(_) => count,
        }
    }
}
