//! How long commits took.
ghost use Rattle.std.specs.Prelude.{◌≡◌, ◌∷◌, ℕ, List, []};
ghost use Rattle.server_metrics.specs.Times.{IsCounted, IsTallyOf, counted};

// How many bounds there are.
const BOUNDS: usize = 13;

// The bounds, in microseconds: from a millisecond to half a second, and from a second to ten.
const BOUND_MICROS: [u64; BOUNDS] = [
    1_000, 2_500, 5_000, 10_000, 25_000, 50_000, 100_000, 250_000, 500_000, 1_000_000, 2_500_000,
    5_000_000, 10_000_000,
];

/// How long commits took: how many took at most so long, for each bound from a millisecond to ten
/// seconds; how many there were; and how long all of them took. A number that reaches `u64::MAX` stays
/// there.
#[derive(Clone, Copy, Debug, PartialEq, Eq)]
pub struct CommitTimes {
    pub(crate) within: [u64; BOUNDS],
    pub(crate) count: u64,
    // in microseconds
    pub(crate) sum: u64,
}

// How many times are at most a bound, with one more time.
fn counted(count: u64, micros: u64, bound: u64) -> u64
    ensures { result ≡ counted micros bound count }
{
    if micros <= bound {
        return count.saturating_add(1);
    }
    count
}

impl CommitTimes {
    /// No commit took any time yet.
    pub fn new() -> CommitTimes
        ensures { IsTallyOf [] result }
    {
        CommitTimes {
            within: [0; BOUNDS],
            count: 0,
            sum: 0,
        }
    }

    // One more time counts at each bound that it does not exceed.
    fn count_bounds(&mut self, micros: u64)
        ensures { IsCounted micros self.old self.new }
    {
        for i in 0..BOUNDS {
            self.within[i] = counted(self.within[i], micros, BOUND_MICROS[i]);
        }
    }

    /// One more commit took so many microseconds.
    pub fn add(&mut self, micros: u64)
        ensures { (times : List ℕ) → IsTallyOf times self.old → IsTallyOf (micros ∷ times) self.new }
    {
        self.count_bounds(micros);
        self.count = self.count.saturating_add(1);
        self.sum = self.sum.saturating_add(micros);
    }
}
