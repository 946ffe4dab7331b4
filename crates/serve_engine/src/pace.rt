//! The pace of notes: how many lines on refusals are written of each peer, and of all.
ghost use Rattle.std.specs.Prelude.{◌≡◌, vec_len};
ghost use Rattle.serve_engine.specs.declared.pace.TheConstants.{ROWS};

use crate::row::{Bucket, ROW, owed_in, put_first};
use std::alloc::{AllocError, Global};

/// What a line costs its peer, in milliseconds: ten lines a second.
const PEER_COST: u128 = 100;

/// How much a peer may owe: a burst of a hundred lines.
const PEER_MOST: u128 = 10_000;

/// What a line costs all peers together: a thousand lines a second.
pub(crate) const ALL_COST: u128 = 1;

/// How much they may owe: a burst of a thousand lines.
pub(crate) const ALL_MOST: u128 = 1_000;

/// How many rows of places there are. It is a prime number, so that addresses spread.
const ROWS: usize = 521;

/// Who owes how much for lines that were written, with room for some four thousand peers. The number
/// of a peer says its row, where those that were heard last come first; the one that was unheard
/// longest gives its place to another.
#[derive(Drop)]
pub(crate) struct Pace {
    rows: Vec<[Bucket; ROW]>,
    ghost covers: { vec_len rows ≡ ROWS },
    all_clear_at: u128,
    // the milliseconds that ticks stood for
    clock: u64,
}

impl Pace {
    ghost use Rattle.std.specs.Prelude.{◌≡◌, ◌↔◌, ℕ, IfOk, IsTrue};
    ghost use Rattle.std.specs.Bool.{OnFalse, OnTrue};
    ghost use Rattle.serve_engine.specs.Paces.{HasLine, PaysFor, SpendsLine, clock_of, owed_by, owed_by_all};

    /// At first nobody owes anything.
    pub(crate) fn new(alloc: Global) -> Result<Pace, AllocError>
        ensures peers { IfOk result (λ pace. (peer : ℕ) → owed_by pace peer ≡ 0) }
        ensures all { IfOk result (λ pace. owed_by_all pace ≡ 0) }
    {
        let free = Bucket {
            peer: 0,
            clear_at: 0,
        };
        let rows = vec![in alloc; [free; ROW]; ROWS]?;
        Ok(Pace {
            rows,
            all_clear_at: 0,
            clock: 0,
        })
    }

    /// So many milliseconds have passed.
    pub(crate) fn tick(&mut self, millis: u32)
        ensures { PaysFor self.old self.new millis }
    {
        self.clock = self.clock.saturating_add(u64::from(millis));
    }

    /// Whether a line on a peer is to be written. If so, it costs its peer and all.
    pub(crate) fn lets(&mut self, peer: u128) -> bool
        ensures lets { IsTrue result ↔ HasLine self.old peer }
        ensures spends { OnTrue result (SpendsLine self.old self.new peer) }
        ensures same { OnFalse result (self.new ≡ self.old) }
        ensures clock { clock_of self.new ≡ clock_of self.old }
    {
        let now = u128::from(self.clock);
        let row = &mut self.rows[(peer % ROWS as u128) as usize];
        let owed = owed_in(row, self.clock, peer);
        let all = self.all_clear_at.saturating_sub(now);
        if owed > PEER_MOST - PEER_COST || all > ALL_MOST - ALL_COST {
            return false;
        }
        let bucket = Bucket {
            peer,
            clear_at: now + owed + PEER_COST,
        };
        put_first(row, bucket);
        self.all_clear_at = now + all + ALL_COST;
        true
    }
}
