//! Places of peers, and how much each owes.
ghost use Rattle.std.specs.Prelude.{◌≡◌};
ghost use Rattle.serve_engine.specs.Rows.{StandsFirst, owed_in};

/// How many places a row has.
pub(crate) const ROW: usize = 8;

/// A peer, and when nothing is owed for it any more.
#[derive(Clone, Copy)]
pub(crate) struct Bucket {
    pub(crate) peer: u128,
    pub(crate) clear_at: u128,
}

/// How much a peer of a row owes.
pub(crate) fn owed_in(row: &[Bucket; ROW], clock: u64, peer: u128) -> u128
    ensures { result ≡ owed_in row.now clock peer }
{
    for bucket in row {
        if bucket.peer == peer {
            return bucket.clear_at.saturating_sub(u128::from(clock));
        }
    }
    0
}

/// Puts a bucket in front of a row: it takes the place of its peer, or else the last one.
pub(crate) fn put_first(row: &mut [Bucket; ROW], bucket: Bucket)
    ensures { StandsFirst row.old row.new bucket }
{
    let mut next = bucket;
    for place in 0..ROW {
        let was = row[place];
        row[place] = next;
        if was.peer == bucket.peer {
            return;
        }
        next = was;
    }
}
