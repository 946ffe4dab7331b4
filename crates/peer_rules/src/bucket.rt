//! What a peer may send now.
ghost use Rattle.std.specs.Prelude.{◌≡◌};

/// What one record costs, in thousandths of a record.
pub const RECORD_CREDIT: u64 = 1_000;

/// How many milliseconds fill an empty bucket: so many records of one peer pass at once as a rate lets
/// pass in this time.
pub const BURST_MILLIS: u64 = 10_000;

/// What a peer may send, in thousandths of a record, and when it was heard, in milliseconds.
#[derive(Clone, Copy)]
pub(crate) struct Bucket {
    pub(crate) credit: u64,
    pub(crate) heard: u64,
}

impl Bucket {
    ghost use Rattle.peer_rules.specs.Buckets.{bucket_after, credit_at, full_bucket, passing, room_in};

    /// The bucket of a peer that was never heard.
    pub(crate) fn full(per_second: u32) -> Bucket
        ensures { result ≡ full_bucket per_second }
    {
        Bucket {
            credit: BURST_MILLIS * u64::from(per_second),
            heard: 0,
        }
    }

    // What the peer may send at a time. A clock that goes back adds nothing.
    fn credit_at(self, per_second: u32, now: u64) -> u64
        ensures { result ≡ credit_at per_second self now }
    {
        let waited = now.saturating_sub(self.heard);
        let earned = u64::from(per_second).saturating_mul(waited);
        self.credit
            .saturating_add(earned)
            .min(BURST_MILLIS * u64::from(per_second))
    }

    /// How many more records may pass at a time.
    pub(crate) fn room(self, per_second: u32, now: u64) -> u64
        ensures { result ≡ room_in per_second self now }
    {
        self.credit_at(per_second, now) / RECORD_CREDIT
    }

    /// How many of so many records pass at a time, and the bucket afterwards.
    pub(crate) fn take(self, per_second: u32, now: u64, count: u64) -> (u64, Bucket)
        ensures passes { result.0 ≡ passing per_second self now count }
        ensures after { result.1 ≡ bucket_after per_second self now result.0 }
    {
        let credit = self.credit_at(per_second, now);
        let passed = count.min(credit / RECORD_CREDIT);
        let bucket = Bucket {
            credit: credit - RECORD_CREDIT * passed,
            heard: self.heard.max(now),
        };
        (passed, bucket)
    }
}
