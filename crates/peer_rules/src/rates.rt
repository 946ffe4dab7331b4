//! How fast each peer may send.
ghost use Rattle.std.specs.Prelude.{◌≡◌, IfOk, OnErr};
ghost use Rattle.peer_rules.specs.Addresses.{number_of};
ghost use Rattle.peer_rules.specs.Buckets.{bucket_after};

use crate::address::address_number;
use crate::bucket::Bucket;
use lru::LruCache;
use std::alloc::{AllocError, Global};
use std::collections::hash_map::RandomState;
use std::net::IpAddr;
use std::num::NonZeroUsize;

/// How many peers there is room for.
pub const PEERS_MAX: usize = 16_384;

/// How many records each address may send: so many a second, and a burst of ten times as many. The address
/// that was unheard longest is forgotten if there is no room for another; one that is not known may send a
/// whole burst. A call takes constant time, whatever the number of peers.
#[derive(Drop)]
pub struct Rates {
    buckets: LruCache<u128, Bucket, RandomState>,
    per_second: u32,
}

impl Rates {
    ghost use Rattle.peer_rules.specs.Rates.{bucket_of, heard_after, heard_by, lets_through, nobody, rate_of, room_of};

    /// Nobody was heard. The keys of the table are random, since the peers choose their addresses. It
    /// fails only when out of memory.
    pub fn new(alloc: Global, keys: RandomState, per_second: u32) -> Result<Rates, AllocError>
        ensures heard { IfOk result (λ rates. heard_by rates ≡ nobody) }
        ensures rate { IfOk result (λ rates. rate_of rates ≡ per_second) }
    {
        let room = NonZeroUsize::new(PEERS_MAX).unwrap_or(NonZeroUsize::MIN);
        Ok(Rates {
            buckets: LruCache::with_hasher(alloc, room, keys)?,
            per_second,
        })
    }

    // The bucket of a peer; a full one if it is not known.
    fn bucket(&self, number: u128) -> Bucket
        ensures { result ≡ bucket_of self.now number }
    {
        self.buckets
            .peek(&number)
            .copied()
            .unwrap_or(Bucket::full(self.per_second))
    }

    /// How many more records of a peer may pass at a time, in milliseconds of any clock.
    pub fn room(&self, peer: IpAddr, now_millis: u64) -> u64
        ensures { result ≡ room_of self.now (number_of peer) now_millis }
    {
        let bucket = self.bucket(address_number(peer));
        bucket.room(self.per_second, now_millis)
    }

    /// How many of `count` records of a peer pass at a time, in milliseconds of any clock: as many as
    /// there is room for. A record that passes costs its peer a thousand thousandths of a record; each
    /// millisecond since the peer was last heard earns as many thousandths as records may pass in a
    /// second. It fails only when out of memory, and then nothing has changed.
    pub fn take(&mut self, peer: IpAddr, now_millis: u64, count: u64) -> Result<u64, AllocError>
        ensures passes { IfOk result (λ passed. passed
            ≡ lets_through self.old (number_of peer) now_millis count) }
        ensures heard { IfOk result (λ passed. heard_by self.new
            ≡ heard_after (heard_by self.old) (number_of peer)
            (bucket_after (rate_of self.old) (bucket_of self.old (number_of peer)) now_millis passed)) }
        ensures rate { rate_of self.new ≡ rate_of self.old }
        ensures err { OnErr result (heard_by self.new ≡ heard_by self.old) }
    {
        let number = address_number(peer);
        let (passed, bucket) = self.bucket(number).take(self.per_second, now_millis, count);
        self.buckets.put(number, bucket)?;
        Ok(passed)
    }
}
