//! The open connections of a collector.
ghost use Rattle.std.specs.Prelude.{◌≡◌, ◌≤◌, ◌<◌, ℕ, None, true, false, IfNone, IfOk, IfSome, OnErr, OnOk, max, min};

use crate::connection::Connection;
use crate::limits::{CONNECTIONS_LIMIT, CONNECTIONS_MAX};
use slab::Slab;
use std::alloc::{AllocError, Global};
use std::collections::HashMap;

/// Open connections, each found by its number in constant time. Each stays in its place until it is
/// closed; then another may take that place.
#[derive(Drop)]
pub struct Connections {
    pub(crate) slots: Slab<Connection>,
    // the place of each number that is open
    places: HashMap<u32, usize>,
    pub(crate) limit: usize,
    ghost many: { 64 ≤ limit },
    ghost few: { limit ≤ 16384 },
}

impl Connections {
    ghost use Rattle.syslog_collect.specs.Numbers.{Closes, HoldsAt, KeepsAll, Opens, connection_in, count_in};

    /// No open connections, and room for `limit` of them, from `CONNECTIONS_MAX` to
    /// `CONNECTIONS_LIMIT`; a number outside is taken for the nearest of these. It fails only when
    /// out of memory.
    pub fn new(alloc: Global, limit: usize) -> Result<Connections, AllocError>
        ensures none { IfOk result (λ cs. (d : ℕ) → connection_in cs d ≡ None) }
        ensures count { IfOk result (λ cs. count_in cs ≡ 0) }
        ensures limit { IfOk result (λ cs. cs.limit ≡ max CONNECTIONS_MAX (min limit CONNECTIONS_LIMIT)) }
        ensures room { IfOk result (λ cs. cs.limit ≤ cs.slots.capacity) }
    {
        let limit = limit.clamp(CONNECTIONS_MAX, CONNECTIONS_LIMIT);
        Ok(Connections {
            slots: Slab::with_capacity(alloc, limit)?,
            places: HashMap::with_capacity(alloc, limit)?,
            limit,
        })
    }

    /// The place of the connection with a number, if it is open.
    pub fn find(&self, number: u32) -> Option<usize>
        ensures found { IfSome result (HoldsAt self.now number) }
        ensures none { IfNone result (connection_in self.now number ≡ None) }
    {
        let place = *self.places.get(&number)?;
        if self.slots.get(place)?.number == number {
            return Some(place);
        }
        None
    }

    /// Whether as many connections are open as may be.
    pub fn is_full(&self) -> bool
        ensures full { result ≡ true → self.now.limit ≤ count_in self.now }
        ensures room { result ≡ false → count_in self.now < self.now.limit }
    {
        self.slots.len() >= self.limit
    }

    /// Opens a connection under its number. If an allocation fails, nothing changes.
    pub fn open(&mut self, connection: Connection) -> Result<(), AllocError>
        ensures ok { OnOk result (Opens self.old self.new connection) }
        ensures err { OnErr result (KeepsAll self.old self.new) }
    {
        let number = connection.number;
        let Ok(place) = self.slots.insert(connection) else {
            return Err(AllocError);
        };
        if self.places.insert(number, place).is_err() {
            let _refused = self.slots.try_remove(place);
            return Err(AllocError);
        }
        Ok(())
    }

    /// Closes the connection with a number, which is in this place.
    pub fn close(&mut self, number: u32, place: usize)
        requires { HoldsAt self.old number place }
        ensures { Closes self.old self.new number }
    {
        let _closed = self.slots.try_remove(place);
        let _place = self.places.remove(&number);
    }
}
