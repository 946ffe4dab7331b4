//! Room for the texts of stores, allocated once, so that a look at a store takes no memory.

use crate::collecting::put_text;
use archive_text::Store;
use std::alloc::{AllocError, Global};

/// More than the text of any store of these trials has.
const ROOM: usize = 65_536;

/// The text of a store before a call, and room for its text after it.
#[derive(Drop)]
pub struct Room {
    alloc: Global,
    before: Vec<u8>,
    after: Vec<u8>,
}

impl Room {
    /// Room for two texts. It fails only when out of memory.
    pub fn new(alloc: Global) -> Result<Room, AllocError> {
        Ok(Room {
            alloc,
            before: Vec::with_capacity(alloc, ROOM)?,
            after: Vec::with_capacity(alloc, ROOM)?,
        })
    }

    /// Keeps the text of a store before a call.
    pub fn keep<S: Store>(&mut self, store: &S) {
        let _ = put_text(self.alloc, store, &mut self.before);
    }

    /// Whether the store is as it was when it was kept.
    pub fn is_kept<S: Store>(&mut self, store: &S) -> bool {
        put_text(self.alloc, store, &mut self.after) && self.after == self.before
    }

    /// What is told of a call that answered out of memory: whether the store is as it was when it
    /// was kept.
    pub fn left<S: Store>(&mut self, store: &S) -> &'static str {
        if self.is_kept(store) {
            "memory, unchanged; "
        } else {
            "memory, changed; "
        }
    }

    /// Whether the text of a store is this one.
    pub fn is_text<S: Store>(&mut self, store: &S, text: &[u8]) -> bool {
        put_text(self.alloc, store, &mut self.after) && self.after.as_slice() == text
    }

    /// What is told of a write that failed: whether what was taken is a prefix of the text that was
    /// kept, as long as the answer says.
    pub fn prefix(&self, taken: &[u8], sent: u64) -> &'static str {
        if self.before.starts_with(taken) && taken.len() as u64 == sent {
            "the writer failed after a prefix; "
        } else {
            "the writer took something else; "
        }
    }
}
