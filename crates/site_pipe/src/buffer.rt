//! Octets that came and are not read yet.

ghost use Rattle.std.specs.Prelude.{◌≡◌, ◌≤◌, ◌++◌, [], OnErr, OnOk, drop, length};

use std::alloc::{AllocError, Global};
use std::marker::Model;

/// Octets that came and are not read yet. What was read is let go of where it is half of what is
/// kept, so each octet is moved a bounded number of times.
#[derive(Drop)]
pub struct Buffer {
    alloc: Global,
    octets: Vec<u8>,
    // those from here on are not read yet
    start: usize,
}

impl Model for Buffer {
    ghost use Rattle.std.specs.Prelude.{ℕ, List, ◌≤◌, drop, vec_len};

    ghost Value = { List ℕ };

    ghost view = { λ b. drop b.start b.octets.items };

    ghost invariant = { λ b. b.start ≤ vec_len b.octets };
}

impl Buffer {
    /// No octets.
    pub fn new(alloc: Global) -> Buffer
        ensures { result ≡ [] }
    {
        Buffer {
            alloc,
            octets: Vec::new(alloc),
            start: 0,
        }
    }

    /// The octets.
    pub fn as_slice(&self) -> &[u8]
        ensures { result.now ≡ self.now }
    {
        let (_, rest) = self.octets.as_slice().split_at(self.start);
        rest
    }

    /// So many were read.
    pub fn skip(&mut self, count: usize)
        requires { count ≤ length self.old }
        ensures { self.new ≡ drop count self.old }
    {
        self.start += count;
    }

    /// Puts octets behind the others. When out of memory they are as before.
    pub fn push(&mut self, octets: &[u8]) -> Result<(), AllocError>
        ensures ok { OnOk result (self.new ≡ self.old ++ octets.now) }
        ensures err { OnErr result (self.new ≡ self.old) }
    {
        if self.start > 0 && self.start >= self.octets.len() - self.start {
            self.octets = Vec::from_slice(self.alloc, self.as_slice())?;
            self.start = 0;
        }
        self.octets.extend_from_slice(octets)
    }
}
