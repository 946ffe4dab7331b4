//! What a reader gave and has not been used yet.

ghost use Rattle.std.specs.Prelude.{◌≡◌, ◌≤◌, ◌<◌, ◌+◌, ◌++◌, [], length, drop, take, false};
ghost use Rattle.std.specs.Prelude.{IfOk, IsTrue, IsErrOf, OnErr, vec_capacity, vec_len};
ghost use Rattle.octet_devices.specs.declared.loops.TheConstants.{READER_CALLS};
ghost use Rattle.archive_streams.specs.declared.pieces.TheConstants.{ENTRIES_READ_MAX};

use crate::fault::InputFault;
use octet_devices::{DeviceFault, Input, READER_CALLS};
use std::alloc::{AllocError, Global};

/// The most octets that [`ArchiveEntries`](crate::ArchiveEntries) asks of a reader per call.
pub const ENTRIES_READ_MAX: usize = 262_144;

/// The octets of a reader, a piece at a time.
#[derive(Drop)]
pub struct Pieces {
    /// The last piece, in a vector of as many octets as a piece has at most.
    pub piece: Vec<u8>,
    /// Where in it the octets begin that have not been used yet.
    pub start: usize,
    /// Where in it they end.
    pub end: usize,
    /// How often the reader was called.
    pub calls: u64,
    /// How often it gave its end: 0 or 1.
    pub ends: u64,
    pub ghost some: { 0 < vec_len piece },
    pub ghost most: { vec_len piece ≤ ENTRIES_READ_MAX },
    pub ghost order: { start ≤ end },
    pub ghost within: { end ≤ vec_len piece },
    pub ghost few: { calls ≤ READER_CALLS },
    pub ghost once: { ends ≤ 1 },
}

impl Pieces {
    ghost use Rattle.archive_streams.specs.Pieces.{unused, size_of, FailuresOf, ReadsOn, TakesMore};

    /// The pieces of a reader before its first call. Room for a piece of `size` octets is reserved;
    /// it fails only when out of memory.
    pub fn new(alloc: Global, size: usize) -> Result<Pieces, AllocError>
        requires some { 0 < size }
        requires most { size ≤ ENTRIES_READ_MAX }
        ensures size { IfOk result (λ p. size_of p ≡ size) }
        ensures unused { IfOk result (λ p. unused p ≡ []) }
        ensures calls { IfOk result (λ p. p.calls ≡ 0) }
        ensures ends { IfOk result (λ p. p.ends ≡ 0) }
    {
        Ok(Pieces {
            piece: vec![in alloc; 0u8; size]?,
            start: 0,
            end: 0,
            calls: 0,
            ends: 0,
        })
    }

    /// The octets that have not been used yet.
    pub fn rest(&self) -> &[u8]
        ensures { result.now ≡ unused self.now }
    {
        &self.piece[self.start..self.end]
    }

    /// Calls the reader if all octets are used, and tells whether there are any then. At the end
    /// there are none, and the reader is not called again. It fails as the variants of
    /// [`InputFault`] say.
    pub fn fill<R: Input>(&mut self, reader: &mut R) -> Result<bool, InputFault>
        ensures reads { ReadsOn self.old self.new
            (R.state reader.old) (R.state reader.new)
            (unused self.old) (unused self.new) }
        ensures failures { FailuresOf result (R.state reader.old).failures
            (R.state reader.new).failures }
        ensures some { IfOk result (λ some. IsTrue some → 0 < length (unused self.new)) }
        ensures end { IfOk result (λ some. some ≡ false →
            (unused self.new ≡ []) × (0 < self.new.ends)) }
        ensures none { OnErr result (unused self.new ≡ []) }
        ensures endless { IsErrOf result InputFault.Endless →
            (self.new.calls ≡ READER_CALLS) × (self.new.ends ≡ 0) }
    {
        if self.start < self.end {
            return Ok(true);
        }
        if self.ends > 0 {
            return Ok(false);
        }
        if self.calls == READER_CALLS {
            return Err(InputFault::Endless);
        }
        self.start = 0;
        self.end = 0;
        self.calls += 1;
        match reader.read(&mut self.piece) {
            Ok(n) => {
                self.end = n;
                if n == 0 {
                    self.ends = 1;
                    return Ok(false);
                }
                Ok(true)
            }
            Err(DeviceFault) => Err(InputFault::Device),
        }
    }

    /// Moves octets, `most` at most, behind a text, and tells whether there were any. There are
    /// none only at the end. It fails as the variants of [`InputFault`] say.
    pub fn take<R: Input>(
        &mut self,
        reader: &mut R,
        text: &mut Vec<u8>,
        most: usize,
    ) -> Result<bool, InputFault>
        requires some { 0 < most }
        requires room { vec_len text.old + most ≤ vec_capacity text.old }
        ensures reads { ReadsOn self.old self.new
            (R.state reader.old) (R.state reader.new)
            (text.old.items ++ unused self.old) (text.new.items ++ unused self.new) }
        ensures failures { FailuresOf result (R.state reader.old).failures
            (R.state reader.new).failures }
        ensures room { vec_capacity text.old ≤ vec_capacity text.new }
        ensures some { IfOk result (λ some. IsTrue some →
            TakesMore most text.old.items text.new.items) }
        ensures end { IfOk result (λ some. some ≡ false → (unused self.new ≡ [])
            × (0 < self.new.ends) × (text.new.items ≡ text.old.items)) }
        ensures none { OnErr result ((unused self.new ≡ []) × (text.new.items ≡ text.old.items)) }
        ensures endless { IsErrOf result InputFault.Endless →
            (self.new.calls ≡ READER_CALLS) × (self.new.ends ≡ 0) }
    {
        if !self.fill(reader)? {
            return Ok(false);
        }
        let used = self.rest().len().min(most);
        self.move_behind(text, used);
        Ok(true)
    }

    /// Moves the next `used` octets behind a text.
    pub fn move_behind(&mut self, text: &mut Vec<u8>, used: usize)
        requires within { used ≤ length (unused self.old) }
        requires room { vec_len text.old + used ≤ vec_capacity text.old }
        ensures text { text.new.items ≡ text.old.items ++ take used (unused self.old) }
        ensures unused { unused self.new ≡ drop used (unused self.old) }
        ensures size { size_of self.new ≡ size_of self.old }
        ensures calls { self.new.calls ≡ self.old.calls }
        ensures ends { self.new.ends ≡ self.old.ends }
        ensures room { vec_capacity text.old ≤ vec_capacity text.new }
    {
        append(text, &self.rest()[..used]);
        self.start += used;
    }
}

// Copies octets behind a text that has room for them.
fn append(text: &mut Vec<u8>, octets: &[u8])
    requires { vec_len text.old + length octets.now ≤ vec_capacity text.old }
    ensures items { text.new.items ≡ text.old.items ++ octets.now }
    ensures room { vec_capacity text.old ≤ vec_capacity text.new }
{
    let _ = text.extend_from_slice(octets);
}
