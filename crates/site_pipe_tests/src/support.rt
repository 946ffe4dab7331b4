//! Sets, and pipes in memory.

use octet_devices::{FromRead, ToWrite};
use reconcile::{MemorySet, Place, Range};
use site_pipe::{PipeFault, Traffic, answer};
use std::alloc::Global;
use std::io::Read;
use std::test::Fail;

/// A reader that gives at most so many octets per call.
#[derive(Drop)]
pub struct Pieces<'a> {
    octets: &'a [u8],
    size: usize,
}

impl Read for Pieces<'_> {
    fn read(&mut self, buf: &mut [u8]) -> std::io::Result<usize> {
        let len = buf.len().min(self.size);
        self.octets.read(&mut buf[..len])
    }
}

/// An input that gives at most so many octets per call.
pub fn in_pieces(octets: &[u8], size: usize) -> FromRead<Pieces<'_>> {
    FromRead::new(Pieces { octets, size })
}

/// The range of all places.
pub fn whole(alloc: Global) -> Range {
    Range {
        low: Place::first(alloc),
        high: None,
    }
}

/// A set of the records `<0>1 - - - - - - ` and each number of these.
pub fn set_of(alloc: Global, numbers: &[usize]) -> Result<MemorySet, Fail> {
    let mut set = MemorySet::new(alloc);
    for number in numbers {
        let text = format!(in alloc; "<0>1 - - - - - - {number:05}")?;
        set.insert(text.as_bytes()).ok().ok_or("not inserted")?;
    }
    Ok(set)
}

/// What a set answers to requests that come in pieces of a size, and how that ends.
pub fn answers_to(
    alloc: Global,
    set: &mut MemorySet,
    is_read_only: bool,
    room: u64,
    requests: &[u8],
    size: usize,
) -> (Vec<u8>, Result<Traffic, PipeFault>) {
    let mut text = Vec::new(alloc);
    let input = in_pieces(requests, size);
    let output = ToWrite::new(&mut text);
    let end = answer(alloc, set, is_read_only, room, input, output);
    (text, end)
}
