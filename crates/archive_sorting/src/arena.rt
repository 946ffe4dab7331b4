//! The octets of entries, in few large blocks that grow only at their end. Each entry lies there
//! behind its length, which takes four octets.

ghost use Rattle.std.specs.Prelude.{◌≡◌, ◌<◌, ◌≤◌, ◌+◌, ◌++◌, ◌^◌, [], length, drop, IfOk};
ghost use Rattle.archive_sorting.specs.Spans.{IsWithin, Keeps, block_at, blocks_of};
ghost use Rattle.archive_sorting.specs.Spans.{entry_at, lists_of, octets_at, ranked, stored, stored_in};
ghost use Rattle.archive_sorting.specs.Spans.{stored_len};

use archive_text::ENTRY_MAX;
use std::alloc::{AllocError, Global};

// the capacity of a block, which each entry fits
const BLOCK: usize = 1_048_576;

// how many octets the length of an entry has
const PREFIX: usize = 4;

/// An entry: the rank of its instant, and where its length and octets are in an arena.
#[derive(Clone, Copy, Debug)]
pub struct Span {
    /// The rank of its instant, 0 for none.
    pub rank: u64,
    /// The index of the block that it lies in.
    pub block: u32,
    /// The offset of its length in that block, in octets.
    pub start: u32,
}

/// Blocks of octets.
#[derive(Debug, Drop)]
pub struct Arena {
    blocks: Vec<Vec<u8>>,
}

// The index of a block with room for so many octets: the last one, or a new one.
fn block_with_room(
    alloc: Global,
    blocks: &mut Vec<Vec<u8>>,
    len: usize,
) -> Result<usize, AllocError>
    requires { len ≤ BLOCK }
    ensures index { IfOk result (λ k. (k < length blocks.new.items) × (k < 2 ^ 32)) }
    ensures room { IfOk result (λ k.
        length (block_at (lists_of blocks.new.items) k) + len ≤ BLOCK) }
    ensures keeps { Keeps (lists_of blocks.old.items) (lists_of blocks.new.items) }
{
    let count = blocks.len();
    if count > u32::MAX as usize {
        return Err(AllocError);
    }
    if count > 0 && blocks[count - 1].len() <= BLOCK - len {
        return Ok(count - 1);
    }
    let block = Vec::with_capacity(alloc, BLOCK)?;
    blocks.push(block)?;
    Ok(count)
}

// Appends octets behind their length to a block, and answers where they start in it.
fn append(blocks: &mut Vec<Vec<u8>>, k: usize, octets: &[u8]) -> Result<usize, AllocError>
    requires within { k < length blocks.old.items }
    requires short { length octets.now < 2 ^ 32 }
    ensures start { IfOk result (λ start.
        start ≡ length (block_at (lists_of blocks.old.items) k)) }
    ensures count { length blocks.new.items ≡ length blocks.old.items }
    ensures octets { IfOk result (λ _. block_at (lists_of blocks.new.items) k
        ≡ block_at (lists_of blocks.old.items) k ++ stored octets.now) }
    ensures keeps { Keeps (lists_of blocks.old.items) (lists_of blocks.new.items) }
{
    let prefix = (octets.len() as u32).to_le_bytes();
    let block = &mut blocks[k];
    let start = block.len();
    block.extend_from_slice(&prefix)?;
    block.extend_from_slice(octets)?;
    Ok(start)
}

// The length that a text begins with.
fn read_len(text: &[u8]) -> usize
    requires { PREFIX ≤ length text.now }
    ensures value { result ≡ stored_len text.now }
    ensures fits { result < 2 ^ 32 }
{
    u32::from_le_bytes([text[0], text[1], text[2], text[3]]) as usize
}

// The octets that lie in a block behind their length, which begins at this place.
#[inline]
fn stored_from(block: &[u8], start: usize) -> &[u8]
    ensures { result.now ≡ stored_in (drop start block.now) }
{
    if block.len().saturating_sub(start) < PREFIX {
        return &[];
    }
    let (_, text) = block.split_at(start);
    let rest = &text[PREFIX..];
    let len = read_len(text).min(rest.len());
    &rest[..len]
}

impl Arena {
    /// An arena of no blocks, which takes no memory.
    pub fn new(alloc: Global) -> Arena
        ensures { blocks_of result ≡ [] }
    {
        Arena {
            blocks: Vec::new(alloc),
        }
    }

    /// The octets of a span; of one that does not lie within the blocks, those that are there.
    #[inline]
    pub fn octets(&self, span: Span) -> &[u8]
        ensures { result.now ≡ octets_at (blocks_of self.now) span }
    {
        match self.blocks.get(span.block as usize) {
            None => &[],
            Some(block) => stored_from(block, span.start as usize),
        }
    }

    /// How many blocks there are.
    pub fn len(&self) -> usize {
        self.blocks.len()
    }

    /// Copies the octets of an entry of this rank, and gives its span. All other entries stay where
    /// they are. It fails only when out of memory.
    pub fn push(&mut self, alloc: Global, rank: u64, octets: &[u8]) -> Result<Span, AllocError>
        requires { length octets.now ≤ ENTRY_MAX }
        ensures within { IfOk result (λ s. IsWithin (blocks_of self.new) s) }
        ensures value { IfOk result (λ s. entry_at (blocks_of self.new) s ≡ ranked rank octets.now) }
        ensures keeps { Keeps (blocks_of self.old) (blocks_of self.new) }
    {
        let size = PREFIX + octets.len();
        let block = block_with_room(alloc, &mut self.blocks, size)?;
        let start = append(&mut self.blocks, block, octets)?;
        Ok(Span {
            rank,
            block: block as u32,
            start: start as u32,
        })
    }
}
