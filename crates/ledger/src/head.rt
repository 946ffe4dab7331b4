//! Where a ledger stands behind a line, and the line that continues it.

ghost use Rattle.std.specs.Prelude.{◌≡◌, ◌≢◌, ◌↔◌, ◌+◌, ◌<◌, ◌^◌, ℕ, List, IfOk, IsTrue, MatchOption, length, map};
ghost use Rattle.ledger.specs.Lines.{HasNumbers, IsWorded, Said, chain_behind as hash_behind, said_of};
ghost use Rattle.ledger.specs.Words.{IsHash, word_and};

use crate::body::{NAME_MAX, TIME_MAX, read_body};
use crate::entry::{Event, HASH_LEN, LedgerEntry};
use crate::words::{hash_of, is, is_hash, is_word};
use crate::writing::{put, put_body};
use sha2::{Digest, Sha256};
use std::alloc::{AllocError, Global};

/// The most octets of a line with its line feed.
pub const LINE_MAX: usize = 512;

/// Where a ledger stands behind a line: the number of the line, and the chain that it ends with.
#[derive(Clone, Copy, Debug, PartialEq, Eq)]
pub struct ChainHead {
    number: u64,
    chain: [u8; 64],
}

// The chain of a line: the SHA-256 of the chain before, a space, and the line up to its chain.
fn chain_behind(before: &[u8; 64], body: &[u8]) -> [u8; 64]
    ensures { result ≡ hash_behind before.now body.now }
{
    let mut hasher = Sha256::new();
    hasher.update(before);
    hasher.update(b" ");
    hasher.update(body);
    let mut chain = [0; HASH_LEN];
    let _ = hex::encode_to_slice(hasher.finalize(), &mut chain);
    chain
}

// A line up to the space before its chain, and the chain.
fn split_chain(line: &[u8]) -> Option<(&[u8], [u8; 64])>
    ensures { MatchOption result ((body chain : List ℕ) → IsHash chain → line.now ≢ word_and body chain)
        (λ x. IsHash x.1 × (line.now ≡ word_and x.0.now x.1)) }
{
    if line.len() <= HASH_LEN {
        return None;
    }
    let (body, end) = line.split_at(line.len() - HASH_LEN - 1);
    if end[0] != b' ' {
        return None;
    }
    let chain = hash_of(&end[1..])?;
    Some((body, chain))
}

// Whether a line can say this.
fn can_be_said(time: &[u8], entry: &LedgerEntry<'_>) -> bool
    ensures worded { IsTrue result ↔ IsWorded time.now (said_of entry.now) }
    ensures fits { HasNumbers (said_of entry.now) }
{
    let LedgerEntry {
        event,
        name,
        count: _count,
        octets: _octets,
    } = *entry;
    let is_rooted = match event {
        Event::Sealed(root) => is_hash(&root),
        _ => true,
    };
    is_rooted && is_word(time, TIME_MAX) && is_word(name, NAME_MAX)
}

impl ChainHead {
    ghost use Rattle.ledger.specs.Chains.{Continues, EndsAt, IsNextLine, start};
    ghost use Rattle.ledger.specs.Writing.{AreNextLines, AreWorded, PutsNext};
    ghost use Rattle.ledger.specs.declared.head.ChainHead.{ChainHead as Head};

    /// Before the first line: the number 0, and 64 zeros.
    pub fn start() -> ChainHead
        ensures { result ≡ start }
    {
        ChainHead {
            number: 0,
            chain: [b'0'; HASH_LEN],
        }
    }

    /// The number of the line.
    pub fn number(&self) -> u64
        ensures { result ≡ self.now.number }
    {
        self.number
    }

    /// The chain that the line ends with: 64 digits in lower-case hexadecimal.
    pub fn chain(&self) -> &[u8]
        ensures { result.now ≡ self.now.chain }
    {
        &self.chain
    }

    /// Where a ledger stands behind a line, given without its line feed, by the number and the chain
    /// that stand in the line: nothing is compared with the lines before it. `None` if it is no line.
    pub fn behind(line: &[u8]) -> Option<ChainHead>
        ensures { MatchOption result ((h : Head) → ¬ EndsAt h line.now) (λ h. EndsAt h line.now) }
    {
        let (body, chain) = split_chain(line)?;
        let (number, _entry) = read_body(body)?;
        if number == 0 {
            return None;
        }
        Some(ChainHead { number, chain })
    }

    /// Puts the next line with its line feed, of a time and what it says of a segment, behind a text, and gives
    /// where the ledger stands behind it. `None` if the time or the name is no word, the root is none, or no
    /// number is left; then nothing is put.
    pub fn put_next(
        &self,
        text: &mut Vec<u8>,
        time: &[u8],
        entry: &LedgerEntry<'_>,
    ) -> Result<Option<ChainHead>, AllocError>
        ensures { IfOk result (λ made. MatchOption made
            ((text.new.items ≡ text.old.items)
            × (self.now.number + 1 < 2 ^ 64 → ¬ IsWorded time.now (said_of entry.now)))
            (λ behind. PutsNext self.now time.now (said_of entry.now) text.old.items text.new.items behind)) }
    {
        if self.number == u64::MAX || !can_be_said(time, entry) {
            return Ok(None);
        }
        let start = text.len();
        let number = self.number + 1;
        put_body(text, number, time, entry)?;
        let chain = chain_behind(&self.chain, &text[start..]);
        put(text, b" ")?;
        put(text, &chain)?;
        put(text, b"\n")?;
        Ok(Some(ChainHead { number, chain }))
    }

    /// The next line with its line feed, of a time and what it says of a segment. `None` if the time or
    /// the name is no word, the root is none, or no number is left.
    pub fn next_line(
        &self,
        alloc: Global,
        time: &[u8],
        entry: &LedgerEntry<'_>,
    ) -> Result<Option<Vec<u8>>, AllocError>
        ensures { IfOk result (λ made. MatchOption made
            (self.now.number + 1 < 2 ^ 64 → ¬ IsWorded time.now (said_of entry.now))
            (λ text. IsNextLine self.now time.now (said_of entry.now) text.items)) }
    {
        let mut line = Vec::new(alloc);
        match self.put_next(&mut line, time, entry)? {
            Some(_) => Ok(Some(line)),
            None => Ok(None),
        }
    }

    /// The next lines, each with its line feed, all of one time, one for each entry; and where the ledger stands
    /// behind them. `None` if the time is no word, one of the entries cannot be said, or no number is left.
    pub fn next_lines(
        &self,
        alloc: Global,
        time: &[u8],
        entries: &[LedgerEntry<'_>],
    ) -> Result<Option<(Vec<u8>, ChainHead)>, AllocError>
        ensures { IfOk result (λ made. MatchOption made
            (self.now.number + length entries.now < 2 ^ 64 → ¬ AreWorded time.now entries.now)
            (λ x. AreNextLines self.now (map said_of entries.now) x.0.items x.1)) }
    {
        let mut text = Vec::new(alloc);
        let mut behind = *self;
        'entries: for entry in entries {
            match behind.put_next(&mut text, time, entry)? {
                Some(next) => behind = next,
                None => return Ok(None),
            }
        }
        Ok(Some((text, behind)))
    }

    /// What a line says, given without its line feed, and where the ledger stands behind it. `None` if
    /// it is no line, or does not continue the chain: its number is the next one, and its chain is
    /// right.
    pub fn follow<'a>(&self, line: &'a [u8]) -> Option<(LedgerEntry<'a>, ChainHead)>
        ensures { MatchOption result
            ((s : Said) (h : Head) → ¬ Continues self.now line.now s h)
            (λ x. Continues self.now line.now (said_of x.0) x.1) }
    {
        let (body, chain) = split_chain(line)?;
        if !is(&chain, &chain_behind(&self.chain, body)) {
            return None;
        }
        let (number, entry) = read_body(body)?;
        if self.number == u64::MAX || number != self.number + 1 {
            return None;
        }
        Some((entry, ChainHead { number, chain }))
    }
}
