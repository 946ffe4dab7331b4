//! Words of printable octets (RFC 5424, section 6.2).
ghost use Rattle.std.specs.Prelude.{◌≡◌, ◌≤◌, IfOk, IfErr, MatchOption, ℕ, List};
ghost use Rattle.std.specs.List.{AllByRecursion};
ghost use Rattle.syslog_value.specs.Parts.{IsWord, IsPrintable};
ghost use Rattle.syslog_value.specs.Words.{IsWordFault, IsFirstBad};

use std::alloc::{AllocError, Global};
use std::marker::Model;
use thiserror::Error;

/// Why octets are no word, or no name: the first of these that holds.
#[derive(Clone, Copy, Debug, PartialEq, Eq, Error)]
pub enum WordFault {
    /// There are no octets.
    #[error("there are no octets")]
    Empty,
    /// The one octet "-", the NILVALUE, which stands for a missing word.
    #[error("the single octet - is not a word")]
    Nil,
    /// There are more octets than the word or the name may have.
    #[error("there are too many octets")]
    TooLong,
    /// The octet at this offset, counted from 0, is the first that is not allowed.
    #[error("the octet at {offset} is not allowed")]
    BadOctet { offset: usize },
    /// An allocation failed.
    #[error("out of memory")]
    Memory,
}

impl From<AllocError> for WordFault {
    ghost use Rattle.std.specs.Prelude.{◌≡◌};
    ghost use Rattle.syslog_value.specs.declared.word.WordFault.TheVariants.{Memory};

    ghost from_gives = { λ _ fault. fault ≡ Memory };

    fn from(_: AllocError) -> WordFault {
        WordFault::Memory
    }
}

/// One to N printable octets of ASCII other than the space, and not the one octet "-".
#[derive(Debug, Drop)]
pub struct Word<const N: usize> {
    octets: Vec<u8>,
}

impl<const N: usize> Model for Word<N> {
    ghost Value = { List ℕ };

    ghost view = { λ w. w.octets.items };

    ghost invariant = { λ w. IsWord N w.octets.items };
}

impl<const N: usize> Word<N> {
    /// The word of these octets. The refusals come in the order of the variants of [`WordFault`].
    pub fn new(alloc: Global, octets: &[u8]) -> Result<Word<N>, WordFault>
        ensures ok { IfOk result (λ word. IsWord N octets.now × (word ≡ octets.now)) }
        ensures err { IfErr result (IsWordFault N octets.now) }
    {
        match octets {
            [] => return Err(WordFault::Empty),
            b"-" => return Err(WordFault::Nil),
            _ if octets.len() > N => return Err(WordFault::TooLong),
            _ => {}
        }
        if let Some(offset) = first_unprintable(octets) {
            return Err(WordFault::BadOctet { offset });
        }
        Ok(Word {
            octets: octets.to_vec(alloc)?,
        })
    }

    /// The octets of the word.
    pub fn bytes(&self) -> &[u8]
        ensures value { result.now ≡ self.now }
        ensures valid { IsWord N self.now }
    {
        self.octets.as_slice()
    }

    /// A copy in memory of its own. It fails only when out of memory.
    pub fn copy(&self, alloc: Global) -> Result<Word<N>, AllocError>
        ensures { IfOk result (λ word. word ≡ self.now) }
    {
        Ok(Word {
            octets: self.octets.as_slice().to_vec(alloc)?,
        })
    }
}

impl<const N: usize> PartialEq for Word<N> {
    ghost use Rattle.std.specs.Prelude.{◌≡◌, ◌↔◌, IsTrue};
    ghost use Rattle.std.specs.Cmp.Rules.{comparing};
    ghost use Rattle.std.proofs.Common.{rules};
    ghost use Rattle.std.specs.Str.{bytes_eq};

    ghost eq = { bytes_eq };

    ghost laws = { Prim.search (comparing, rules) };

    fn eq(&self, other: &Word<N>) -> bool
        ensures value { result ≡ bytes_eq self.now other.now }
        ensures same { IsTrue result ↔ (self.now ≡ other.now) }
    {
        self.octets == other.octets
    }
}

impl<const N: usize> Eq for Word<N> {
    ghost use Rattle.std.specs.Cmp.Rules.{comparing};
    ghost use Rattle.std.proofs.Common.{rules};

    ghost laws = { Prim.search (comparing, rules) };
}

// the offset of the first octet that is not printable
fn first_unprintable(octets: &[u8]) -> Option<usize>
    ensures { MatchOption result (AllByRecursion IsPrintable octets.now)
        (IsFirstBad IsPrintable octets.now) }
{
    for (offset, octet) in octets.iter().enumerate() {
        if !octet.is_ascii_graphic() {
            return Some(offset);
        }
    }
    None
}
