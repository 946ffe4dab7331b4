//! The names of structured data (RFC 5424, section 6.3).
ghost use Rattle.std.specs.Prelude.{◌≡◌, ◌≤◌, IfOk, IfErr, MatchOption, ℕ, List};
ghost use Rattle.std.specs.List.{AllByRecursion};
ghost use Rattle.syslog_value.specs.Parts.{IsName, IsNameOctet};
ghost use Rattle.syslog_value.specs.Words.{IsNameFault, IsFirstBad};

use crate::WordFault;
use std::alloc::{AllocError, Global};
use std::marker::Model;

/// SD-NAME (RFC 5424, section 6): one to 32 printable octets of ASCII other than the space, "=",
/// "]" and the quotation mark.
#[derive(Debug, Drop)]
pub struct SdName {
    octets: Vec<u8>,
}

impl Model for SdName {
    ghost Value = { List ℕ };

    ghost view = { λ n. n.octets.items };

    ghost invariant = { λ n. IsName n.octets.items };
}

impl SdName {
    /// The most octets of a name.
    pub const MOST: usize = 32;

    /// The name of these octets. The refusals come in the order of the variants of [`WordFault`],
    /// of which `Nil` never comes.
    pub fn new(alloc: Global, octets: &[u8]) -> Result<SdName, WordFault>
        ensures ok { IfOk result (λ name. IsName octets.now × (name ≡ octets.now)) }
        ensures err { IfErr result (IsNameFault octets.now) }
    {
        if octets.is_empty() {
            return Err(WordFault::Empty);
        }
        if octets.len() > SdName::MOST {
            return Err(WordFault::TooLong);
        }
        if let Some(offset) = first_outside_names(octets) {
            return Err(WordFault::BadOctet { offset });
        }
        Ok(SdName {
            octets: octets.to_vec(alloc)?,
        })
    }

    /// The octets of the name.
    pub fn bytes(&self) -> &[u8]
        ensures value { result.now ≡ self.now }
        ensures valid { IsName self.now }
    {
        self.octets.as_slice()
    }

    /// A copy in memory of its own. It fails only when out of memory.
    pub fn copy(&self, alloc: Global) -> Result<SdName, AllocError>
        ensures { IfOk result (λ name. name ≡ self.now) }
    {
        Ok(SdName {
            octets: self.octets.as_slice().to_vec(alloc)?,
        })
    }
}

impl PartialEq for SdName {
    ghost use Rattle.std.specs.Prelude.{◌≡◌, ◌↔◌, IsTrue};
    ghost use Rattle.std.specs.Cmp.Rules.{comparing};
    ghost use Rattle.std.proofs.Common.{rules};
    ghost use Rattle.std.specs.Str.{bytes_eq};

    ghost eq = { bytes_eq };

    ghost laws = { Prim.search (comparing, rules) };

    fn eq(&self, other: &SdName) -> bool
        ensures value { result ≡ bytes_eq self.now other.now }
        ensures same { IsTrue result ↔ (self.now ≡ other.now) }
    {
        self.octets == other.octets
    }
}

impl Eq for SdName {
    ghost use Rattle.std.specs.Cmp.Rules.{comparing};
    ghost use Rattle.std.proofs.Common.{rules};

    ghost laws = { Prim.search (comparing, rules) };
}

// the offset of the first octet that a name may not contain
fn first_outside_names(octets: &[u8]) -> Option<usize>
    ensures { MatchOption result (AllByRecursion IsNameOctet octets.now)
        (IsFirstBad IsNameOctet octets.now) }
{
    for (offset, octet) in octets.iter().enumerate() {
        if !octet.is_ascii_graphic() || matches!(octet, b'=' | b']' | b'"') {
            return Some(offset);
        }
    }
    None
}
