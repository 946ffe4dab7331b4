//! Names of files in a folder.
ghost use Rattle.std.specs.Prelude.{◌≡◌, ◌↔◌, All, IfOk, IfSome, IsNone, IsTrue, List, ℕ};
ghost use Rattle.disk.specs.Names.{IsFileName, IsNameOctet};

use std::alloc::{AllocError, Global};
use std::marker::Model;

/// The most octets of a name.
pub const NAME_MAX: usize = 255;

/// The name of a file in a folder: 1 to `NAME_MAX` octets, none of them `/` or NUL, and neither
/// `.` nor `..`.
#[derive(Debug, Drop)]
pub struct FileName {
    octets: Vec<u8>,
}

impl Model for FileName {
    ghost Value = { List ℕ };

    ghost view = { λ n. n.octets.items };

    ghost invariant = { λ n. IsFileName n.octets.items };
}

fn are_name_octets(octets: &[u8]) -> bool
    ensures { IsTrue result ↔ All IsNameOctet octets.now }
{
    octets.iter().all(|octet| *octet != b'/' && *octet != 0)
}

fn is_file_name(octets: &[u8]) -> bool
    ensures { IsTrue result ↔ IsFileName octets.now }
{
    if octets.is_empty() || octets.len() > NAME_MAX {
        return false;
    }
    if octets == b".".as_slice() || octets == b"..".as_slice() {
        return false;
    }
    are_name_octets(octets)
}

impl FileName {
    /// The name with these octets, or `None` if they are no name. It fails only when out of memory.
    pub fn new(alloc: Global, octets: &[u8]) -> Result<Option<FileName>, AllocError>
        ensures value { IfOk result (λ found. IfSome found (λ name. name ≡ octets.now)) }
        ensures none { IfOk result (λ found. IsNone found ↔ ¬ IsFileName octets.now) }
    {
        if !is_file_name(octets) {
            return Ok(None);
        }
        Ok(Some(FileName {
            octets: octets.to_vec(alloc)?,
        }))
    }

    /// The octets of the name.
    pub fn as_octets(&self) -> &[u8]
        ensures value { result.now ≡ self.now }
        ensures valid { IsFileName self.now }
    {
        &self.octets
    }

    /// A copy in memory of its own. It fails only when out of memory.
    pub fn copy(&self, alloc: Global) -> Result<FileName, AllocError>
        ensures { IfOk result (λ name. name ≡ self.now) }
    {
        Ok(FileName {
            octets: self.octets.to_vec(alloc)?,
        })
    }
}
