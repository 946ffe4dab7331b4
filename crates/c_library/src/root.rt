//! The root of an archive's Merkle tree (RFC 9162, section 2.1.1).

ghost use Rattle.std.specs.Prelude.{◌≡◌, ◌⊎◌, pos};
ghost use Rattle.archive_tree.specs.Archives.{IsRootOf};
ghost use Rattle.c_library.specs.Roots.{HasRoot};
ghost use Rattle.c_library.specs.Unions.{IsNoArchive};

use crate::archives::archive_of;
use crate::fault::SyslogboxFault;
use crate::numbers::NO_FIELD;
use archive_tree::{TreeHead, TreeStream};
use archive_vec::VecArchive;
use std::alloc::Global;

/// How many records an archive has, and the hash of its Merkle tree.
#[repr(C)]
#[derive(Clone, Copy)]
pub struct SyslogboxRoot {
    /// How many records it has.
    pub count: u64,
    /// Their Merkle tree hash.
    pub hash: [u8; 32],
}

/// The head of the tree of an archive's records.
fn head_of(archive: &VecArchive) -> TreeHead
    ensures { IsRootOf result archive.now.list }
{
    let mut tree = TreeStream::new();
    'entries: for index in 0..archive.len() {
        let Some(octets) = archive.get(index) else {
            unreachable!()
        };
        tree.push(octets, &mut []);
    }
    tree.finish(&mut [])
}

/// Shows how many records an archive has and their Merkle tree hash, and returns 1; or 0 and why the text is
/// no archive, with the root left as it was.
#[unsafe(no_mangle)]
pub extern "C" fn syslogbox_proved_root(
    alloc: Global,
    text: &[u8],
    root: &mut SyslogboxRoot,
    fault: &mut SyslogboxFault,
) -> i32
    ensures answer { (result ≡ pos 1) ⊎ (result ≡ pos 0) }
    ensures root { result ≡ pos 1 → HasRoot text.now root.new }
    ensures same { result ≡ pos 1 → fault.new ≡ fault.old }
    ensures fault { result ≡ pos 0 → IsNoArchive 0 text.now fault.new }
    ensures left { result ≡ pos 0 → root.new ≡ root.old }
{
    match archive_of(alloc, NO_FIELD, text) {
        Ok(archive) => {
            let TreeHead { size, hash } = head_of(&archive);
            *root = SyslogboxRoot { count: size, hash };
            1
        }
        Err(cause) => {
            *fault = cause;
            0
        }
    }
}
