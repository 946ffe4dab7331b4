//! The line of a head, and that of octets behind the last proof.

ghost use Rattle.std.specs.Prelude.{◌≡◌, ◌++◌, ◌∷◌, [], ◌+◌, ◌≤◌, decimal, length};
ghost use Rattle.hex.specs.Hex.{encode_lower};
ghost use Rattle.proof_engine.specs.Confirmed.{trailing_text};
ghost use Rattle.proof_engine.specs.Rooted.{head_text};

use archive_tree::{Hash, TreeHead};
use arrayvec::ArrayVec;
use itoa::Buffer;

// The length of the longest line: twenty digits, a space, a hash and a line feed.
const LINE_MAX: usize = 86;

fn hexadecimal(hash: &Hash) -> [u8; 64]
    ensures value { result ≡ encode_lower hash.now }
    ensures size { length result ≡ 64 }
{
    let mut digits = [0; 64];
    let _ = hex::encode_to_slice(hash, &mut digits);
    digits
}

fn append(line: &mut ArrayVec<u8, LINE_MAX>, octets: &[u8])
    ensures { length line.old.items + length octets.now ≤ 86
        → line.new.items ≡ line.old.items ++ octets.now }
{
    let _ = line.try_extend_from_slice(octets);
}

/// The line of a head: how many entries there are, a space, their Merkle tree hash in lower-case
/// hexadecimal, and a line feed.
pub(crate) fn head_line(head: &TreeHead) -> ArrayVec<u8, LINE_MAX>
    ensures { result.items ≡ head_text head.now }
{
    let mut line = ArrayVec::new();
    append(&mut line, Buffer::new().format(head.size).as_bytes());
    append(&mut line, b" ");
    append(&mut line, &hexadecimal(&head.hash));
    append(&mut line, b"\n");
    line
}

/// The line on octets that follow the last proof: `trailing`, a space, how many octets come before
/// them, and a line feed.
pub(crate) fn trailing_line(at: u64) -> ArrayVec<u8, LINE_MAX>
    ensures { result.items ≡ trailing_text at }
{
    let mut told = ArrayVec::new();
    append(&mut told, b"trailing ");
    append(&mut told, Buffer::new().format(at).as_bytes());
    append(&mut told, b"\n");
    told
}
