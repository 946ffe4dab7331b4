//! Proofs are written.

ghost use Rattle.std.specs.Prelude.{◌≡◌, ◌++◌, ◌∷◌, [], List, OnOk, codes, decimal};
ghost use Rattle.std.specs.List.{flat_map};
ghost use Rattle.archive_proof.specs.Texts.{beside_text, hash_line, path_text, proof_text, side_text};

use crate::proof::{Neighbour, Proof};
use archive_tree::{AuditPath, Hash};
use itoa::Buffer;
use std::alloc::AllocError;

/// The most octets of the text of a proof whose neighbours are entries of an archive.
pub const PROOF_MAX: usize = 1_057_060;

pub(crate) fn put(text: &mut Vec<u8>, octets: &[u8]) -> Result<(), AllocError>
    ensures { OnOk result (text.new.items ≡ text.old.items ++ octets.now) }
{
    text.extend_from_slice(octets)
}

// Puts a number, and an octet.
fn put_number(text: &mut Vec<u8>, number: u64, end: &[u8]) -> Result<(), AllocError>
    ensures { OnOk result (text.new.items ≡ text.old.items ++ (decimal number ++ end.now)) }
{
    put(text, Buffer::new().format(number).as_bytes())?;
    put(text, end)
}

fn put_hash(text: &mut Vec<u8>, hash: &Hash) -> Result<(), AllocError>
    ensures { OnOk result (text.new.items ≡ text.old.items ++ hash_line hash.now) }
{
    let mut digits = [0; 64];
    let _ = hex::encode_to_slice(hash, &mut digits);
    put(text, &digits)?;
    put(text, b"\n")
}

fn put_hashes(text: &mut Vec<u8>, hashes: &[Hash]) -> Result<(), AllocError>
    ensures { OnOk result (text.new.items ≡ text.old.items ++ flat_map hash_line hashes.now) }
{
    for hash in hashes {
        put_hash(text, hash)?;
    }
    Ok(())
}

fn put_path(text: &mut Vec<u8>, path: &AuditPath) -> Result<(), AllocError>
    ensures { OnOk result (text.new.items ≡ text.old.items ++ path_text path.now) }
{
    let hashes = path.hashes.as_slice();
    put_number(text, path.index, b" ")?;
    put_number(text, hashes.len() as u64, b"\n")?;
    put_hashes(text, hashes)
}

// Puts the neighbour of these octets and this path.
pub(crate) fn put_neighbour(
    text: &mut Vec<u8>,
    octets: &[u8],
    path: &AuditPath,
) -> Result<(), AllocError>
    ensures { OnOk result (text.new.items ≡ text.old.items ++ beside_text octets.now path.now) }
{
    put_number(text, octets.len() as u64, b" ")?;
    put(text, octets)?;
    put(text, b"\n")?;
    put_path(text, path)
}

// Puts the proof that a record with this path is there.
pub(crate) fn put_present(text: &mut Vec<u8>, path: &AuditPath) -> Result<(), AllocError>
    ensures { OnOk result (text.new.items
        ≡ text.old.items ++ codes "present " ++ path_text path.now ++ 10 ∷ []) }
{
    put(text, b"present ")?;
    put_path(text, path)?;
    put(text, b"\n")
}

// Puts the word and the neighbour, if there is one.
fn put_side(
    text: &mut Vec<u8>,
    word: &[u8],
    neighbour: &Option<Neighbour>,
) -> Result<(), AllocError>
    ensures { OnOk result (text.new.items ≡ text.old.items ++ side_text word.now neighbour.now) }
{
    let Some(neighbour) = neighbour else {
        return Ok(());
    };
    put(text, word)?;
    put_neighbour(text, neighbour.octets.as_slice(), &neighbour.path)
}

/// Writes a proof behind a text, as docs/PROOF_FORMAT.md has it. It fails only when out of memory.
pub fn put_proof(text: &mut Vec<u8>, proof: &Proof) -> Result<(), AllocError>
    ensures { OnOk result (text.new.items ≡ text.old.items ++ proof_text proof.now) }
{
    match proof {
        Proof::Present(path) => put_present(text, path),
        Proof::Absent(before, behind) => {
            put(text, b"absent\n")?;
            put_side(text, b"before ", before)?;
            put_side(text, b"behind ", behind)?;
            put(text, b"\n")
        }
    }
}
