//! What a lock's file tells of a sync that failed, and since when the machine runs.
ghost use Rattle.std.specs.Prelude.{◌≡◌, ◌≢◌, ◌↔◌, ◌++◌, ◌∷◌, [], List, ℕ, IfNone, IfSome, IfOk, IsTrue, codes};
ghost use Rattle.folder_disk.specs.Boots.{IsAt, IsBootId, IsOfOtherRun, IsOtherRun, IsSoundNote};
ghost use Rattle.folder_disk.specs.Boots.{TellsOfBoot};
ghost use Rattle.folder_disk.specs.Boots.{failed_note, sound_note};

use std::alloc::{AllocError, Global};
use std::fs;
use std::io::Read;
use std::rt::Files;

// what Linux calls its run since the machine was started
const BOOT_ID: &str = "/proc/sys/kernel/random/boot_id";

/// The most octets of a note that are read.
pub(crate) const NOTE_MAX: usize = 128;

const FAILED: &[u8] = b"failed ";

const SYNCED: &[u8] = b"synced ";

// the octets of what Linux calls a run: a UUID
const BOOT_ID_LEN: usize = 36;

// Whether an octet may be at a place of a UUID (RFC 9562, section 4) in lower case.
fn is_at(place: usize, octet: u8) -> bool
    ensures { IsTrue result ↔ IsAt place octet }
{
    match place {
        8 | 13 | 18 | 23 => octet == b'-',
        _ => matches!(octet, b'0'..=b'9' | b'a'..=b'f'),
    }
}

// Whether this is what Linux may call a run.
fn is_boot_id(id: &[u8]) -> bool
    ensures { IsTrue result ↔ IsBootId id.now }
{
    if id.len() != BOOT_ID_LEN {
        return false;
    }
    for (place, octet) in id.iter().enumerate() {
        if !is_at(place, *octet) {
            return false;
        }
    }
    true
}

/// What the system calls its run since the machine was started; nothing where it does not tell.
pub(crate) fn boot_id<R: Files>(rt: &R, alloc: Global) -> Result<Vec<u8>, AllocError> {
    let mut octets = [0u8; NOTE_MAX];
    let count = match fs::open(rt, BOOT_ID) {
        Ok(mut file) => file.read(&mut octets).unwrap_or(0),
        Err(_) => 0,
    };
    let id = octets[..count].trim_ascii();
    if !is_boot_id(id) {
        return Ok(Vec::new(alloc));
    }
    id.to_vec(alloc)
}

// A word, a run of the system, and the end of the line.
fn note_with(alloc: Global, word: &[u8], boot: &[u8]) -> Result<Vec<u8>, AllocError>
    ensures { IfOk result (λ note. note.items ≡ word.now ++ boot.now ++ 10 ∷ []) }
{
    let mut note = word.to_vec(alloc)?;
    note.extend_from_slice(boot)?;
    note.push(b'\n')?;
    Ok(note)
}

/// The note of a run in which a sync has failed.
pub(crate) fn failed_note(alloc: Global, boot: &[u8]) -> Result<Vec<u8>, AllocError>
    ensures { IfOk result (λ note. note.items ≡ failed_note boot.now) }
{
    note_with(alloc, FAILED, boot)
}

/// The note of one in which none has. It is as long as the other, which is written over it and so has
/// room on a full disk.
pub(crate) fn sound_note(alloc: Global, boot: &[u8]) -> Result<Vec<u8>, AllocError>
    ensures { IfOk result (λ note. note.items ≡ sound_note boot.now) }
{
    note_with(alloc, SYNCED, boot)
}

// What is between a word and the end of the line, if a note is no more.
fn named_after<'a>(note: &'a [u8], word: &[u8]) -> Option<&'a [u8]>
    ensures some { IfSome result (λ named. note.now ≡ word.now ++ named.now ++ 10 ∷ []) }
    ensures none { IfNone result ((named : List ℕ) → note.now ≢ word.now ++ named ++ 10 ∷ []) }
{
    note.strip_prefix(word)?.strip_suffix(b"\n".as_slice())
}

// Whether a note says that no sync has failed.
fn is_sound_note(note: &[u8]) -> bool
    ensures { IsTrue result ↔ IsSoundNote note.now }
{
    match named_after(note, SYNCED) {
        Some(named) => named.is_empty() || is_boot_id(named),
        None => false,
    }
}

// Whether a run of the system is another one than this, of which it is known which one it is.
fn is_other_run(named: &[u8], boot: &[u8]) -> bool
    ensures { IsTrue result ↔ IsOtherRun named.now boot.now }
{
    !boot.is_empty() && is_boot_id(named) && named != boot
}

// Whether a note says that a sync has failed in another run of the system than this.
fn is_of_other_run(note: &[u8], boot: &[u8]) -> bool
    ensures { IsTrue result ↔ IsOfOtherRun note.now boot.now }
{
    match named_after(note, FAILED) {
        Some(named) => is_other_run(named, boot),
        None => false,
    }
}

/// Whether a note tells of a sync that failed in this run of the system. One that cannot be understood
/// does, and so does any where it is not known which run it was or is.
pub(crate) fn tells_of_boot(note: &[u8], boot: &[u8]) -> bool
    ensures { IsTrue result ↔ TellsOfBoot note.now boot.now }
{
    !note.is_empty() && !is_sound_note(note) && !is_of_other_run(note, boot)
}
