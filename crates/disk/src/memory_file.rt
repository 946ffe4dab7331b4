//! A file in memory.
ghost use Rattle.std.specs.Prelude.{◌≡◌, ◌≤◌, [], length, take, drop, IfOk, OnOk, OnErr};
ghost use Rattle.disk.specs.Calls.{Gives};
ghost use Rattle.disk.specs.Files.{appended, cut_to, overwritten, settled, IsNoneOf, MayBecome};
ghost use Rattle.std.specs.Prelude.{◌<◌, slice_index, ℕ};

use std::alloc::{AllocError, Global};

/// The octets, and what is on the disk of them.
#[derive(Drop)]
pub(crate) struct MemoryFile {
    shown: Vec<u8>,
    synced: usize,
    longest: usize,
    rewritten: Vec<u64>,
    ghost in_order: { synced ≤ longest },
}

// Writes an octet over all from an offset on.
fn spoil_behind(octets: &mut [u8], from: usize, octet: u8)
    requires { from ≤ length octets.old }
    ensures { (i : ℕ) → i < from → slice_index octets.new i ≡ slice_index octets.old i }
{
    for i in from..octets.len() {
        octets[i] = octet;
    }
}

// Writes an octet over those at some places.
fn spoil_at(octets: &mut [u8], places: &[u64], octet: u8)
    ensures { (i : ℕ) → IsNoneOf places.now i
        → slice_index octets.new i ≡ slice_index octets.old i }
{
    for place in places {
        if *place < octets.len() as u64 {
            octets[*place as usize] = octet;
        }
    }
}

// Writes an octet, where one is given, over all that is unsure.
fn spoil(octets: &mut [u8], from: usize, places: &[u64], octet: Option<u8>)
    requires { from ≤ length octets.old }
    ensures { (i : ℕ) → i < from → IsNoneOf places.now i
        → slice_index octets.new i ≡ slice_index octets.old i }
{
    if let Some(octet) = octet {
        spoil_behind(octets, from, octet);
        spoil_at(octets, places, octet);
    }
}

impl MemoryFile {
    ghost use Rattle.disk.specs.Memory.{file_of};

    pub(crate) fn new(alloc: Global) -> MemoryFile
        ensures { file_of result ≡ settled [] }
    {
        MemoryFile {
            shown: Vec::new(alloc),
            synced: 0,
            longest: 0,
            rewritten: Vec::new(alloc),
        }
    }

    pub(crate) fn read(&self, at: u64, buf: &mut [u8]) -> usize
        ensures within { result ≤ length buf.new }
        ensures gives { Gives (file_of self.now) at buf.new result }
    {
        let Ok(at) = usize::try_from(at) else {
            return 0;
        };
        if at >= self.shown.len() {
            return 0;
        }
        let n = buf.len().min(self.shown.len() - at);
        buf[..n].copy_from_slice(&self.shown[at..at + n]);
        n
    }

    pub(crate) fn append(&mut self, octets: &[u8]) -> Result<(), AllocError>
        ensures ok { OnOk result (file_of self.new ≡ appended octets.now (file_of self.old)) }
        ensures err { OnErr result (file_of self.new ≡ file_of self.old) }
    {
        self.shown.extend_from_slice(octets)?;
        self.longest = self.longest.max(self.shown.len());
        Ok(())
    }

    pub(crate) fn overwrite(&mut self, at: u64, octet: u8) -> Result<(), AllocError>
        ensures ok { OnOk result (file_of self.new ≡ overwritten at octet (file_of self.old)) }
        ensures err { OnErr result (file_of self.new ≡ file_of self.old) }
    {
        self.rewritten.insert(0, at)?;
        if at < self.shown.len() as u64 {
            self.shown[at as usize] = octet;
        }
        Ok(())
    }

    pub(crate) fn cut(&mut self, len: u64)
        ensures { file_of self.new ≡ cut_to len (file_of self.old) }
    {
        if len < self.shown.len() as u64 {
            self.shown.truncate(len as usize);
        }
        if len < self.synced as u64 {
            self.synced = len as usize;
        }
    }

    pub(crate) fn sync(&mut self)
        ensures { file_of self.new ≡ settled (file_of self.old).shown }
    {
        self.synced = 0;
        self.longest = self.shown.len();
        self.synced = self.shown.len();
        self.rewritten.clear();
    }

    /// What a crash leaves, all of it on the disk: of the octets that were not there, as many as
    /// `kept`; those that are unsure are as they are shown or, if one is given, all `octet`.
    pub(crate) fn crash(&mut self, kept: usize, octet: Option<u8>) -> Result<(), AllocError>
        ensures left { OnOk result (MayBecome (file_of self.old) (file_of self.new).shown) }
        ensures settled { OnOk result (file_of self.new ≡ settled (file_of self.new).shown) }
    {
        let len = self.synced + kept.min(self.longest - self.synced);
        self.shown.resize(len, 0)?;
        spoil(&mut self.shown, self.synced, &self.rewritten, octet);
        self.sync();
        Ok(())
    }
}
