//! The end of a ledger is read: what it costs does not grow with the ledger.
ghost use Rattle.std.specs.Prelude.{◌≡◌, ◌⊎◌, ◌+◌, ◌<◌, ◌≤◌, ◌^◌, [], IfNone};
ghost use Rattle.std.specs.Prelude.{IfOk, IfSome, IsErrOf, IsNone, IsSome, length, List, true, ℕ};
ghost use Rattle.std.specs.Prelude.{Some, drop, option_map, take};
ghost use Rattle.disk.specs.Calls.{IsUnchanged};
ghost use Rattle.disk.specs.Memory.{shown_now};
ghost use Rattle.journal.specs.Journals.{IsSound};
ghost use Rattle.ledger_disk.specs.Ledgers.{IsLast, IsLastLine, IsLinesEnd, IsTail};

use crate::fault::ListFault;
use disk::{Disk, DiskFault, FileName};
use ledger::LINE_MAX;
use std::alloc::Global;

// how many of the last octets of a ledger are read: two lines lie among them
const TAIL: u64 = 1024;

// the greatest length of a ledger
const LENGTH_MAX: u64 = 1 << 40;

// the most octets that are read behind an offset
const READ_MAX: usize = 4096;

/// The last octets of a file, and at which offset they begin.
#[derive(Drop)]
pub(crate) struct Tail {
    pub(crate) at: u64,
    pub(crate) octets: Vec<u8>,
}

// Whether a file has an octet at an offset.
fn has_octet<D: Disk>(disk: &mut D, name: &FileName, at: u64) -> Result<bool, DiskFault>
    ensures there { IfOk result (λ found. D.tells disk.new → IsSound (D.state disk.old)
        → found ≡ true → (file : List ℕ)
        → shown_now ((D.state disk.old).entries name.now) ≡ Some file → at < length file) }
    ensures same { D.tells disk.new → IsUnchanged (D.state disk.old) (D.state disk.new) }
    ensures told { D.tells disk.new → D.tells disk.old }
    ensures missing { D.tells disk.new → IsErrOf result DiskFault.Missing
        → IsNone ((D.state disk.old).entries name.now).now }
{
    let n = disk.read(name, at, &mut [0u8; 1])?;
    Ok(n > 0)
}

// A length that a file does not have.
fn bound<D: Disk>(disk: &mut D, name: &FileName) -> Result<u64, DiskFault>
    ensures small { IfOk result (λ bound. bound ≤ 2 ^ 41) }
    ensures same { D.tells disk.new → IsUnchanged (D.state disk.old) (D.state disk.new) }
    ensures told { D.tells disk.new → D.tells disk.old }
    ensures missing { D.tells disk.new → IsErrOf result DiskFault.Missing
        → IsNone ((D.state disk.old).entries name.now).now }
{
    let mut bound = TAIL;
    'doubled: while bound < LENGTH_MAX {
        if !has_octet(disk, name, bound - 1)? {
            return Ok(bound);
        }
        bound *= 2;
    }
    Err(DiskFault::Failed)
}

// The length of a file, or less where it is being written.
fn length_of<D: Disk>(disk: &mut D, name: &FileName) -> Result<u64, DiskFault>
    ensures within { IfOk result (λ len. D.tells disk.new → IsSound (D.state disk.old)
        → (file : List ℕ)
        → shown_now ((D.state disk.old).entries name.now) ≡ Some file → len ≤ length file) }
    ensures small { IfOk result (λ len. len ≤ 2 ^ 41) }
    ensures same { D.tells disk.new → IsUnchanged (D.state disk.old) (D.state disk.new) }
    ensures told { D.tells disk.new → D.tells disk.old }
    ensures missing { D.tells disk.new → IsErrOf result DiskFault.Missing
        → IsNone ((D.state disk.old).entries name.now).now }
{
    let mut above = bound(disk, name)?;
    let mut len = 0u64;
    'halved: while len + 1 < above {
        let middle = len + (above - len) / 2;
        if has_octet(disk, name, middle - 1)? {
            len = middle;
        } else {
            above = middle;
        }
    }
    Ok(len)
}

// Reads a file from an offset to its end.
fn read_from<D: Disk>(
    alloc: Global,
    disk: &mut D,
    name: &FileName,
    at: u64,
) -> Result<Vec<u8>, DiskFault>
    requires { at ≤ 2 ^ 41 }
    ensures octets { IfOk result (λ v. D.tells disk.new → IsSound (D.state disk.old)
        → (file : List ℕ) → shown_now ((D.state disk.old).entries name.now) ≡ Some file
        → v.items ≡ drop at file) }
    ensures there { IfOk result (λ v. D.tells disk.new → IsSound (D.state disk.old)
        → IsSome ((D.state disk.old).entries name.now).now) }
    ensures same { D.tells disk.new → IsUnchanged (D.state disk.old) (D.state disk.new) }
    ensures told { D.tells disk.new → D.tells disk.old }
    ensures missing { D.tells disk.new → IsErrOf result DiskFault.Missing
        → IsNone ((D.state disk.old).entries name.now).now }
{
    let mut octets = Vec::new(alloc);
    let mut piece = [0u8; TAIL as usize];
    'pieces: while octets.len() < READ_MAX {
        let n = disk.read(name, at + octets.len() as u64, &mut piece)?;
        if n == 0 {
            return Ok(octets);
        }
        octets.extend_from_slice(&piece[..n])?;
    }
    Err(DiskFault::Failed)
}

/// Reads the last octets of a file.
pub(crate) fn read_tail<D: Disk>(
    alloc: Global,
    disk: &mut D,
    name: &FileName,
) -> Result<Tail, DiskFault>
    ensures tail { IfOk result (λ tail. D.tells disk.new → IsSound (D.state disk.old)
        → (file : List ℕ) → shown_now ((D.state disk.old).entries name.now) ≡ Some file
        → IsTail file tail.at tail.octets.items) }
    ensures there { IfOk result (λ tail. D.tells disk.new → IsSound (D.state disk.old)
        → IsSome ((D.state disk.old).entries name.now).now) }
    ensures same { D.tells disk.new → IsUnchanged (D.state disk.old) (D.state disk.new) }
    ensures told { D.tells disk.new → D.tells disk.old }
    ensures missing { D.tells disk.new → IsErrOf result DiskFault.Missing
        → IsNone ((D.state disk.old).entries name.now).now }
{
    let at = length_of(disk, name)?.saturating_sub(TAIL);
    let octets = read_from(alloc, disk, name, at)?;
    Ok(Tail { at, octets })
}

// Where the whole lines of a text end.
fn lines_end(octets: &[u8]) -> usize
    ensures { IsLinesEnd octets.now result }
{
    let mut end = octets.len();
    'behind: while end > 0 {
        if octets[end - 1] == b'\n' {
            return end;
        }
        end -= 1;
    }
    0
}

impl Tail {
    /// Where the whole lines end that are among the octets. None if there is no end of a line, or more is
    /// behind it than a torn line.
    pub(crate) fn lines_end(&self) -> Option<usize>
        ensures end { IfSome result (λ end. (file : List ℕ)
            → IsTail file self.now.at self.now.octets.items → IsLinesEnd file (self.now.at + end)) }
        ensures within { IfSome result (λ end. end ≤ length self.now.octets.items) }
        ensures here { IfSome result (λ end. IsLinesEnd self.now.octets.items end) }
        ensures some { IfSome result (λ end. (self.now.at ≡ 0) ⊎ (0 < end)) }
    {
        let end = lines_end(&self.octets);
        if end == 0 && self.at > 0 || self.octets.len() - end >= LINE_MAX {
            return None;
        }
        Some(end)
    }

    /// The last of the whole lines, without its line feed, if there is one.
    ///
    /// # Errors
    /// `Broken` if there is no end of a line among the octets, or the line may begin before them.
    pub(crate) fn last_line(&self) -> Result<Option<&[u8]>, ListFault>
        ensures { IfOk result (λ line. (file : List ℕ)
            → IsTail file self.now.at self.now.octets.items
            → IsLastLine file (option_map (λ l. l.now) line)) }
    {
        let broken = ListFault::Broken { at: self.at };
        let Some(len) = self.lines_end() else {
            return Err(broken);
        };
        let Some(line) = last_of(&self.octets[..len]) else {
            return Ok(None);
        };
        if line.len() + 1 >= len && self.at > 0 {
            return Err(broken);
        }
        Ok(Some(line))
    }
}

/// The last of whole lines, without its line feed; none if there are none.
pub(crate) fn last_of(lines: &[u8]) -> Option<&[u8]>
    ensures last { IsLinesEnd lines.now (length lines.now)
        → IfSome result (λ last. (front : List ℕ) × IsLast lines.now front last.now) }
    ensures none { IfNone result (lines.now ≡ []) }
{
    let (_, front) = lines.split_last()?;
    Some(&front[lines_end(front)..])
}
