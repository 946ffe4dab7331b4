//! A line is written at the end of a ledger.
ghost use Rattle.std.specs.Prelude.{◌≡◌, ◌≤◌, ◌++◌, [], false, IfOk, IfSome, List, OnOk, Some, length, map, option_map, take, ℕ};
ghost use Rattle.disk.specs.Calls.{IsUnchanged};
ghost use Rattle.disk.specs.Files.{settled};
ghost use Rattle.disk.specs.Memory.{shown_now};
ghost use Rattle.journal.specs.Journals.{IsSound, KeepsOrSettlesOthers, KeepsOthers, Shows};
ghost use Rattle.ledger.specs.Lines.{said_of};
ghost use Rattle.ledger_disk.specs.Ends.{IsBehindLast, IsEndOf};
ghost use Rattle.ledger_disk.specs.Ledgers.{GainsLine, GainsLines, HoldsLines, IsLastLine, IsLinesEnd, IsNamed, IsTail};
ghost use Rattle.ledger_disk.specs.Ledgers.{KeepsLines, ledger_text};

use crate::fault::ListFault;
use crate::tail::{Tail, last_of, read_tail};
use crate::turns::TIME_LEN;
use disk::{Disk, DiskFault, FileName};
use ledger::{ChainHead, LedgerEntry};
use std::alloc::Global;

/// The end of a ledger: where its whole lines end, whether octets are behind them, and how its chain
/// goes on there.
#[derive(Clone, Copy)]
pub(crate) struct LedgerEnd {
    whole: u64,
    is_torn: bool,
    head: ChainHead,
}

// Of the last ones of a ledger's lines, or of all,
// how the chain goes on behind them. None if the last of them may begin before them, or is no line.
fn head_behind(lines: &[u8], are_all: bool) -> Option<ChainHead>
    ensures { IsLinesEnd lines.now (length lines.now)
        → IfSome result (IsBehindLast are_all lines.now) }
{
    let Some(line) = last_of(lines) else {
        return Some(ChainHead::start());
    };
    if line.len() + 1 >= lines.len() && !are_all {
        return None;
    }
    ChainHead::behind(line)
}

// The end of a ledger of which these are the last octets.
fn end_in(tail: &Tail) -> Result<LedgerEnd, ListFault>
    ensures { IfOk result (λ end. (file : List ℕ) → IsTail file tail.now.at tail.now.octets.items
        → IsEndOf file end) }
{
    let broken = ListFault::Broken { at: tail.at };
    let Some(len) = tail.lines_end() else {
        return Err(broken);
    };
    let Some(head) = head_behind(&tail.octets[..len], tail.at == 0) else {
        return Err(broken);
    };
    let Some(whole) = tail.at.checked_add(len as u64) else {
        return Err(broken);
    };
    Ok(LedgerEnd {
        whole,
        is_torn: len < tail.octets.len(),
        head,
    })
}

// Makes the file of a ledger, and brings its name to the disk.
fn make<D: Disk>(disk: &mut D, ledger: &FileName) -> Result<(), DiskFault>
    ensures made { OnOk result (D.tells disk.new → IsSound (D.state disk.old)
        → Shows (D.state disk.new) ledger.now (settled [])) }
    ensures named { OnOk result (D.tells disk.new → IsSound (D.state disk.old)
        → IsNamed (D.state disk.new) ledger.now) }

    // whatever the result is: so at every moment
    ensures others { D.tells disk.new
        → KeepsOrSettlesOthers (D.state disk.old) (D.state disk.new) ledger.now }
    ensures told { D.tells disk.new → D.tells disk.old }
{
    disk.create(ledger)?;
    disk.sync_names()
}

// The end of a ledger. Where there is none, its file is made.
fn end_of<D: Disk>(alloc: Global, disk: &mut D, ledger: &FileName) -> Result<LedgerEnd, ListFault>
    ensures end { IfOk result (λ end. D.tells disk.new → IsSound (D.state disk.old)
        → IsEndOf (ledger_text (D.state disk.old) ledger.now) end) }
    ensures shown { OnOk result (D.tells disk.new → IsSound (D.state disk.old)
        → shown_now ((D.state disk.new).entries ledger.now)
        ≡ Some (ledger_text (D.state disk.old) ledger.now)) }
    ensures sound { OnOk result (D.tells disk.new → IsSound (D.state disk.old)
        → IsSound (D.state disk.new)) }
    ensures named { OnOk result (D.tells disk.new → IsSound (D.state disk.old)
        → IsNamed (D.state disk.old) ledger.now → IsNamed (D.state disk.new) ledger.now) }

    // whatever the result is: so at every moment
    ensures kept { D.tells disk.new → IsSound (D.state disk.old) → (lines : List ℕ)
        → HoldsLines (D.state disk.old) ledger.now lines
        → HoldsLines (D.state disk.new) ledger.now lines }
    ensures others { D.tells disk.new
        → KeepsOrSettlesOthers (D.state disk.old) (D.state disk.new) ledger.now }
    ensures told { D.tells disk.new → D.tells disk.old }
{
    match read_tail(alloc, disk, ledger) {
        Ok(tail) => end_in(&tail),
        Err(DiskFault::Missing) => {
            make(disk, ledger)?;
            Ok(LedgerEnd {
                whole: 0,
                is_torn: false,
                head: ChainHead::start(),
            })
        }
        Err(fault) => Err(ListFault::Disk(fault)),
    }
}

// Writes a line behind the whole lines of a file, in place of octets that may be there, to the disk.
fn write_behind<D: Disk>(
    disk: &mut D,
    ledger: &FileName,
    whole: u64,
    is_torn: bool,
    line: &[u8],
) -> Result<(), DiskFault>
    ensures written { OnOk result (D.tells disk.new → IsSound (D.state disk.old)
        → (text : List ℕ) → shown_now ((D.state disk.old).entries ledger.now) ≡ Some text
        → (is_torn ≡ false → whole ≡ length text)
        → Shows (D.state disk.new) ledger.now (settled (take whole text ++ line.now))) }
    ensures named { D.tells disk.new → IsNamed (D.state disk.old) ledger.now
        → IsNamed (D.state disk.new) ledger.now }

    // whatever the result is: so at every moment
    ensures kept { D.tells disk.new → (lines : List ℕ) → length lines ≤ whole
        → HoldsLines (D.state disk.old) ledger.now lines
        → HoldsLines (D.state disk.new) ledger.now lines }
    ensures others { D.tells disk.new
        → KeepsOthers (D.state disk.old) (D.state disk.new) ledger.now }
    ensures told { D.tells disk.new → D.tells disk.old }
{
    if is_torn {
        disk.cut(ledger, whole)?;
    }
    disk.append(ledger, line)?;
    disk.sync(ledger)
}

/// Writes the lines of entries at the end of a ledger, in one piece, to the disk; a torn last line is cut off.
/// Gives the number of the last line before them.
pub(crate) fn append_lines<D: Disk>(
    alloc: Global,
    disk: &mut D,
    ledger: &FileName,
    time: &[u8; TIME_LEN],
    entries: &[LedgerEntry<'_>],
) -> Result<u64, ListFault>
    ensures written { OnOk result (D.tells disk.new → IsSound (D.state disk.old)
        → GainsLines (D.state disk.old) (D.state disk.new) ledger.now (map said_of entries.now)) }
    ensures named { OnOk result (D.tells disk.new → IsSound (D.state disk.old)
        → IsNamed (D.state disk.old) ledger.now → IsNamed (D.state disk.new) ledger.now) }

    // whatever the result is: so at every moment
    ensures kept { D.tells disk.new → IsSound (D.state disk.old)
        → KeepsLines (D.state disk.old) (D.state disk.new) ledger.now }
    ensures others { D.tells disk.new
        → KeepsOrSettlesOthers (D.state disk.old) (D.state disk.new) ledger.now }
    ensures told { D.tells disk.new → D.tells disk.old }
{
    let end = end_of(alloc, disk, ledger)?;
    let Some((lines, _)) = end.head.next_lines(alloc, time, entries)? else {
        return Err(ListFault::Disk(DiskFault::Failed));
    };
    write_behind(disk, ledger, end.whole, end.is_torn, &lines)?;
    Ok(end.head.number())
}

/// Writes the line of an entry at the end of a ledger, to the disk; a torn last line is cut off. Gives
/// the number of the line.
pub(crate) fn append_line<D: Disk>(
    alloc: Global,
    disk: &mut D,
    ledger: &FileName,
    time: &[u8; TIME_LEN],
    entry: &LedgerEntry<'_>,
) -> Result<u64, ListFault>
    ensures written { OnOk result (D.tells disk.new → IsSound (D.state disk.old)
        → GainsLine (D.state disk.old) (D.state disk.new) ledger.now (said_of entry.now)) }
    ensures named { OnOk result (D.tells disk.new → IsSound (D.state disk.old)
        → IsNamed (D.state disk.old) ledger.now → IsNamed (D.state disk.new) ledger.now) }

    // whatever the result is: so at every moment
    ensures kept { D.tells disk.new → IsSound (D.state disk.old)
        → KeepsLines (D.state disk.old) (D.state disk.new) ledger.now }
    ensures others { D.tells disk.new
        → KeepsOrSettlesOthers (D.state disk.old) (D.state disk.new) ledger.now }
    ensures told { D.tells disk.new → D.tells disk.old }
{
    let before = append_lines(alloc, disk, ledger, time, &[*entry])?;
    Ok(before.saturating_add(1))
}

/// The last whole line of a ledger, without its line feed, if it has one.
pub(crate) fn last_line<D: Disk>(
    alloc: Global,
    disk: &mut D,
    ledger: &FileName,
) -> Result<Option<Vec<u8>>, ListFault>
    ensures last { IfOk result (λ line. D.tells disk.new → IsSound (D.state disk.old)
        → IsLastLine (ledger_text (D.state disk.old) ledger.now) (option_map (λ v. v.items) line)) }
    ensures same { D.tells disk.new → IsUnchanged (D.state disk.old) (D.state disk.new) }
    ensures told { D.tells disk.new → D.tells disk.old }
{
    let tail = match read_tail(alloc, disk, ledger) {
        Ok(tail) => tail,
        Err(DiskFault::Missing) => return Ok(None),
        Err(fault) => return Err(ListFault::Disk(fault)),
    };
    let _ = end_in(&tail)?;
    match tail.last_line()? {
        None => Ok(None),
        Some(line) => Ok(Some(line.to_vec(alloc)?)),
    }
}
