//! One entry is read from the text of an archive whose octets come in pieces, cut anywhere.

ghost use Rattle.std.specs.Prelude.{◌≡◌, ◌<◌, ◌≤◌, ◌+◌, ◌++◌, [], false, IsTrue};
ghost use Rattle.std.specs.Prelude.{IfErr, IfOk, IfSome, IsNone, OnOk};
ghost use Rattle.std.specs.Prelude.{vec_capacity, vec_len};
ghost use Rattle.syslog_frame.specs.MsgLen.{MsgLen as Counts};
ghost use Rattle.archive_streams.specs.Pieces.{ReadsOn, size_of, unused};
ghost use Rattle.archive_streams.specs.Counting.{IsStep, IsUnfinished};
ghost use Rattle.archive_streams.specs.EntryTexts.{HasCounted, HoldsEntry, IsCounted};
ghost use Rattle.archive_streams.specs.Faults.{IsSideFault, SideFailures};

use crate::entry::{COUNT_TEXT, EntryText, TEXT_MAX};
use crate::fault::SideFault;
use crate::pieces::Pieces;
use crate::validation::instant_of;
use archive_text::{ArchiveFault, ENTRY_MAX};
use octet_devices::Input;
use syslog_frame::{MsgLen, msg_len};

/// What one more octet makes of a length.
#[derive(Clone, Copy, Debug)]
pub enum CountStep {
    /// There is no length: the end came before the first digit.
    End,
    /// The length goes on.
    More,
    /// The length is whole, with its space.
    Whole(u64),
}

/// Reads one octet of a length.
fn next_digit<R: Input>(
    pieces: &mut Pieces,
    reader: &mut R,
    text: &mut Vec<u8>,
) -> Result<CountStep, SideFault>
    requires unfinished { IsUnfinished text.old.items }
    requires room { COUNT_TEXT ≤ vec_capacity text.old }
    ensures reads { ReadsOn pieces.old pieces.new
        (R.state reader.old) (R.state reader.new)
        (text.old.items ++ unused pieces.old) (text.new.items ++ unused pieces.new) }
    ensures failures { SideFailures result (R.state reader.old).failures
        (R.state reader.new).failures }
    ensures room { vec_capacity text.old ≤ vec_capacity text.new }
    ensures short { OnOk result (vec_len text.new ≤ COUNT_TEXT) }
    ensures step { IfOk result (λ step. IsStep text.old.items text.new.items pieces.new step) }
    ensures fault { IfErr result (λ fault.
        IsSideFault fault (text.new.items ++ unused pieces.new) pieces.new) }
{
    let some = match pieces.take(reader, text, 1) {
        Ok(some) => some,
        Err(fault) => return Err(SideFault::Input(fault)),
    };
    if !some {
        if text.is_empty() {
            return Ok(CountStep::End);
        }
        let at = text.len() as u64;
        return Err(SideFault::Archive(ArchiveFault::BadFrame { at }));
    }
    match msg_len(text) {
        MsgLen::Part => Ok(CountStep::More),
        MsgLen::Whole { count, used: _ } => Ok(CountStep::Whole(count)),
        MsgLen::Bad { at } => {
            let at = at as u64;
            Err(SideFault::Archive(ArchiveFault::BadFrame { at }))
        }
    }
}

/// Reads the length of an entry and its space, or finds the end before it.
fn read_count<R: Input>(
    pieces: &mut Pieces,
    reader: &mut R,
    text: &mut Vec<u8>,
) -> Result<Option<u64>, SideFault>
    requires empty { text.old.items ≡ [] }
    requires room { COUNT_TEXT ≤ vec_capacity text.old }
    ensures reads { ReadsOn pieces.old pieces.new
        (R.state reader.old) (R.state reader.new)
        (unused pieces.old) (text.new.items ++ unused pieces.new) }
    ensures failures { SideFailures result (R.state reader.old).failures
        (R.state reader.new).failures }
    ensures room { vec_capacity text.old ≤ vec_capacity text.new }
    ensures short { OnOk result (vec_len text.new ≤ COUNT_TEXT) }
    ensures count { IfOk result (λ found. IfSome found (λ count. Counts count text.new.items)) }
    ensures end { IfOk result (λ found. IsNone found →
        (text.new.items ≡ []) × (unused pieces.new ≡ []) × (0 < pieces.new.ends)) }
    ensures fault { IfErr result (λ fault.
        IsSideFault fault (text.new.items ++ unused pieces.new) pieces.new) }
{
    'digits: loop {
        match next_digit(pieces, reader, text)? {
            CountStep::More => {}
            CountStep::End => return Ok(None),
            CountStep::Whole(count) => return Ok(Some(count)),
        }
    }
}

/// Reads so many octets, and puts them behind a text.
fn read_octets<R: Input>(
    pieces: &mut Pieces,
    reader: &mut R,
    text: &mut Vec<u8>,
    count: usize,
) -> Result<(), SideFault>
    requires counted { Counts count text.old.items }
    requires fits { count ≤ ENTRY_MAX }
    requires room { vec_len text.old + count ≤ vec_capacity text.old }
    ensures reads { ReadsOn pieces.old pieces.new
        (R.state reader.old) (R.state reader.new)
        (text.old.items ++ unused pieces.old) (text.new.items ++ unused pieces.new) }
    ensures failures { SideFailures result (R.state reader.old).failures
        (R.state reader.new).failures }
    ensures room { vec_capacity text.old ≤ vec_capacity text.new }
    ensures ok { OnOk result (HasCounted count text.old.items text.new.items) }
    ensures fault { IfErr result (λ fault.
        IsSideFault fault (text.new.items ++ unused pieces.new) pieces.new) }
{
    let size = text.len() + count;
    'octets: while text.len() < size {
        let most = size - text.len();
        let some = match pieces.take(reader, text, most) {
            Ok(some) => some,
            Err(fault) => return Err(SideFault::Input(fault)),
        };
        if !some {
            let at = text.len() as u64;
            return Err(SideFault::Archive(ArchiveFault::BadFrame { at }));
        }
    }
    Ok(())
}

/// Takes the text of an entry that lies whole in what the reader gave last, and gives the offset of
/// its octets.
fn take_whole(pieces: &mut Pieces, text: &mut Vec<u8>) -> Option<usize>
    requires empty { text.old.items ≡ [] }
    requires room { TEXT_MAX ≤ vec_capacity text.old }
    ensures kept { text.new.items ++ unused pieces.new ≡ unused pieces.old }
    ensures size { size_of pieces.new ≡ size_of pieces.old }
    ensures calls { pieces.new.calls ≡ pieces.old.calls }
    ensures ends { pieces.new.ends ≡ pieces.old.ends }
    ensures room { vec_capacity text.old ≤ vec_capacity text.new }
    ensures some { IfSome result (λ start. IsCounted start text.new.items) }
    ensures none { IsNone result → text.new.items ≡ [] }
{
    let rest = pieces.rest();
    let MsgLen::Whole { count, used } = msg_len(rest) else {
        return None;
    };
    let size = used + count as usize;
    if size > rest.len() {
        return None;
    }
    pieces.move_behind(text, size);
    Some(used)
}

/// Reads the text of an entry that is cut, piece by piece, or finds the end before it. It gives the
/// offset of the entry's octets.
fn read_cut<R: Input>(
    pieces: &mut Pieces,
    reader: &mut R,
    text: &mut Vec<u8>,
) -> Result<Option<usize>, SideFault>
    requires empty { text.old.items ≡ [] }
    requires room { TEXT_MAX ≤ vec_capacity text.old }
    ensures reads { ReadsOn pieces.old pieces.new
        (R.state reader.old) (R.state reader.new)
        (unused pieces.old) (text.new.items ++ unused pieces.new) }
    ensures failures { SideFailures result (R.state reader.old).failures
        (R.state reader.new).failures }
    ensures room { vec_capacity text.old ≤ vec_capacity text.new }
    ensures counted { IfOk result (λ found. IfSome found (λ start. IsCounted start text.new.items)) }
    ensures end { IfOk result (λ found. IsNone found →
        (text.new.items ≡ []) × (unused pieces.new ≡ []) × (0 < pieces.new.ends)) }
    ensures fault { IfErr result (λ fault.
        IsSideFault fault (text.new.items ++ unused pieces.new) pieces.new) }
{
    let Some(count) = read_count(pieces, reader, text)? else {
        return Ok(None);
    };
    if count > ENTRY_MAX as u64 {
        return Err(SideFault::Archive(ArchiveFault::EntryTooLong { at: 0 }));
    }
    let start = text.len();
    read_octets(pieces, reader, text, count as usize)?;
    Ok(Some(start))
}

/// Reads the text of an entry, or finds the end before it. It gives the offset of the entry's octets.
fn read_text<R: Input>(
    pieces: &mut Pieces,
    reader: &mut R,
    text: &mut Vec<u8>,
) -> Result<Option<usize>, SideFault>
    requires empty { text.old.items ≡ [] }
    requires room { TEXT_MAX ≤ vec_capacity text.old }
    ensures reads { ReadsOn pieces.old pieces.new
        (R.state reader.old) (R.state reader.new)
        (unused pieces.old) (text.new.items ++ unused pieces.new) }
    ensures failures { SideFailures result (R.state reader.old).failures
        (R.state reader.new).failures }
    ensures room { vec_capacity text.old ≤ vec_capacity text.new }
    ensures counted { IfOk result (λ found. IfSome found (λ start. IsCounted start text.new.items)) }
    ensures end { IfOk result (λ found. IsNone found →
        (text.new.items ≡ []) × (unused pieces.new ≡ []) × (0 < pieces.new.ends)) }
    ensures fault { IfErr result (λ fault.
        IsSideFault fault (text.new.items ++ unused pieces.new) pieces.new) }
{
    match take_whole(pieces, text) {
        Some(start) => Ok(Some(start)),
        None => read_cut(pieces, reader, text),
    }
}

/// Reads the next entry, or finds the end before it. It fails if what follows is no entry, the
/// reader fails, or it gives no end.
pub fn read_entry<R: Input>(
    pieces: &mut Pieces,
    reader: &mut R,
    entry: &mut EntryText,
) -> Result<bool, SideFault>
    requires room { TEXT_MAX ≤ vec_capacity entry.old.text }
    ensures reads { ReadsOn pieces.old pieces.new
        (R.state reader.old) (R.state reader.new)
        (unused pieces.old) (entry.new.text.items ++ unused pieces.new) }
    ensures failures { SideFailures result (R.state reader.old).failures
        (R.state reader.new).failures }
    ensures room { TEXT_MAX ≤ vec_capacity entry.new.text }
    ensures entry { IfOk result (λ some. IsTrue some → HoldsEntry entry.new) }
    ensures end { IfOk result (λ some. some ≡ false → (entry.new.text.items ≡ [])
        × (unused pieces.new ≡ []) × (0 < pieces.new.ends)) }
    ensures fault { IfErr result (λ fault.
        IsSideFault fault (entry.new.text.items ++ unused pieces.new) pieces.new) }
{
    entry.text.clear();
    let Some(start) = read_text(pieces, reader, &mut entry.text)? else {
        return Ok(false);
    };
    entry.start = start;
    let (_, octets) = entry.text.split_at(start);
    match instant_of(octets) {
        Ok(instant) => {
            entry.instant = instant;
            Ok(true)
        }
        Err(fault) => Err(SideFault::Archive(fault)),
    }
}
