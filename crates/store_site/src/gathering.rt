//! An archive becomes records as it is written.

ghost use Rattle.std.specs.Prelude.{◌≡◌, ◌≤◌, ◌⊎◌, ◌++◌, [], IfErr, IfOk, OnOk, drop, length, take};
ghost use Rattle.archive_text.specs.Text.{IsArchive, text_of};
ghost use Rattle.archive_text.specs.declared.limits.TheConstants.{ENTRY_MAX};
ghost use Rattle.store_site.specs.Gatherings.{IsGatheringFault, gathered};

use crate::fault::SetReadFault;
use reconcile::{Records, Stopped};
use std::alloc::Global;
use std::io::{self, ErrorKind, Write};

/// The records of an archive that is written to it, of at most so many octets.
#[derive(Drop)]
pub(crate) struct Gathering {
    alloc: Global,
    pub(crate) records: Records,
    // what came behind the last entry that was read
    pub(crate) rest: Vec<u8>,
    // how many octets came, and how many may
    pub(crate) octets: u64,
    pub(crate) room: u64,
    // whether more octets came than that
    is_full: bool,
    ghost counted: { octets ≡ length (gathered records rest.items) },
}

// Reads the entries that a text begins with behind others, and answers how many octets they have. It
// may leave some for want of memory.
fn read_front(alloc: Global, records: &mut Records, text: &[u8]) -> usize
    ensures within { result ≤ length text.now }
    ensures read { text_of records.new ≡ text_of records.old ++ take result text.now }
{
    let mut rest = text;
    'reading: while let Ok(behind) = records.push_read(alloc, rest) {
        rest = behind;
    }
    text.len() - rest.len()
}

// Takes octets away from the front of others.
fn forget_front(octets: &mut Vec<u8>, count: usize)
    requires { count ≤ length octets.old.items }
    ensures { octets.new.items ≡ drop count octets.old.items }
{
    let left = octets.len() - count;
    octets.rotate_left(count);
    octets.truncate(left);
}

// Reads the entries that octets begin with behind others, and takes them away.
fn settle(alloc: Global, records: &mut Records, rest: &mut Vec<u8>)
    ensures { gathered records.new rest.new.items ≡ gathered records.old rest.old.items }
{
    let count = read_front(alloc, records, rest.as_slice());
    forget_front(rest, count);
}

// Reads a whole text behind records.
fn read_rest(alloc: Global, records: &mut Records, text: &[u8]) -> Result<(), SetReadFault>
    ensures ok { OnOk result (text_of records.new ≡ gathered records.old text.now) }
    ensures err { IfErr result (IsGatheringFault (gathered records.old text.now)) }
{
    let mut rest = text;
    'reading: while !rest.is_empty() {
        rest = match records.push_read(alloc, rest) {
            Ok(behind) => behind,
            Err(Stopped::Memory) => return Err(SetReadFault::Memory),
            Err(_) => return Err(SetReadFault::NoArchive),
        };
    }
    Ok(())
}

impl Gathering {
    /// Nothing so far.
    pub(crate) fn new(alloc: Global, room: u64) -> Gathering
        ensures none { gathered result.records result.rest.items ≡ [] }
        ensures room { result.room ≡ room }
    {
        Gathering {
            alloc,
            records: Records::new(alloc),
            rest: Vec::new(alloc),
            octets: 0,
            room,
            is_full: false,
        }
    }

    /// Why it took no more.
    pub(crate) fn fault(&self) -> SetReadFault
        ensures { (result ≡ SetReadFault.TooMuch) ⊎ (result ≡ SetReadFault.Memory) }
    {
        if self.is_full {
            return SetReadFault::TooMuch;
        }
        SetReadFault::Memory
    }

    /// The records, if they have at most so many octets.
    ///
    /// # Errors
    /// `TooMuch`: they have more; `NoArchive`: what was written is no archive; `Memory`.
    pub(crate) fn into_records(self, room: u64) -> Result<Records, SetReadFault>
        ensures ok { IfOk result (λ records. text_of records ≡ gathered self.records self.rest.items) }
        ensures archive { IfOk result (IsArchive ENTRY_MAX) }
        ensures room { IfOk result (λ records. length (text_of records) ≤ room) }
        ensures err { IfErr result (IsGatheringFault (gathered self.records self.rest.items)) }
    {
        if self.octets > room {
            return Err(SetReadFault::TooMuch);
        }
        let mut records = self.records;
        read_rest(self.alloc, &mut records, self.rest.as_slice())?;
        let _archive = records.len();
        Ok(records)
    }
}

impl Write for Gathering {
    ghost use Rattle.std.specs.Prelude.{Some};

    ghost contents = { λ g. Some (gathered g.records g.rest.items) };

    fn write(&mut self, buf: &[u8]) -> io::Result<usize> {
        let octets = match self.octets.checked_add(buf.len() as u64) {
            Some(octets) if octets <= self.room => octets,
            _ => {
                self.is_full = true;
                return Err(ErrorKind::StorageFull.into());
            }
        };
        settle(self.alloc, &mut self.records, &mut self.rest);
        self.rest.extend_from_slice(buf)?;
        self.octets = octets;
        Ok(buf.len())
    }

    fn flush(&mut self) -> io::Result<()> {
        Ok(())
    }
}
