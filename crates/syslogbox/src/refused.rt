//! The file of the frames that were refused.

use crate::entries::{Entries, LEN_MAX};
use folder_disk::{Access, open_or_create};
use std::alloc::AllocError;
use std::fs::{self, File};
use std::io::{self, ErrorKind, Read, Seek, SeekFrom, Write};
use std::mem::replace;
use std::os::unix::fs::MetadataExt;
use std::time::{Duration, Instant};

// The most octets of the file: at the first entry behind them it gets another name, and a new one begins.
const REFUSED_MAX: u64 = 64 << 20;

// The most octets of it where it cannot get another name.
const UNTURNED_MAX: u64 = 128 << 20;

// How many octets of entries are written together at most, and read at once.
const HELD_MAX: usize = 65_536;

// How many seconds are between two lines on entries that were not kept.
const TOLD_SECONDS: u64 = 60;

/// The file `refused` of a store, which has whole entries alone. Each write is an entry: a frame and
/// what is told of it. Entries wait until they are flushed, and are not synced. Those that cannot be
/// kept are counted.
#[derive(Drop)]
pub struct RefusedFile<'a> {
    rt: &'a HostRuntime,
    names: Names,
    file: File,
    // the octets of the file, as far as this knows
    len: u64,
    // where the file is to be cut before anything more is written
    torn: Option<u64>,
    held: Vec<u8>,
    held_entries: u64,
    lost: Lost,
    behind: Behind,
}

// The paths of the file, of the one before it, and of the one to come.
#[derive(Drop)]
struct Names {
    path: String,
    older: String,
    newer: String,
}

// The entries that were not kept since that was last told, why not, and when that was.
#[derive(Drop)]
struct Lost {
    entries: u64,
    error: Option<io::Error>,
    told: Option<Instant>,
}

// Opens a file, or makes it where there is none.
fn open(rt: &HostRuntime, path: &str) -> io::Result<File> {
    Ok(open_or_create(rt, path, Access::Append)?.file)
}

// Whether a file has this name, which somebody may have given to another one, or removed.
fn has_name(rt: &HostRuntime, file: &File, path: &str) -> io::Result<bool> {
    let named = match fs::symlink_metadata(rt, path) {
        Ok(named) => named,
        Err(error) if error.kind() == ErrorKind::NotFound => return Ok(false),
        Err(error) => return Err(error),
    };
    let found = file.metadata()?;
    Ok(named.dev() == found.dev() && named.ino() == found.ino())
}

// The entries of a file, as far as they can be read.
fn read_entries(file: &mut File, buf: &mut [u8]) -> io::Result<Entries> {
    let mut entries = Entries::new();
    file.seek(SeekFrom::Start(0))?;
    for _piece in 0..u64::MAX {
        let count = file.read(buf)?;
        let piece = buf.get(..count).unwrap_or(&[]);
        if piece.is_empty() || !entries.add(piece) {
            break;
        }
    }
    Ok(entries)
}

/// What was found behind the last whole entry of the file when it was opened.
#[derive(Clone, Copy)]
pub enum Behind {
    /// Nothing.
    Nothing,
    /// So many octets, which were cut off: the front of an entry, or zeros.
    Torn(u64),
    /// Something else, from this octet on. The file was given its other name.
    Damage(u64),
}

fn find_behind(file: &mut File, buf: &mut [u8]) -> io::Result<Behind> {
    let len = file.metadata()?.len();
    let entries = read_entries(file, buf)?;
    let whole = entries.whole_len();
    Ok(match len.saturating_sub(whole) {
        0 => Behind::Nothing,
        torn if torn <= LEN_MAX && entries.may_be_cut_short() => Behind::Torn(torn),
        _ => Behind::Damage(whole),
    })
}

impl Lost {
    fn count(&mut self, entries: u64, error: io::Error) {
        self.entries = self.entries.saturating_add(entries);
        self.error = Some(error);
    }

    // Whether a line is due.
    fn is_due(&self, now: Instant) -> bool {
        match self.told {
            _ if self.entries == 0 => false,
            Some(told) => {
                now.saturating_duration_since(told) >= Duration::from_secs(TOLD_SECONDS)
            }
            None => true,
        }
    }

    // The line, which begins anew.
    fn line(&mut self, rt: &HostRuntime, now: Option<Instant>) -> Result<String, AllocError> {
        let count = self.entries;
        let line = match &self.error {
            Some(error) => format!(in rt.alloc(); "refused: {count} entries not kept: {error}\n")?,
            None => format!(in rt.alloc(); "refused: {count} entries not kept\n")?,
        };
        self.entries = 0;
        self.told = now;
        Ok(line)
    }
}

impl<'a> RefusedFile<'a> {
    /// The file in a store's folder, without what follows its last whole entry. It is made if it is
    /// missing. It fails if it is no regular file, or if the system does not open it, or does not give
    /// a damaged one another name.
    pub fn open(rt: &'a HostRuntime, dir: &str) -> io::Result<RefusedFile<'a>> {
        let names = Names {
            path: format!(in rt.alloc(); "{dir}/refused")?,
            older: format!(in rt.alloc(); "{dir}/refused.1")?,
            newer: format!(in rt.alloc(); "{dir}/refused.new")?,
        };
        let mut file = open(rt, names.path.as_str())?;
        let mut held = vec![in rt.alloc(); 0u8; HELD_MAX]?;
        let behind = find_behind(&mut file, &mut held)?;
        held.clear();
        let mut refused = RefusedFile {
            rt,
            names,
            file,
            len: 0,
            torn: None,
            held,
            held_entries: 0,
            lost: Lost {
                entries: 0,
                error: None,
                told: None,
            },
            behind,
        };
        refused.settle()?;
        Ok(refused)
    }

    /// What was found behind its last whole entry when it was opened.
    pub fn behind(&self) -> Behind {
        self.behind
    }

    // Leaves whole entries alone in the file that was opened.
    fn settle(&mut self) -> io::Result<()> {
        let len = self.file.metadata()?.len();
        match self.behind {
            Behind::Nothing => self.len = len,
            Behind::Torn(torn) => {
                self.len = len.saturating_sub(torn);
                self.file.set_len(self.len)?;
            }
            Behind::Damage(_) => self.turn()?,
        }
        Ok(())
    }

    // Goes on with the file that has the name now, or a new one, where somebody has moved or removed the one before.
    fn follow_name(&mut self) -> io::Result<()> {
        if has_name(self.rt, &self.file, self.names.path.as_str())? {
            return Ok(());
        }
        self.file = open(self.rt, self.names.path.as_str())?;
        self.torn = None;
        Ok(())
    }

    // Cuts off what a write that failed has left, and returns the length.
    fn mend(&mut self) -> io::Result<u64> {
        let len = self.file.metadata()?.len();
        match self.torn {
            Some(torn) if torn < len => self.file.set_len(torn)?,
            _ => {}
        }
        let whole = self.torn.unwrap_or(len).min(len);
        self.torn = None;
        Ok(whole)
    }

    // Gives the file another name, in place of the one that had it, and begins a new one.
    fn turn(&mut self) -> io::Result<()> {
        let names = &self.names;
        let _missing = fs::remove_file(self.rt, names.newer.as_str());
        let newer = open(self.rt, names.newer.as_str())?;
        fs::rename(self.rt, names.path.as_str(), names.older.as_str())?;
        if let Err(error) = fs::rename(self.rt, names.newer.as_str(), names.path.as_str()) {
            let _back = fs::rename(self.rt, names.older.as_str(), names.path.as_str());
            return Err(error);
        }
        self.file = newer;
        Ok(())
    }

    // Writes whole entries, or none of them.
    fn try_append(&mut self, entries: &[u8]) -> io::Result<()> {
        self.follow_name()?;
        let mut begun = self.mend()?;
        if begun >= REFUSED_MAX {
            match self.turn() {
                Ok(()) => begun = 0,
                Err(error) if begun >= UNTURNED_MAX => return Err(error),
                Err(_) => {}
            }
        }
        let written = self.file.write_all(entries);
        self.len = begun;
        if written.is_err() {
            self.torn = Some(begun);
            let _later = self.mend();
        } else {
            self.len = begun.saturating_add(entries.len() as u64);
        }
        written
    }

    fn append(&mut self, entries: &[u8], count: u64) {
        if let Err(error) = self.try_append(entries) {
            self.lost.count(count, error);
        }
    }

    /// Writes the entries that wait.
    pub fn save(&mut self) {
        if self.held.is_empty() {
            return;
        }
        let held = replace(&mut self.held, Vec::new(self.rt.alloc()));
        self.append(held.as_slice(), self.held_entries);
        self.held = held;
        self.held.clear();
        self.held_entries = 0;
    }

    /// The line on entries that were not kept, where there are any and it is a minute since the last one.
    pub fn lost_line(&mut self) -> Option<String> {
        if self.lost.entries == 0 {
            return None;
        }
        let now = Instant::now(self.rt).ok()?;
        if !self.lost.is_due(now) {
            return None;
        }
        self.lost.line(self.rt, Some(now)).ok()
    }

    /// The line on entries that were not kept and have not been told, at the end.
    pub fn last_line(&mut self) -> Option<String> {
        if self.lost.entries == 0 {
            return None;
        }
        self.lost.line(self.rt, None).ok()
    }
}

impl<'a> Write for RefusedFile<'a> {
    fn write(&mut self, buf: &[u8]) -> io::Result<usize> {
        let held = self.held.len();
        let is_long = self.len.saturating_add(held as u64) >= REFUSED_MAX;
        if is_long || buf.len() > HELD_MAX.saturating_sub(held) {
            self.save();
        }
        if buf.len() <= HELD_MAX && self.held.extend_from_slice(buf).is_ok() {
            self.held_entries = self.held_entries.saturating_add(1);
        } else {
            self.append(buf, 1);
        }
        Ok(buf.len())
    }

    fn flush(&mut self) -> io::Result<()> {
        self.save();
        Ok(())
    }
}
