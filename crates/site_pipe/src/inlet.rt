//! Messages are read from an input.

ghost use Rattle.std.specs.Prelude.{◌≡◌, ◌≤◌, ◌<◌, ◌+◌, ◌++◌, ℕ, List, IfOk, OnOk, length, vec_len};
ghost use Rattle.archive_text.specs.Text.{text_of};

use crate::buffer::Buffer;
use crate::fault::PipeFault;
use octet_devices::Input;
use reconcile::{Part, Range, Records};
use site_messages::{
    Answer, Gap, MESSAGE_MAX, PART_MAX, Request, read_line, read_part, read_range,
};
use std::alloc::Global;

// octets that are asked for at once
const CHUNK: usize = 16_384;

/// An input, and the octets that came from it and are not read yet.
#[derive(Drop)]
pub struct Inlet<R> {
    alloc: Global,
    input: R,
    chunk: [u8; CHUNK],
    held: Buffer,
    // how many octets came, and may come yet: in all, and of this message
    came: u64,
    room: u64,
    message: u64,
}

impl<R: Input> Inlet<R> {
    /// An input from which nothing came, and at most so many octets may come.
    pub fn new(alloc: Global, input: R, room: u64) -> Inlet<R> {
        Inlet {
            alloc,
            input,
            chunk: [0; CHUNK],
            held: Buffer::new(alloc),
            came: 0,
            room,
            message: MESSAGE_MAX,
        }
    }

    /// How many octets came.
    pub fn came(&self) -> u64 {
        self.came
    }

    /// A message begins.
    pub fn begin(&mut self) {
        self.message = MESSAGE_MAX;
    }

    // Whether so many octets may come, or any at all.
    fn admits(&self, count: usize) -> Result<(), PipeFault>
        ensures room { OnOk result (count ≤ self.now.room) }
        ensures message { OnOk result (count ≤ self.now.message) }
    {
        if self.room == 0 || count as u64 > self.room {
            return Err(PipeFault::TooMuch);
        }
        if self.message == 0 || count as u64 > self.message {
            return Err(PipeFault::Lied);
        }
        Ok(())
    }

    // Waits for more octets, at least one.
    fn fill(&mut self) -> Result<(), PipeFault>
        ensures { OnOk result (length self.old.held < length self.new.held) }
    {
        self.admits(0)?;
        let count = match self.input.read(&mut self.chunk[..]) {
            Ok(0) => return Err(PipeFault::Ended),
            Ok(count) => count,
            Err(_) => return Err(PipeFault::Input),
        };
        self.admits(count)?;
        self.held.push(&self.chunk[..count])?;
        self.came = self.came.saturating_add(count as u64);
        self.room -= count as u64;
        self.message -= count as u64;
        Ok(())
    }

    // Waits for what is lacking of a message, if it can be one.
    fn await_more(&mut self, gap: Gap) -> Result<(), PipeFault> {
        let Gap::More(count) = gap else {
            return Err(PipeFault::Lied);
        };
        let wanted = self.held.as_slice().len().saturating_add(count);
        'filling: while self.held.as_slice().len() < wanted {
            self.fill()?;
        }
        Ok(())
    }

    /// Reads a line, and gives the request that it is.
    pub fn request(&mut self) -> Result<Option<Request>, PipeFault> {
        'waiting: for _ in 0..PART_MAX {
            let held = self.held.as_slice();
            match read_line(held) {
                Ok((line, rest)) => {
                    let request = Request::of_line(line);
                    let count = held.len() - rest.len();
                    self.held.skip(count);
                    return Ok(request);
                }
                Err(gap) => self.await_more(gap)?,
            }
        }
        Err(PipeFault::Lied)
    }

    /// Reads a line, and gives the answer that it is.
    pub fn answer(&mut self) -> Result<Option<Answer>, PipeFault> {
        'waiting: for _ in 0..PART_MAX {
            let held = self.held.as_slice();
            match read_line(held) {
                Ok((line, rest)) => {
                    let answer = Answer::of_line(line);
                    let count = held.len() - rest.len();
                    self.held.skip(count);
                    return Ok(answer);
                }
                Err(gap) => self.await_more(gap)?,
            }
        }
        Err(PipeFault::Lied)
    }

    /// Reads the line of a range.
    pub fn range(&mut self) -> Result<Range, PipeFault> {
        'waiting: for _ in 0..PART_MAX {
            let held = self.held.as_slice();
            match read_range(held) {
                Ok((view, rest)) => {
                    let range = view.to_range(self.alloc)?;
                    let count = held.len() - rest.len();
                    self.held.skip(count);
                    return Ok(range);
                }
                Err(gap) => self.await_more(gap)?,
            }
        }
        Err(PipeFault::Lied)
    }

    /// Reads the line of a part.
    pub fn part(&mut self) -> Result<Part, PipeFault> {
        'waiting: for _ in 0..PART_MAX {
            let held = self.held.as_slice();
            match read_part(held) {
                Ok((view, rest)) => {
                    let part = view.to_part(self.alloc)?;
                    let count = held.len() - rest.len();
                    self.held.skip(count);
                    return Ok(part);
                }
                Err(gap) => self.await_more(gap)?,
            }
        }
        Err(PipeFault::Lied)
    }

    // Reads octets behind others, at most so many that are lacking.
    fn read_some(&mut self, text: &mut Vec<u8>, count: usize) -> Result<(), PipeFault>
        ensures few { OnOk result (vec_len text.new ≤ vec_len text.old + count) }
        ensures more { OnOk result (0 < count → vec_len text.old < vec_len text.new) }
    {
        if self.held.as_slice().is_empty() {
            self.fill()?;
        }
        let held = self.held.as_slice();
        let some = held.len().min(count);
        text.extend_from_slice(&held[..some])?;
        self.held.skip(some);
        Ok(())
    }

    /// Reads so many octets.
    pub fn octets(&mut self, count: usize) -> Result<Vec<u8>, PipeFault>
        ensures { IfOk result (λ text. vec_len text ≡ count) }
    {
        let mut text = Vec::new(self.alloc);
        'reading: while text.len() < count {
            let lacking = count - text.len();
            self.read_some(&mut text, lacking)?;
        }
        Ok(text)
    }

    /// Reads so many parts.
    pub fn parts(&mut self, count: u64) -> Result<Vec<Part>, PipeFault> {
        let mut parts = Vec::new(self.alloc);
        'reading: for _ in 0..count {
            let part = self.part()?;
            parts.push(part)?;
        }
        Ok(parts)
    }

    /// Reads an archive of so many octets, behind records that are below it.
    pub fn records(&mut self, records: &mut Records, count: usize) -> Result<(), PipeFault>
        ensures { OnOk result ((text : List ℕ) × (length text ≡ count)
            × (text_of records.new ≡ text_of records.old ++ text)) }
    {
        let text = self.octets(count)?;
        push_all(self.alloc, records, text.as_slice())
    }
}

// Reads an archive behind records that are below it.
fn push_all(alloc: Global, records: &mut Records, text: &[u8]) -> Result<(), PipeFault>
    ensures { OnOk result (text_of records.new ≡ text_of records.old ++ text.now) }
{
    let mut rest = text;
    'reading: while !rest.is_empty() {
        match records.push_read(alloc, rest) {
            Ok(after) => rest = after,
            Err(stopped) => return Err(PipeFault::of_reading(stopped)),
        }
    }
    Ok(())
}
