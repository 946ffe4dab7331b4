//! A set answers what it is asked over a pipe.

ghost use Rattle.std.specs.Prelude.{◌≡◌, ◌↔◌, ◌≤◌, ◌<◌, ◌+◌, List, Some, IfOk, IsTrue, OnOk, length, option_map};
ghost use Rattle.std.specs.Bool.{IsFalse};
ghost use Rattle.archive_text.specs.Entries.{Entry};
ghost use Rattle.archive_text.specs.Text.{text_of};
ghost use Rattle.reconcile.specs.Unions.{IsJoined};
ghost use Rattle.site_messages.specs.declared.limits.TheConstants.{PAYLOAD_MAX, PUT_COST, RANGES_MAX};
ghost use Rattle.site_pipe.specs.Answering.{DoAscend, Follows, Keeps};

use crate::asking::Pipe;
use crate::fault::PipeFault;
use crate::traffic::Traffic;
use octet_devices::{Input, Output};
use reconcile::{Part, Place, Range, RangedSet, Records, Sum, write_records};
use site_messages::{
    Answer, MESSAGE_MAX, MOST_MAX, MOST_MIN, PAYLOAD_MAX, PUT_COST, PUTS_MAX, RANGES_MAX, Request,
    entry_size, write_answer, write_parts,
};
use std::alloc::Global;

// A part of which only the range is known.
fn part_of(range: Range) -> Part {
    Part {
        range,
        sum: Sum {
            records: 0,
            octets: 0,
            digest: [0; 32],
        },
    }
}

// Whether a range may follow one that ends at a place; only one without an end may be the last.
fn follows(end: Option<&Place>, range: &Range) -> bool
    ensures { IsTrue result ↔ Follows (option_map (λ p. p.now) end.entry) range.now }
{
    let Some(end) = end else {
        return false;
    };
    if range.low.is_below(end) {
        return false;
    }
    match &range.high {
        None => true,
        Some(high) => range.low.is_below(high),
    }
}

// Whether the ranges of parts ascend from a place on, and do not overlap.
fn do_ascend(from: Option<&Place>, parts: &[Part]) -> bool
    ensures { IsTrue result ↔ DoAscend (option_map (λ p. p.now) from.entry) parts.now }
{
    match parts {
        [] => true,
        [part, rest @ ..] => {
            follows(from, &part.range) && do_ascend(part.range.high.as_ref(), rest)
        }
    }
}

// Into how many parts a range is cut, if that may be asked.
fn checked_most(most: u64) -> Result<u64, PipeFault>
    ensures { IfOk result (λ n. (n ≡ most) × (2 ≤ n) × (n ≤ 16)) }
{
    if most < MOST_MIN || most > MOST_MAX {
        return Err(PipeFault::Lied);
    }
    Ok(most)
}

// Puts parts, and the line before them.
fn put_parts(text: &mut Vec<u8>, parts: &[Part]) -> Result<(), PipeFault> {
    write_answer(
        text,
        Answer::Parts {
            parts: parts.len() as u64,
        },
    )?;
    write_parts(text, parts)?;
    Ok(())
}

// How many octets the archive of records has, at most.
fn octets_of(records: &Records) -> u64 {
    let mut octets: u64 = 0;
    for entry in records.entries() {
        octets = octets.saturating_add(entry_size(entry));
    }
    octets
}

impl<R: Input, W: Output> Pipe<R, W> {
    // Says a line.
    fn say(&mut self, answer: Answer) -> Result<(), PipeFault> {
        let mut text = Vec::new(self.alloc);
        write_answer(&mut text, answer)?;
        self.send(text.as_slice())
    }

    // Sends an answer, unless it is over the limit.
    fn send_answer(&mut self, text: &[u8]) -> Result<(), PipeFault> {
        if text.len() as u64 > MESSAGE_MAX {
            return Err(PipeFault::TooMuch);
        }
        self.send(text)
    }

    // Reads the ranges of a request.
    fn read_ranges(&mut self, ranges: u64) -> Result<Vec<Part>, PipeFault>
        ensures few { OnOk result (ranges ≤ RANGES_MAX) }
        ensures ascend { IfOk result (λ parts. (low : Entry) × DoAscend (Some low) parts.items) }
    {
        if ranges > RANGES_MAX {
            return Err(PipeFault::Lied);
        }
        let mut parts = Vec::new(self.alloc);
        'reading: for _ in 0..ranges {
            let range = self.inlet.range()?;
            parts.push(part_of(range))?;
        }
        let first = Place::first(self.alloc);
        if !do_ascend(Some(&first), parts.as_slice()) {
            return Err(PipeFault::Lied);
        }
        Ok(parts)
    }

    // Answers with the parts of a range.
    fn tell_parts<S: RangedSet>(&mut self, set: &mut S, most: u64) -> Result<(), PipeFault>
        ensures { S.entries set.new ≡ S.entries set.old }
    {
        let most = checked_most(most)?;
        let range = self.inlet.range()?;
        let parts = set.parts(&range, most)?;
        let mut text = Vec::new(self.alloc);
        put_parts(&mut text, parts.as_slice())?;
        self.send_answer(text.as_slice())
    }

    // Answers with the finer parts of some ranges.
    fn tell_cuts<S: RangedSet>(
        &mut self,
        set: &mut S,
        most: u64,
        ranges: u64,
    ) -> Result<(), PipeFault>
        ensures { S.entries set.new ≡ S.entries set.old }
    {
        let most = checked_most(most)?;
        let asked = self.read_ranges(ranges)?;
        let mut text = Vec::new(self.alloc);
        write_answer(&mut text, Answer::Cuts { ranges })?;
        'asked: for part in asked.as_slice() {
            let parts = set.parts(&part.range, most)?;
            put_parts(&mut text, parts.as_slice())?;
            if text.len() as u64 > MESSAGE_MAX {
                return Err(PipeFault::TooMuch);
            }
        }
        self.send_answer(text.as_slice())
    }

    // Answers with the records of some ranges.
    fn tell_records<S: RangedSet>(&mut self, set: &mut S, ranges: u64) -> Result<(), PipeFault>
        ensures { S.entries set.new ≡ S.entries set.old }
    {
        let asked = self.read_ranges(ranges)?;
        let records = set.within(asked.as_slice())?;
        if octets_of(&records) > MESSAGE_MAX {
            return Err(PipeFault::TooMuch);
        }
        let mut archive = Vec::new(self.alloc);
        write_records(&mut archive, &records)?;
        let octets = archive.len() as u64;
        let mut text = Vec::new(self.alloc);
        write_answer(&mut text, Answer::Archive { octets })?;
        text.append(&mut archive)?;
        self.send_answer(text.as_slice())?;
        self.traffic.sent.add_records(records.len());
        Ok(())
    }

    // Reads the records that are put, if there is room for them and for the files that they may make.
    fn read_put(&mut self, octets: u64, room: &mut u64) -> Result<Records, PipeFault>
        ensures count { IfOk result (λ records. length (text_of records) ≡ octets) }
        ensures few { OnOk result (octets ≤ PAYLOAD_MAX) }
        ensures room { OnOk result (room.new + octets ≤ room.old) }
        ensures cost { OnOk result (room.new + PUT_COST ≤ room.old) }
    {
        if octets > PAYLOAD_MAX {
            return Err(PipeFault::Lied);
        }
        let cost = octets.max(PUT_COST);
        if cost > *room {
            return Err(PipeFault::TooMuch);
        }
        *room -= cost;
        let mut records = Records::new(self.alloc);
        self.inlet.records(&mut records, octets as usize)?;
        self.traffic.got.add_records(records.len());
        Ok(records)
    }
}

// What may be put into a set.
#[derive(Clone, Copy)]
struct Leave {
    is_read_only: bool,
    // how many octets of records may be put yet, and how often
    room: u64,
    puts: u64,
}

impl Leave {
    // Takes the records that are put, and says that they are kept; or refuses them.
    fn take<S: RangedSet, R: Input, W: Output>(
        &mut self,
        set: &mut S,
        pipe: &mut Pipe<R, W>,
        octets: u64,
    ) -> Result<(), PipeFault>
        ensures keeps { Keeps (S.entries set.old) (S.entries set.new) }
        ensures read_only { IsTrue self.old.is_read_only → S.entries set.new ≡ S.entries set.old }
        ensures same { self.new.is_read_only ≡ self.old.is_read_only }
        ensures kept { OnOk result (IsFalse self.old.is_read_only → (es : List Entry)
            × (length (text_of es) ≡ octets)
            × IsJoined (S.entries set.old) es (S.entries set.new)) }
        ensures few { OnOk result (self.new.puts < self.old.puts) }
    {
        if self.puts == 0 {
            return Err(PipeFault::TooMuch);
        }
        self.puts -= 1;
        let records = pipe.read_put(octets, &mut self.room)?;
        if self.is_read_only {
            return pipe.say(Answer::Refused);
        }
        set.add(&records)?;
        pipe.say(Answer::Kept)
    }

    // Answers a request.
    fn respond<S: RangedSet, R: Input, W: Output>(
        &mut self,
        set: &mut S,
        pipe: &mut Pipe<R, W>,
        request: Request,
    ) -> Result<(), PipeFault>
        ensures keeps { Keeps (S.entries set.old) (S.entries set.new) }
        ensures read_only { IsTrue self.old.is_read_only → S.entries set.new ≡ S.entries set.old }
        ensures same { self.new.is_read_only ≡ self.old.is_read_only }
    {
        match request {
            Request::Parts { most } => pipe.tell_parts(set, most),
            Request::Split { most, ranges } => pipe.tell_cuts(set, most, ranges),
            Request::Get { ranges } => pipe.tell_records(set, ranges),
            Request::Put { octets } => self.take(set, pipe, octets),
            Request::Hello | Request::End => Err(PipeFault::Lied),
        }
    }

    // Reads a request, and answers it; `false` at the end.
    fn turn<S: RangedSet, R: Input, W: Output>(
        &mut self,
        set: &mut S,
        pipe: &mut Pipe<R, W>,
    ) -> Result<bool, PipeFault>
        ensures keeps { Keeps (S.entries set.old) (S.entries set.new) }
        ensures read_only { IsTrue self.old.is_read_only → S.entries set.new ≡ S.entries set.old }
        ensures same { self.new.is_read_only ≡ self.old.is_read_only }
    {
        pipe.inlet.begin();
        match pipe.inlet.request()? {
            None => Err(PipeFault::Lied),
            Some(Request::End) => Ok(false),
            Some(request) => {
                pipe.traffic.add_request();
                self.respond(set, pipe, request)?;
                Ok(true)
            }
        }
    }

    // Both say their version.
    fn greet<R: Input, W: Output>(&self, pipe: &mut Pipe<R, W>) -> Result<(), PipeFault> {
        match pipe.inlet.request()? {
            Some(Request::Hello) => pipe.say(Answer::Hello {
                is_read_only: self.is_read_only,
            }),
            _ => Err(PipeFault::Version),
        }
    }

    // Answers until the end.
    fn serve<S: RangedSet, R: Input, W: Output>(
        &mut self,
        set: &mut S,
        pipe: &mut Pipe<R, W>,
    ) -> Result<(), PipeFault>
        ensures keeps { Keeps (S.entries set.old) (S.entries set.new) }
        ensures read_only { IsTrue self.old.is_read_only → S.entries set.new ≡ S.entries set.old }
    {
        self.greet(pipe)?;
        'turns: for _ in 0..u64::MAX {
            if !self.turn(set, pipe)? {
                return Ok(());
            }
        }
        Err(PipeFault::TooMuch)
    }
}

/// Answers what a peer asks of a set, until it ends the exchange. Records that it puts are added,
/// unless the set is read only; all together they have at most `room` octets, each put counting as
/// `PUT_COST` at least, and there are at most `PUTS_MAX`.
///
/// # Errors
/// The first fault that is met; the peer is told that the answer failed. What came before it stays.
pub fn answer<S: RangedSet, R: Input + Drop, W: Output + Drop>(
    alloc: Global,
    set: &mut S,
    is_read_only: bool,
    room: u64,
    input: R,
    output: W,
) -> Result<Traffic, PipeFault>
    ensures keeps { Keeps (S.entries set.old) (S.entries set.new) }
    ensures read_only { IsTrue is_read_only → S.entries set.new ≡ S.entries set.old }
{
    let mut pipe = Pipe::new(alloc, input, output, u64::MAX);
    let mut leave = Leave {
        is_read_only,
        room,
        puts: PUTS_MAX,
    };
    match leave.serve(set, &mut pipe) {
        Ok(()) => Ok(pipe.traffic()),
        Err(PipeFault::Output) => Err(PipeFault::Output),
        Err(fault) => {
            let _ = pipe.say(Answer::Failed);
            Err(fault)
        }
    }
}
