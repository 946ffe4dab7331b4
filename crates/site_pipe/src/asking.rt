//! Requests are sent, and their answers read.

ghost use Rattle.std.specs.Prelude.{◌≡◌};

use crate::batch::{Asked, Wanted};
use crate::fault::PipeFault;
use crate::inlet::Inlet;
use crate::traffic::Traffic;
use octet_devices::{Input, Output, write_all};
use reconcile::{Part, Place, Range, Records};
use site_messages::{
    Answer, MESSAGE_MAX, MOST_MAX, PARTS_MAX, Request, write_entries, write_range, write_request,
};
use std::alloc::Global;

/// Both ways of a pipe, and what crossed.
#[derive(Drop)]
pub struct Pipe<R, W> {
    pub alloc: Global,
    pub inlet: Inlet<R>,
    pub output: W,
    pub traffic: Traffic,
}

impl<R: Input, W: Output> Pipe<R, W> {
    /// A pipe over which nothing crossed.
    pub fn new(alloc: Global, input: R, output: W, room: u64) -> Pipe<R, W> {
        Pipe {
            alloc,
            inlet: Inlet::new(alloc, input, room),
            output,
            traffic: Traffic::new(),
        }
    }

    /// How much crossed.
    pub fn traffic(&self) -> Traffic {
        let mut traffic = self.traffic;
        traffic.got.octets = self.inlet.came();
        traffic
    }

    /// Sends a message.
    pub fn send(&mut self, text: &[u8]) -> Result<(), PipeFault> {
        self.traffic.sent.add_octets(text.len());
        match write_all(&mut self.output, text) {
            Ok(()) => Ok(()),
            Err(_) => Err(PipeFault::Output),
        }
    }

    // Reads the line of an answer.
    fn answer(&mut self) -> Result<Answer, PipeFault> {
        match self.inlet.answer()? {
            None => Err(PipeFault::Lied),
            Some(Answer::Failed) => Err(PipeFault::Failed),
            Some(Answer::Refused) => Err(PipeFault::Refused),
            Some(answer) => Ok(answer),
        }
    }

    // Sends a request, and reads the line of its answer.
    fn ask(&mut self, text: &[u8]) -> Result<Answer, PipeFault> {
        self.traffic.add_request();
        self.inlet.begin();
        self.send(text)?;
        self.answer()
    }

    /// Both say their version; the peer says whether it takes records.
    pub fn greet(&mut self) -> Result<bool, PipeFault> {
        let mut text = Vec::new(self.alloc);
        write_request(&mut text, Request::Hello)?;
        self.inlet.begin();
        self.send(text.as_slice())?;
        match self.inlet.answer()? {
            Some(Answer::Hello { is_read_only }) => Ok(is_read_only),
            Some(Answer::Failed) => Err(PipeFault::Failed),
            _ => Err(PipeFault::Version),
        }
    }

    /// Says that there is no more to ask.
    pub fn finish(&mut self) -> Result<(), PipeFault> {
        let mut text = Vec::new(self.alloc);
        write_request(&mut text, Request::End)?;
        self.send(text.as_slice())
    }

    // Reads the parts behind their line, at most so many.
    fn read_parts(&mut self, answer: Answer, most: u64) -> Result<Vec<Part>, PipeFault> {
        match answer {
            Answer::Parts { parts } if parts <= most => self.inlet.parts(parts),
            _ => Err(PipeFault::Lied),
        }
    }

    /// Asks for the parts of a range.
    pub fn ask_parts(&mut self, range: &Range, most: u64) -> Result<Vec<Part>, PipeFault> {
        let mut text = Vec::new(self.alloc);
        write_request(&mut text, Request::Parts { most })?;
        write_range(&mut text, range)?;
        let answer = self.ask(text.as_slice())?;
        self.read_parts(answer, PARTS_MAX)
    }

    // Sends a request with the ranges of some parts, and reads the line of its answer.
    fn ask_ranges(&mut self, request: Request, asked: &[Asked<'_>]) -> Result<Answer, PipeFault> {
        let mut text = Vec::new(self.alloc);
        write_request(&mut text, request)?;
        for one in asked {
            write_range(&mut text, &one.part.range)?;
        }
        self.ask(text.as_slice())
    }

    /// Asks for finer parts of each of some parts, by one message.
    pub fn ask_cuts(
        &mut self,
        asked: &[Asked<'_>],
        most: u64,
        cuts: &mut Vec<Cut>,
    ) -> Result<(), PipeFault> {
        let ranges = asked.len() as u64;
        let answer = self.ask_ranges(Request::Split { most, ranges }, asked)?;
        if answer != (Answer::Cuts { ranges }) {
            return Err(PipeFault::Lied);
        }
        for one in asked {
            let line = self.answer()?;
            let parts = self.read_parts(line, MOST_MAX)?;
            cuts.push(Cut {
                index: one.index,
                parts,
            })?;
        }
        Ok(())
    }

    /// Asks for the records of some parts, by one message, and puts them behind others.
    pub fn ask_records(
        &mut self,
        asked: &[Asked<'_>],
        records: &mut Records,
    ) -> Result<(), PipeFault> {
        let ranges = asked.len() as u64;
        let octets = match self.ask_ranges(Request::Get { ranges }, asked)? {
            Answer::Archive { octets } if octets <= MESSAGE_MAX => octets as usize,
            _ => return Err(PipeFault::Lied),
        };
        let before = records.len();
        self.inlet.records(records, octets)?;
        let got = records.len().saturating_sub(before);
        self.traffic.got.add_records(got);
        Ok(())
    }

    /// Hands over records, by one message.
    pub fn hand_over(&mut self, entries: &[Place]) -> Result<(), PipeFault> {
        let mut archive = Vec::new(self.alloc);
        write_entries(&mut archive, entries)?;
        let octets = archive.len() as u64;
        let mut text = Vec::new(self.alloc);
        write_request(&mut text, Request::Put { octets })?;
        text.append(&mut archive)?;
        let answer = self.ask(text.as_slice())?;
        if answer != Answer::Kept {
            return Err(PipeFault::Lied);
        }
        self.traffic.sent.add_records(entries.len());
        Ok(())
    }
}

impl<R: Input + Drop, W: Output> Pipe<R, W> {
    /// The output.
    pub fn into_output(self) -> W
        ensures { result ≡ self.output }
    {
        let Pipe {
            alloc: _,
            inlet: _,
            output,
            traffic: _,
        } = self;
        output
    }
}

/// Finer parts of a part, and where that was named.
#[derive(Drop)]
pub struct Cut {
    pub index: usize,
    pub parts: Vec<Part>,
}
