//! The peer over a pipe.

ghost use Rattle.std.specs.Prelude.{◌≡◌, ◌≤◌, ◌<◌, ◌+◌, ◌^◌, Ok, IfOk, IsOk, OnErr, OnOk, length};
ghost use Rattle.std.specs.Result.{is_ok};
ghost use Rattle.site_pipe.specs.Counts.{KeepsCounts};

use crate::asking::{Cut, Pipe};
use crate::batch::{Wanted, in_order};
use crate::fault::PipeFault;
use crate::traffic::Traffic;
use octet_devices::{Input, Output};
use reconcile::{Part, Peer, Place, Range, Records, Stopped};
use site_messages::{MOST_MAX, MOST_MIN, PAYLOAD_MAX, entry_size};
use std::alloc::Global;

/// The other site over a pipe. Nothing is known of it: it may answer anything.
#[derive(Drop)]
pub struct PipePeer<R, W> {
    alloc: Global,
    pipe: Pipe<R, W>,
    is_read_only: bool,
    fault: Option<PipeFault>,
    requests: u64,
    put: u64,
    kept: u64,
}

// How many of some entries one message hands over: as many as the limit allows, but one at least.
fn batch_len(entries: &[Place]) -> usize
    requires { 0 < length entries.now }
    ensures some { 0 < result }
    ensures within { result ≤ length entries.now }
{
    let mut octets: u64 = 0;
    for (at, entry) in entries.iter().enumerate() {
        octets = octets.saturating_add(entry_size(entry));
        if at > 0 && octets > PAYLOAD_MAX {
            return at;
        }
    }
    entries.len()
}

// The parts of each cut, in the order in which the cuts were asked for.
fn as_named(alloc: Global, mut cuts: Vec<Cut>) -> Result<Vec<Vec<Part>>, PipeFault> {
    cuts.sort_by_key(|cut| cut.index)?;
    let mut lists = Vec::new(alloc);
    for cut in cuts {
        lists.push(cut.parts)?;
    }
    Ok(lists)
}

impl<R: Input, W: Output> PipePeer<R, W> {
    /// The peer at the other end of an input and an output, from which at most `room` octets are got.
    pub fn new(alloc: Global, input: R, output: W, room: u64) -> PipePeer<R, W> {
        PipePeer {
            alloc,
            pipe: Pipe::new(alloc, input, output, room),
            is_read_only: false,
            fault: None,
            requests: 0,
            put: 0,
            kept: 0,
        }
    }

    /// Both say their version. This comes before all else.
    ///
    /// # Errors
    /// `Version`: the peer does not speak it.
    pub fn greet(&mut self) -> Result<(), PipeFault> {
        match self.pipe.greet() {
            Ok(is_read_only) => {
                self.is_read_only = is_read_only;
                Ok(())
            }
            Err(fault) => {
                self.fault = Some(fault);
                Err(fault)
            }
        }
    }

    /// Whether the peer said that it takes no records.
    pub fn is_read_only(&self) -> bool {
        self.is_read_only
    }

    /// How much crossed.
    pub fn traffic(&self) -> Traffic {
        self.pipe.traffic()
    }

    /// Why the exchange ended before its end, if it did.
    pub fn fault(&self) -> Option<PipeFault> {
        self.fault
    }

    /// Says that there is no more to ask.
    pub fn finish(&mut self) -> Result<(), PipeFault> {
        match self.fault {
            Some(fault) => Err(fault),
            None => self.pipe.finish(),
        }
    }

    // Keeps why there is no answer.
    fn told<A>(&mut self, answer: Result<A, PipeFault>) -> Result<A, Stopped>
        ensures counts { KeepsCounts self.old self.new }
        ensures ok { is_ok result ≡ is_ok answer }
    {
        match answer {
            Ok(answer) => Ok(answer),
            Err(fault) => {
                self.fault = Some(fault);
                Err(fault.stopped())
            }
        }
    }

    // Counts a request, unless the exchange has ended.
    fn begin(&mut self) -> Result<(), Stopped>
        ensures requests { self.new.requests ≤ self.old.requests + 1 }
        ensures put { self.new.put ≡ self.old.put }
        ensures kept { self.new.kept ≡ self.old.kept }
    {
        if self.fault.is_some() {
            return Err(Stopped::Broken);
        }
        self.requests = self.requests.saturating_add(1);
        Ok(())
    }

    // Asks for finer parts, a message at a time.
    fn ask_cuts(&mut self, parts: &[Part], most: u64) -> Result<Vec<Vec<Part>>, PipeFault>
        ensures { KeepsCounts self.old self.new }
    {
        let most = most.clamp(MOST_MIN, MOST_MAX);
        let asked = in_order(self.alloc, parts)?;
        let mut cuts = Vec::new(self.alloc);
        let mut at = 0;
        'batches: while at < asked.len() {
            let end = Wanted::Cuts { most }.batch_end(asked.as_slice(), at);
            self.pipe
                .ask_cuts(&asked.as_slice()[at..end], most, &mut cuts)?;
            at = end;
        }
        as_named(self.alloc, cuts)
    }

    // Asks for records, a message at a time.
    fn ask_records(&mut self, parts: &[Part]) -> Result<Records, PipeFault>
        ensures { KeepsCounts self.old self.new }
    {
        let asked = in_order(self.alloc, parts)?;
        let mut records = Records::new(self.alloc);
        let mut at = 0;
        'batches: while at < asked.len() {
            let end = Wanted::Records.batch_end(asked.as_slice(), at);
            self.pipe
                .ask_records(&asked.as_slice()[at..end], &mut records)?;
            at = end;
        }
        Ok(records)
    }

    // Hands over entries, a message at a time.
    fn hand_over(&mut self, entries: &[Place]) -> Result<(), PipeFault>
        requires { self.old.kept + length entries.now < 2 ^ 64 }
        ensures requests { self.new.requests ≡ self.old.requests }
        ensures put { self.new.put ≡ self.old.put }
        ensures kept { OnOk result (self.new.kept ≡ self.old.kept + length entries.now) }
    {
        let mut rest = entries;
        'batches: while !rest.is_empty() {
            let (batch, after) = rest.split_at(batch_len(rest));
            self.pipe.hand_over(batch)?;
            self.kept += batch.len() as u64;
            rest = after;
        }
        Ok(())
    }
}

impl<R: Input + Drop, W: Output> PipePeer<R, W> {
    /// The output.
    pub fn into_output(self) -> W
        ensures { result ≡ self.pipe.output }
    {
        let PipePeer {
            alloc: _,
            pipe,
            is_read_only: _,
            fault: _,
            requests: _,
            put: _,
            kept: _,
        } = self;
        pipe.into_output()
    }
}

impl<R: Input, W: Output> Peer for PipePeer<R, W> {
    ghost use Rattle.std.specs.Prelude.{[]};

    ghost held = { λ _. [] };

    ghost seen = { λ p. record { requests = p.requests; put = p.put; kept = p.kept } };

    ghost is_honest = { λ _. ⊥ };

    fn parts(&mut self, range: &Range, most: u64) -> Result<Vec<Part>, Stopped> {
        self.begin()?;
        let answer = self.pipe.ask_parts(range, most.clamp(MOST_MIN, MOST_MAX));
        self.told(answer)
    }

    fn split(&mut self, parts: &[Part], most: u64) -> Result<Vec<Vec<Part>>, Stopped> {
        self.begin()?;
        let answer = self.ask_cuts(parts, most);
        self.told(answer)
    }

    fn get(&mut self, parts: &[Part]) -> Result<Records, Stopped> {
        self.begin()?;
        let answer = self.ask_records(parts);
        self.told(answer)
    }

    fn put(&mut self, records: &Records) -> Result<(), Stopped> {
        self.begin()?;
        let count = records.len() as u64;
        let (Some(put), Some(_)) = (self.put.checked_add(count), self.kept.checked_add(count))
        else {
            return Err(Stopped::Broken);
        };
        self.put = put;
        let answer = self.hand_over(records.entries());
        self.told(answer)
    }

    ghost archive = { λ p h. absurd h };
}
