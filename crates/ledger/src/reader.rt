//! A ledger is read whole.

ghost use Rattle.std.specs.Prelude.{◌≡◌, ◌↔◌, ◌++◌, ◌∷◌, [], IfOk, IfSome, IsTrue, List, MatchResult, OnOk, ℕ};
ghost use Rattle.ledger.specs.Readings.{IsAsked, IsRead, IsReadFault};
ghost use Rattle.std.specs.Io.KnownBytes.{IsAtEnd};

use crate::fault::LedgerFault;
use crate::head::{ChainHead, LINE_MAX};
use crate::standing::Standing;
use crate::words::is;
use octet_devices::{DeviceFault, Input, READ_MAX};
use std::alloc::{AllocError, Global};

/// What a ledger says, up to its last whole line.
#[derive(Drop)]
pub struct LedgerRead {
    /// The segments that it lists.
    pub standing: Standing,
    /// Where it stands behind its last line.
    pub head: ChainHead,
    /// How many octets its lines have, with their line feeds.
    pub whole: u64,
    /// Whether the line that was asked for stands in it.
    pub has_line: bool,
}

fn push(line: &mut Vec<u8>, octet: u8) -> Result<(), AllocError>
    ensures { OnOk result (line.new.items ≡ line.old.items ++ octet ∷ []) }
{
    line.push(octet)?;
    Ok(())
}

// Whether a line is the one that is asked for.
fn is_asked(line: &[u8], against: Option<&[u8]>) -> bool
    ensures { IsTrue result ↔ IsAsked against.entry line.now }
{
    match against {
        Some(asked) => is(line, asked),
        None => false,
    }
}

impl LedgerRead {
    ghost use Rattle.ledger.specs.Readings.{AddsLine, IsNoLine};

    // Adds a line behind those that were read.
    fn add(&mut self, line: &[u8], against: Option<&[u8]>) -> Result<(), LedgerFault>
        ensures { MatchResult result (λ _. AddsLine self.old self.new against.entry line.now)
            (λ fault. IsNoLine self.old line.now fault) }
    {
        let Some((entry, head)) = self.head.follow(line) else {
            return Err(LedgerFault::Broken { at: self.whole });
        };
        self.standing.take(head.number(), &entry)?;
        self.head = head;
        self.whole = self.whole.saturating_add(line.len() as u64 + 1);
        self.has_line = self.has_line || is_asked(line, against);
        Ok(())
    }
}

// A ledger of which a part was read: its whole lines, and what came of the next one.
#[derive(Drop)]
struct Reading<'a> {
    read: LedgerRead,
    line: Vec<u8>,
    against: Option<&'a [u8]>,
}

impl<'a> Reading<'a> {
    ghost use Rattle.ledger.specs.Readings.{Gives, HasTaken, Takes};

    fn new(alloc: Global, against: Option<&'a [u8]>) -> Result<Reading<'a>, AllocError>
        ensures taken { IfOk result (λ r. HasTaken r []) }
        ensures against { IfOk result (λ r. r.against ≡ against.entry) }
    {
        Ok(Reading {
            read: LedgerRead {
                standing: Standing::new(alloc),
                head: ChainHead::start(),
                whole: 0,
                has_line: false,
            },
            line: Vec::with_capacity(alloc, LINE_MAX)?,
            against,
        })
    }

    // Takes a line feed, which ends the line.
    fn take_line(&mut self) -> Result<(), LedgerFault>
        ensures { Takes self.old self.new (10 ∷ []) result }
    {
        self.read.add(&self.line, self.against)?;
        self.line.clear();
        Ok(())
    }

    // Takes the next octet.
    fn take(&mut self, octet: u8) -> Result<(), LedgerFault>
        ensures { Takes self.old self.new (octet ∷ []) result }
    {
        if octet == b'\n' {
            return self.take_line();
        }
        if self.line.len() + 1 >= LINE_MAX {
            return Err(LedgerFault::Broken {
                at: self.read.whole,
            });
        }
        push(&mut self.line, octet)?;
        Ok(())
    }

    // Takes the octets that come next.
    fn take_all(&mut self, octets: &[u8]) -> Result<(), LedgerFault>
        ensures { Takes self.old self.new octets.now result }
    {
        for octet in octets {
            self.take(*octet)?;
        }
        Ok(())
    }

    // Reads on to the end.
    fn read_on<R: Input>(&mut self, input: &mut R) -> Result<(), LedgerFault>
        ensures { MatchResult result
            (λ _. Gives (R.state input.old) (R.state input.new) self.old self.new
            × IsAtEnd (R.state input.new).left)
            (λ fault. HasTaken self.old []
            → IsReadFault fault (R.state input.old) (R.state input.new)) }
    {
        let mut piece = [0u8; READ_MAX];
        for _turn in 0..u64::MAX {
            let n = match input.read(&mut piece) {
                Ok(n) => n,
                Err(fault) => return Err(LedgerFault::Input(fault)),
            };
            if n == 0 {
                return Ok(());
            }
            self.take_all(&piece[..n])?;
        }
        Err(LedgerFault::Input(DeviceFault))
    }
}

/// Reads a ledger to its end, with room for a piece of it, a line, and the segments that are listed.
/// What stands behind its last line feed is no line yet, and counts for nothing. `against` is a line
/// without its line feed that may stand in it.
///
/// # Errors
/// The octet where the first line begins that is none or does not continue the chain; the input's
/// fault; or out of memory.
pub fn read_ledger<R: Input>(
    alloc: Global,
    input: &mut R,
    against: Option<&[u8]>,
) -> Result<LedgerRead, LedgerFault>
    ensures { MatchResult result
        (λ r. IfSome (R.state input.old).left
        (λ text. (torn : List ℕ) × IsRead against.entry text r torn))
        (λ fault. IsReadFault fault (R.state input.old) (R.state input.new)) }
{
    let mut reading = Reading::new(alloc, against)?;
    reading.read_on(input)?;
    let Reading {
        read,
        line: _,
        against: _,
    } = reading;
    Ok(read)
}
