//! Records come in counted frames on standard input, and are kept.

use crate::keeper::Keeper;
use anyhow::{Result, bail};
use std::io::{Read, Write};
use syslog_frame::{Framing, Ready, Scanner};

// the most octets that are asked for in a call
const PIECE: usize = 65_536;

/// When a batch is committed, and when a checkpoint is made.
#[derive(Clone, Copy, Debug)]
pub struct Limits {
    /// How many records a batch has.
    pub batch: u64,
    /// How many octets a journal has before a checkpoint.
    pub checkpoint: u64,
}

// A store and its limits, and how many records it was given.
#[derive(Drop)]
struct Keeping<'a> {
    rt: &'a HostRuntime,
    keeper: &'a mut Keeper,
    limits: Limits,
    received: u64,
    waiting: u64,
}

impl<'a> Keeping<'a> {
    fn commit(&mut self) -> Result<()> {
        self.keeper.commit()?;
        self.waiting = 0;
        let count = self.received;
        println!(self.rt; "committed {count}")?;
        if self.keeper.journal_len() > self.limits.checkpoint {
            self.keeper.checkpoint()?;
            println!(self.rt; "checkpoint {count}")?;
        }
        Ok(())
    }

    fn record(&mut self, octets: &[u8]) -> Result<()> {
        self.keeper.add(octets)?;
        self.received = self.received.saturating_add(1);
        self.waiting = self.waiting.saturating_add(1);
        if self.waiting >= self.limits.batch {
            self.commit()?;
        }
        Ok(())
    }

    // Takes the frames that end in a piece.
    fn take(&mut self, scanner: &mut Scanner, piece: &[u8]) -> Result<()> {
        let mut rest = piece;
        for _ in 0..u64::MAX {
            let Ok(used) = scanner.push(rest) else {
                bail!("standard input: too long");
            };
            rest = &rest[used..];
            match scanner.ready() {
                Some(Ready::Frame(frame)) => self.record(frame)?,
                Some(_) => bail!("standard input: no frame"),
                None => return Ok(()),
            }
            let _ = scanner.release();
        }
        Ok(())
    }
}

/// Keeps the records of standard input in the store of a folder. It fails at the first fault that
/// is met.
pub fn keep(rt: &HostRuntime, dir: &str, limits: Limits) -> Result<()> {
    let alloc = rt.alloc();
    let mut keeper = Keeper::open(rt, dir)?;
    println!(rt; "open")?;
    let mut keeping = Keeping {
        rt,
        keeper: &mut keeper,
        limits,
        received: 0,
        waiting: 0,
    };
    let mut scanner = Scanner::new(alloc, Framing::Counted)?;
    let mut piece = vec![in alloc; 0u8; PIECE]?;
    let mut input = rt.stdin();
    for _ in 0..u64::MAX {
        let n = input.read(&mut piece)?;
        if n == 0 {
            break;
        }
        keeping.take(&mut scanner, &piece[..n])?;
    }
    if keeping.waiting > 0 {
        keeping.commit()?;
    }
    let count = keeping.received;
    println!(rt; "end {count}")?;
    Ok(())
}
