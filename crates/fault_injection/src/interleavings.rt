//! Families of interleavings of two connections, by pieces of 1 to 5 octets.

use crate::random::Random;
use crate::turns::{Play, Side};
use std::alloc::{AllocError, Global};
use std::io;

impl Play {
    /// Each interleaving in which the turn passes from one connection to the other at most three
    /// times. Gives their number, or None if one goes wrong.
    fn few_changes(&mut self, alloc: Global) -> Result<Option<u64>, AllocError> {
        self.start()?;
        let (firsts, seconds) = (self.left(Side::First), self.left(Side::Second));
        let mut count: u64 = 0;
        for first in 0..=firsts {
            for second in 0..=seconds {
                self.start()?;
                self.turns(Side::First, first)?;
                self.turns(Side::Second, second)?;
                if !self.is_right(alloc)? {
                    return Ok(None);
                }
                self.start()?;
                self.turns(Side::Second, second)?;
                self.turns(Side::First, first)?;
                self.turns(Side::Second, seconds)?;
                if !self.is_right(alloc)? {
                    return Ok(None);
                }
                count = count.saturating_add(2);
            }
        }
        Ok(Some(count))
    }

    /// Turns of so many pieces of the first connection and so many of the second, beginning with
    /// either.
    fn even_turns(&mut self, alloc: Global) -> Result<Option<u64>, AllocError> {
        let mut count: u64 = 0;
        for first in 1..9 {
            for second in 1..9 {
                for begins_second in [false, true] {
                    self.start()?;
                    if begins_second {
                        self.turns(Side::Second, second)?;
                    }
                    for _ in 0..self.left(Side::Second) {
                        self.turns(Side::First, first)?;
                        self.turns(Side::Second, second)?;
                    }
                    if !self.is_right(alloc)? {
                        return Ok(None);
                    }
                    count = count.saturating_add(1);
                }
            }
        }
        Ok(Some(count))
    }

    /// So many interleavings at random, each as likely as any other.
    fn random_turns(
        &mut self,
        alloc: Global,
        random: &mut Random,
        count: u64,
    ) -> Result<Option<u64>, AllocError> {
        for _ in 0..count {
            self.start()?;
            let both = self
                .left(Side::First)
                .saturating_add(self.left(Side::Second));
            for _ in 0..both {
                let (first, second) = (self.left(Side::First), self.left(Side::Second));
                let is_first = random.below(first.saturating_add(second)) < first;
                self.turn(if is_first { Side::First } else { Side::Second })?;
            }
            if !self.is_right(alloc)? {
                return Ok(None);
            }
        }
        Ok(Some(count))
    }

    /// Each interleaving whose turns are the bits of a number, from one number on and before
    /// another: of its 31 lowest bits, one that is set is a turn of the first connection.
    fn every_turn(&mut self, alloc: Global, from: u32, to: u32) -> Result<Option<u64>, AllocError> {
        self.start()?;
        let wanted = self.left(Side::First);
        let mut count: u64 = 0;
        for mask in from..to {
            if mask.count_ones() as usize != wanted {
                continue;
            }
            self.start()?;
            let mut bits = mask;
            for _ in 0..31 {
                let is_first = bits % 2 == 1;
                bits /= 2;
                self.turn(if is_first { Side::First } else { Side::Second })?;
            }
            if !self.is_right(alloc)? {
                return Ok(None);
            }
            count = count.saturating_add(1);
        }
        Ok(Some(count))
    }
}

/// What is told of a number of interleavings.
fn tell(rt: &impl Print, name: &str, size: usize, count: Option<u64>) -> io::Result<()> {
    match count {
        Some(count) => println!(rt; "size {size}, {name}: {count} are right"),
        None => println!(rt; "size {size}, {name}: wrong"),
    }
}

/// Families of interleavings, by pieces of each size from 1 to 5. It fails if the seed is refused,
/// memory runs out or nothing can be printed.
pub fn turns(rt: &impl Print, alloc: Global, seed: &str) -> io::Result<()> {
    let Ok(seed) = seed.parse::<u64>() else {
        return println!(rt; "no such number");
    };
    let mut random = Random::new(seed);
    for size in 1..6 {
        let mut play = Play::new(alloc, size);
        tell(rt, "at most three changes", size, play.few_changes(alloc)?)?;
        tell(rt, "even turns", size, play.even_turns(alloc)?)?;
        tell(
            rt,
            "at random",
            size,
            play.random_turns(alloc, &mut random, 10_000)?,
        )?;
    }
    Ok(())
}

/// One of so many parts of all interleavings by pieces of 5 octets. It fails if a word is refused,
/// memory runs out or nothing can be printed.
pub fn every_turn(rt: &impl Print, alloc: Global, part: &str, parts: &str) -> io::Result<()> {
    let (Ok(part), Ok(parts)) = (part.parse::<u32>(), parts.parse::<u32>()) else {
        return println!(rt; "no such numbers");
    };
    let width = 0x8000_0000_u32 / parts.max(1);
    let from = width.saturating_mul(part);
    let count = Play::new(alloc, 5).every_turn(alloc, from, from.saturating_add(width))?;
    tell(rt, "every one of a part", 5, count)
}
