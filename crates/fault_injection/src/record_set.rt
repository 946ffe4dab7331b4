//! Sets of records at random, their frames and their archives.

use crate::random::Random;
use crate::route::Frame;
use crate::sample::{Sample, Style};
use crate::sampling::sample;
use archive_vec::VecArchive;
use std::alloc::{AllocError, Global};
use std::io;
use std::io::Write;
use syslog_frame::FRAME_MAX;
use syslog_grammar::{decode, view};
use syslog_value::Instant;

/// Frames that are no records.
const REFUSED: [&[u8]; 12] = [
    b"",
    b"x",
    b"16 <0>1 - - - - - -",
    b"<192>1 - - - - - - x",
    b"<0>1 - - - - -",
    b"<0>1 - - - - - ",
    b"<0>1 - - - - - [a][b][a]",
    b"<0>1 2003-02-29T00:00:00Z - - - - -",
    b"<0>1 9999-12-31T23:59:59-00:01 - - - - -",
    b"<0>1 - - - - - [a k=\"]\"]",
    b"<0>1 - - - - - - \xef\xbb\xbf\xff",
    b"\n",
];

/// Records, no two of which are equal, and the canonical form of each.
#[derive(Drop)]
pub struct RecordSet {
    samples: Vec<Sample>,
    canonical: Vec<Vec<u8>>,
}

/// A frame that is no record: one of those that are known, one that is too long, or the octets of a
/// record, cut or changed.
fn refused(alloc: Global, random: &mut Random, sample: &Sample) -> io::Result<Vec<u8>> {
    let chosen = random.below(40);
    if chosen == 0 {
        let size = FRAME_MAX + 1 + random.below(9);
        return Ok(vec![in alloc; b'<'; size]?);
    }
    if chosen < 20 {
        return Ok(random.one_of(&REFUSED).to_vec(alloc)?);
    }
    let mut octets = sample.spelled(alloc, Style::free(random.bits()))?;
    let place = random.below(octets.len());
    if chosen < 30 {
        octets.truncate(place);
    } else if let Some(octet) = octets.get_mut(place) {
        *octet = b'\xff';
    }
    if view(&octets).is_ok() {
        return Ok(random.one_of(&REFUSED).to_vec(alloc)?);
    }
    Ok(octets)
}

/// The instant of the record that was drawn last.
fn last_instant(samples: &[Sample]) -> Option<Instant> {
    match samples.last() {
        Some(sample) => sample.instant,
        None => None,
    }
}

impl RecordSet {
    /// Some records, at least one. It fails only when out of memory.
    pub fn new(alloc: Global, random: &mut Random) -> io::Result<RecordSet> {
        let count = if random.once_in(20) {
            300
        } else {
            1 + random.below(20)
        };
        let mut samples = Vec::new(alloc);
        let mut canonical: Vec<Vec<u8>> = Vec::new(alloc);
        for _ in 0..count {
            let drawn = sample(alloc, random, last_instant(&samples))?;
            let octets = drawn.spelled(alloc, Style::canonical())?;
            if canonical.iter().all(|other| *other != octets) {
                samples.push(drawn)?;
                canonical.push(octets)?;
            }
        }
        Ok(RecordSet { samples, canonical })
    }

    /// How many records there are.
    pub fn len(&self) -> usize {
        self.samples.len()
    }

    /// Whether the record at one index is below that at another in an archive: by their instants,
    /// none coming first, and then by their canonical octets.
    fn is_below(&self, one: usize, other: usize) -> bool {
        let (Some(left), Some(right)) = (self.samples.get(one), self.samples.get(other)) else {
            return false;
        };
        if left.instant != right.instant {
            return left.instant < right.instant;
        }
        self.canonical.get(one) < self.canonical.get(other)
    }

    /// The text of the archive: the canonical forms in order, each behind its length. It fails only
    /// when out of memory.
    pub fn text(&self, alloc: Global) -> io::Result<Vec<u8>> {
        let mut order: Vec<usize> = Vec::new(alloc);
        for at in 0..self.samples.len() {
            let below = order
                .iter()
                .filter(|other| self.is_below(**other, at))
                .count();
            order.insert(below.min(order.len()), at)?;
        }
        let mut text = Vec::new(alloc);
        for at in order.iter() {
            if let Some(octets) = self.canonical.get(*at) {
                let count = octets.len();
                write!(text, "{count} ")?;
                text.extend_from_slice(octets)?;
            }
        }
        Ok(text)
    }

    /// The archive of the records, or of one of them, added one by one. It fails only when out of
    /// memory.
    pub fn added(&self, alloc: Global, one: Option<usize>) -> io::Result<VecArchive> {
        let mut archive = VecArchive::new(alloc);
        for (at, octets) in self.canonical.iter().enumerate() {
            if one.is_none_or(|chosen| chosen == at) {
                let Ok(record) = decode(alloc, octets) else {
                    return Err(io::Error::new(io::ErrorKind::InvalidData, "no record"));
                };
                if archive.add(alloc, &record).is_err() {
                    return Err(AllocError)?;
                }
            }
        }
        Ok(archive)
    }

    /// Frames that spell each record at least once, except one if that is given, and others that
    /// are refused, in any order.
    pub fn frames(
        &self,
        alloc: Global,
        random: &mut Random,
        left_out: Option<usize>,
    ) -> io::Result<Vec<Frame>> {
        let mut frames = Vec::new(alloc);
        for (at, sample) in self.samples.iter().enumerate() {
            if random.once_in(3) {
                let octets = refused(alloc, random, sample)?;
                frames.push(Frame {
                    octets,
                    is_record: false,
                })?;
            }
            if left_out == Some(at) {
                continue;
            }
            for _ in 0..=random.below(3) {
                let octets = sample.spelled(alloc, Style::free(random.bits()))?;
                frames.push(Frame {
                    octets,
                    is_record: true,
                })?;
            }
        }
        random.shuffle(&mut frames);
        Ok(frames)
    }
}
