//! Records at random.

use crate::random::Random;
use crate::sample::{Element, Parameter, Sample};
use std::alloc::Global;
use std::io;
use syslog_value::Instant;

/// Characters of values and texts: those that are escaped, the ends of the ranges in UTF-8, and
/// usual ones.
const CHARACTERS: [&[u8]; 24] = [
    b"\"",
    b"\\",
    b"\\",
    b"]",
    b"[",
    b"=",
    b" ",
    b"a",
    b"n",
    b"Z",
    b"0",
    b"\n",
    b"\t",
    b"\x00",
    b"\x7f",
    b"\xc2\x80",
    b"\xc3\xa9",
    b"\xdf\xbf",
    b"\xe0\xa0\x80",
    b"\xed\x9f\xbf",
    b"\xef\xbb\xbf",
    b"\xef\xbf\xbf",
    b"\xf0\x90\x80\x80",
    b"\xf4\x8f\xbf\xbf",
];

/// Messages of any octets, none of which begins with the BOM.
const MESSAGES: [&[u8]; 12] = [
    b"",
    b"",
    b"x",
    b"y",
    b" ",
    b"-",
    b"\x00",
    b"\xff",
    b"\xef",
    b"\xef\xbb",
    b"\xef\xbb\xbe",
    b"su: 'su root' failed",
];

const BOM: &[u8] = b"\xef\xbb\xbf";

/// The first instant, and how many there are.
const FIRST: i64 = -62_167_219_200_000_000;

const INSTANTS: u64 = 315_569_520_000_000_000;

/// An instant or none: now and then that of another record, so that the octets decide their order.
fn instant(random: &mut Random, other: Option<Instant>) -> Option<Instant> {
    match random.below(8) {
        0 => return None,
        1 | 2 | 3 => return other,
        _ => {}
    }
    let micros = (random.bits() % INSTANTS) as i64 + FIRST;
    let unit = match random.below(3) {
        0 => 1_000_000,
        1 => 10_000,
        _ => 1,
    };
    Instant::from_micros(micros.wrapping_sub(micros.rem_euclid(unit)))
}

/// So many printable octets, without those that end a name if it is to be one.
fn printable(
    alloc: Global,
    random: &mut Random,
    count: usize,
    is_name: bool,
) -> io::Result<Vec<u8>> {
    let mut out = Vec::new(alloc);
    for _ in 0..count {
        let octet = 33 + random.below(94) as u8;
        let octet = match octet {
            b'=' | b']' | b'"' if is_name => b'n',
            _ => octet,
        };
        out.extend_from_slice(&[octet])?;
    }
    Ok(out)
}

/// How many octets a word or a name has that may have so many at most.
fn size(random: &mut Random, most: usize) -> usize {
    match random.below(16) {
        0 => most,
        1 => random.below(most).saturating_add(1),
        _ => random.below(4) + 1,
    }
}

/// The four words of the header.
fn words(alloc: Global, random: &mut Random) -> io::Result<Vec<Vec<u8>>> {
    let mut words = Vec::new(alloc);
    for most in [255usize, 48, 128, 32] {
        let word = if random.once_in(3) {
            b"-".as_slice().to_vec(alloc)?
        } else {
            let count = size(random, most);
            printable(alloc, random, count, false)?
        };
        words.push(word)?;
    }
    Ok(words)
}

/// Some characters.
fn text(alloc: Global, random: &mut Random) -> io::Result<Vec<&'static [u8]>> {
    let mut characters = Vec::new(alloc);
    for _ in 0..random.below(9) {
        characters.push(random.one_of(&CHARACTERS))?;
    }
    Ok(characters)
}

/// An element with up to three parameters, whose names may repeat.
fn element(alloc: Global, random: &mut Random) -> io::Result<Element> {
    let count = size(random, 32);
    let id = printable(alloc, random, count, true)?;
    let mut parameters = Vec::new(alloc);
    for _ in 0..random.below(4) {
        let count = size(random, 32);
        let name = printable(alloc, random, count, true)?;
        let value = text(alloc, random)?;
        parameters.push(Parameter { name, value })?;
    }
    Ok(Element { id, parameters })
}

/// Elements by id.
fn elements(alloc: Global, random: &mut Random) -> io::Result<Vec<Element>> {
    let mut elements: Vec<Element> = Vec::new(alloc);
    for _ in 0..random.below(5).saturating_sub(1) {
        let element = element(alloc, random)?;
        if elements.iter().all(|other| other.id != element.id) {
            let at = elements
                .iter()
                .filter(|other| other.id < element.id)
                .count();
            elements.insert(at.min(elements.len()), element)?;
        }
    }
    Ok(elements)
}

/// A message: none, a few octets, many, or a text behind the BOM.
fn message(alloc: Global, random: &mut Random) -> io::Result<Vec<u8>> {
    let mut out = Vec::new(alloc);
    match random.below(64) {
        0 => out.extend_from_slice(&vec![in alloc; b'm'; random.below(60_000)]?)?,
        1..=16 => {
            out.extend_from_slice(BOM)?;
            for character in text(alloc, random)?.iter() {
                out.extend_from_slice(character)?;
            }
        }
        17..=24 => {
            out.extend_from_slice(b"x")?;
            out.extend_from_slice(&random.bits().to_be_bytes())?;
        }
        _ => out.extend_from_slice(random.one_of(&MESSAGES))?,
    }
    Ok(out)
}

/// A record, which may have the instant of another one. It fails only when out of memory.
pub fn sample(alloc: Global, random: &mut Random, other: Option<Instant>) -> io::Result<Sample> {
    Ok(Sample {
        priority: random.below(192),
        instant: instant(random, other),
        words: words(alloc, random)?,
        elements: elements(alloc, random)?,
        message: message(alloc, random)?,
    })
}
