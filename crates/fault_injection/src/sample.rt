//! Records that can be spelled in many ways, each with its canonical form.

use crate::random::Random;
use std::alloc::Global;
use std::io;
use std::io::Write;
use syslog_value::{Civil, Instant};

/// How a record is spelled.
#[derive(Drop)]
pub struct Style {
    random: Random,
    is_free: bool,
}

impl Style {
    /// Like the canonical form.
    pub fn canonical() -> Style {
        Style {
            random: Random::new(0),
            is_free: false,
        }
    }

    /// In any way that means the same.
    pub fn free(seed: u64) -> Style {
        Style {
            random: Random::new(seed),
            is_free: true,
        }
    }

    /// Whether to depart from the canonical form at a place, this time.
    fn departs(&mut self) -> bool {
        self.is_free && self.random.once_in(2)
    }

    /// How many digits a fraction has that needs so many.
    fn digits(&mut self, needed: usize) -> usize {
        if self.is_free {
            return needed.max(self.random.below(7));
        }
        6
    }

    /// How many minutes the clock is ahead of UTC.
    fn offset(&mut self) -> i64 {
        if !self.departs() {
            return 0;
        }
        let minutes = self.random.below(1440) as i64;
        if self.random.once_in(2) {
            -minutes
        } else {
            minutes
        }
    }
}

/// A parameter.
#[derive(Drop)]
pub struct Parameter {
    /// Its name.
    pub name: Vec<u8>,
    /// Its value, as characters in UTF-8.
    pub value: Vec<&'static [u8]>,
}

/// An element.
#[derive(Drop)]
pub struct Element {
    /// Its id.
    pub id: Vec<u8>,
    /// Its parameters, in their order.
    pub parameters: Vec<Parameter>,
}

/// A record.
#[derive(Drop)]
pub struct Sample {
    /// PRIVAL, 0 to 191.
    pub priority: usize,
    /// Its instant, if it has one.
    pub instant: Option<Instant>,
    /// The four words of its header; NILVALUE is `-`.
    pub words: Vec<Vec<u8>>,
    /// Its elements, by id.
    pub elements: Vec<Element>,
    /// The octets of its message, with the BOM if it has one.
    pub message: Vec<u8>,
}

/// Puts a fraction of a second: none if it needs no digits, or up to six digits.
fn put_fraction(micros: u32, style: &mut Style, out: &mut Vec<u8>) -> io::Result<()> {
    let mut digits = [b'0'; 6];
    let mut rest = micros;
    for digit in digits.iter_mut().rev() {
        *digit = b'0' + (rest % 10) as u8;
        rest /= 10;
    }
    let mut needed = 0;
    for (at, digit) in digits.iter().enumerate() {
        if *digit != b'0' {
            needed = at + 1;
        }
    }
    let count = style.digits(needed);
    if count > 0 {
        out.extend_from_slice(b".")?;
    }
    for digit in digits.iter().take(count) {
        out.extend_from_slice(&[*digit])?;
    }
    Ok(())
}

/// Puts an offset from UTC, which has three forms if it is zero.
fn put_offset(minutes: i64, style: &mut Style, out: &mut Vec<u8>) -> io::Result<()> {
    if minutes == 0 && !style.departs() {
        out.extend_from_slice(b"Z")?;
        return Ok(());
    }
    let is_behind = minutes < 0 || (minutes == 0 && style.departs());
    let sign = if is_behind { '-' } else { '+' };
    let minutes = minutes.unsigned_abs();
    let (hours, minutes) = (minutes / 60, minutes % 60);
    write!(out, "{sign}{hours:02}:{minutes:02}")
}

/// Puts a timestamp in some zone, but in UTC if the year would be out of range there.
fn put_time(instant: Option<Instant>, style: &mut Style, out: &mut Vec<u8>) -> io::Result<()> {
    let Some(instant) = instant else {
        out.extend_from_slice(b"-")?;
        return Ok(());
    };
    let ahead = style.offset();
    let shifted = instant
        .micros()
        .wrapping_add(ahead.wrapping_mul(60_000_000));
    let (local, ahead) = match Instant::from_micros(shifted) {
        Some(local) => (local, ahead),
        None => (instant, 0),
    };
    let Civil {
        year,
        month,
        day,
        hour,
        minute,
        second,
        micros,
    } = local.civil();
    write!(
        out,
        "{year:04}-{month:02}-{day:02}T{hour:02}:{minute:02}:{second:02}"
    )?;
    put_fraction(micros, style, out)?;
    put_offset(ahead, style, out)
}

/// Puts a value. A backslash that no escaped character follows may be left single.
fn put_value(value: &[&[u8]], style: &mut Style, out: &mut Vec<u8>) -> io::Result<()> {
    for (at, character) in value.iter().enumerate() {
        let may_stand_alone = match value.get(at + 1) {
            Some(next) => !matches!(*next, b"\"" | b"\\" | b"]"),
            None => false,
        };
        match *character {
            b"\\" => {
                if !(may_stand_alone && style.departs()) {
                    out.extend_from_slice(b"\\")?;
                }
            }
            b"\"" | b"]" => out.extend_from_slice(b"\\")?,
            _ => {}
        }
        out.extend_from_slice(character)?;
    }
    Ok(())
}

impl Element {
    fn put(&self, style: &mut Style, out: &mut Vec<u8>) -> io::Result<()> {
        out.extend_from_slice(b"[")?;
        out.extend_from_slice(&self.id)?;
        for parameter in self.parameters.iter() {
            out.extend_from_slice(b" ")?;
            out.extend_from_slice(&parameter.name)?;
            out.extend_from_slice(b"=\"")?;
            put_value(&parameter.value, style, out)?;
            out.extend_from_slice(b"\"")?;
        }
        out.extend_from_slice(b"]")?;
        Ok(())
    }
}

impl Sample {
    /// Puts the elements, in any order if the style is free.
    fn put_elements(&self, alloc: Global, style: &mut Style, out: &mut Vec<u8>) -> io::Result<()> {
        if self.elements.is_empty() {
            out.extend_from_slice(b"-")?;
        }
        let mut order = (0..self.elements.len()).collect::<Vec<usize>>(alloc)?;
        if style.is_free {
            style.random.shuffle(&mut order);
        }
        for at in order.iter() {
            if let Some(element) = self.elements.get(*at) {
                element.put(style, out)?;
            }
        }
        Ok(())
    }

    /// Puts the record. It fails only when out of memory.
    pub fn put(&self, alloc: Global, style: &mut Style, out: &mut Vec<u8>) -> io::Result<()> {
        let priority = self.priority;
        write!(out, "<{priority}>1 ")?;
        put_time(self.instant, style, out)?;
        for word in self.words.iter() {
            out.extend_from_slice(b" ")?;
            out.extend_from_slice(word)?;
        }
        out.extend_from_slice(b" ")?;
        self.put_elements(alloc, style, out)?;
        // no message and the empty one are the same
        if !self.message.is_empty() || style.departs() {
            out.extend_from_slice(b" ")?;
            out.extend_from_slice(&self.message)?;
        }
        Ok(())
    }

    /// The record, spelled in a style. It fails only when out of memory.
    pub fn spelled(&self, alloc: Global, mut style: Style) -> io::Result<Vec<u8>> {
        let mut out = Vec::new(alloc);
        self.put(alloc, &mut style, &mut out)?;
        Ok(out)
    }
}
