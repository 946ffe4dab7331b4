//! Parts, as they are told.

ghost use Rattle.std.specs.Prelude.{◌≡◌, ◌++◌, IfOk, OnOk};
ghost use Rattle.std.specs.List.{flat_map};
ghost use Rattle.site_messages.specs.Reading.{Reads};
ghost use Rattle.site_messages.specs.Texts.{IsPart, IsSum, part_text, sum_text, told_text};
ghost use Rattle.site_messages.specs.Views.{part_of};

use crate::gap::Gap;
use crate::range_text::{RangeView, put_bounds, read_bounds};
use crate::values::{put, put_digest, put_number, read_digest, read_number};
use crate::words::read_text;
use reconcile::{Part, Sum};
use std::alloc::{AllocError, Global};

/// A part, as it lies in octets.
#[derive(Clone, Copy, Debug, PartialEq, Eq)]
pub struct PartView<'a> {
    /// The range.
    pub range: RangeView<'a>,
    /// What stands for the entries there.
    pub sum: Sum,
}

impl PartView<'_> {
    /// The part. It fails only when out of memory.
    pub fn to_part(&self, alloc: Global) -> Result<Part, AllocError>
        ensures { IfOk result (λ part. part ≡ part_of self.now) }
    {
        let range = self.range.to_range(alloc)?;
        Ok(Part {
            range,
            sum: self.sum,
        })
    }
}

// Puts what stands for the entries of a part.
fn put_sum(text: &mut Vec<u8>, sum: &Sum) -> Result<(), AllocError>
    ensures { OnOk result (text.new.items ≡ text.old.items ++ sum_text sum.now) }
{
    put_number(text, sum.records, b" ")?;
    put_number(text, sum.octets, b" ")?;
    put_digest(text, &sum.digest)
}

// The sum that the octets begin with, and what follows it and a space.
fn read_sum(octets: &[u8]) -> Result<(Sum, &[u8]), Gap>
    ensures { Reads IsSum sum_text (λ x. x.0) (λ x. x.1.now) octets.now result }
{
    let (records, rest) = read_number(octets)?;
    let (length, rest) = read_number(rest)?;
    let (digest, rest) = read_digest(rest)?;
    let sum = Sum {
        records,
        octets: length,
        digest,
    };
    Ok((sum, rest))
}

// The part whose sum and bounds the octets begin with, and what follows them.
fn read_told(octets: &[u8]) -> Result<(PartView<'_>, &[u8]), Gap>
    ensures { Reads IsPart told_text (λ x. part_of x.0) (λ x. x.1.now) octets.now result }
{
    let (sum, rest) = read_sum(octets)?;
    match read_bounds(rest) {
        Err(gap) => Err(gap),
        Ok((range, rest)) => Ok((PartView { range, sum }, rest)),
    }
}

/// Puts the line of a part behind a text. It fails only when out of memory.
pub fn write_part(text: &mut Vec<u8>, part: &Part) -> Result<(), AllocError>
    ensures { OnOk result (text.new.items ≡ text.old.items ++ part_text part.now) }
{
    put(text, b"part ")?;
    put_sum(text, &part.sum)?;
    put_bounds(text, &part.range)
}

/// Puts the lines of some parts behind a text. It fails only when out of memory.
pub fn write_parts(text: &mut Vec<u8>, parts: &[Part]) -> Result<(), AllocError>
    ensures { OnOk result (text.new.items ≡ text.old.items ++ flat_map part_text parts.now) }
{
    for part in parts {
        write_part(text, part)?;
    }
    Ok(())
}

/// The part whose line the octets begin with, and what follows it.
pub fn read_part(octets: &[u8]) -> Result<(PartView<'_>, &[u8]), Gap>
    ensures { Reads IsPart part_text (λ x. part_of x.0) (λ x. x.1.now) octets.now result }
{
    let rest = read_text(octets, b"part ")?;
    read_told(rest)
}
