//! The lines of a count.

ghost use Rattle.octet_language.specs.Language.{Each, Only};
ghost use Rattle.std.specs.Prelude.{decimal};
ghost use Rattle.syslog_fields.specs.Appending.{Puts};
ghost use Rattle.syslog_fields.specs.Canonical.{TimeForm};
ghost use Rattle.archive_counts.specs.Texts.{FrontOf, RowText};

use crate::rows::Row;
use crate::tally::Tally;
use itoa::Buffer;
use std::alloc::AllocError;
use syslog_fields::appending::put;
use syslog_grammar::canonical_timestamp;
use syslog_value::Instant;

pub fn put_number(number: u64, out: &mut Vec<u8>) -> Result<(), AllocError>
    ensures { Puts (Only (decimal number)) out.old.items out.new.items result }
{
    put(Buffer::new().format(number).as_bytes(), out)
}

// Appends the canonical form of an instant, or NILVALUE.
fn put_time(instant: Option<Instant>, out: &mut Vec<u8>) -> Result<(), AllocError>
    ensures { Puts (TimeForm instant) out.old.items out.new.items result }
{
    match instant {
        None => put(b"-", out),
        Some(instant) => put(&canonical_timestamp(instant), out),
    }
}

// Appends COUNT OCTETS FIRST LAST.
fn put_front(tally: &Tally, out: &mut Vec<u8>) -> Result<(), AllocError>
    ensures { Puts (FrontOf tally.now.records tally.now.octets tally.now.first tally.now.last)
        out.old.items out.new.items result }
{
    put_number(tally.records, out)?;
    put(b" ", out)?;
    put_number(tally.octets, out)?;
    put(b" ", out)?;
    put_time(tally.first, out)?;
    put(b" ", out)?;
    put_time(tally.last, out)
}

fn put_row(row: &Row, out: &mut Vec<u8>) -> Result<(), AllocError>
    ensures { Puts (RowText row.now) out.old.items out.new.items result }
{
    put_front(&row.tally, out)?;
    put(&row.words, out)?;
    put(b"\n", out)
}

/// Appends a line for each row. If memory is refused, a part may have been appended.
pub fn put_rows(rows: &[Row], out: &mut Vec<u8>) -> Result<(), AllocError>
    ensures { Puts (Each RowText rows.now) out.old.items out.new.items result }
{
    'rows: for row in rows {
        put_row(row, out)?;
    }
    Ok(())
}
