//! The count of an archive.

ghost use Rattle.std.specs.Prelude.{◌≡◌, IfOk, IsErrOf, List, MatchResult};
ghost use Rattle.syslog_fields.specs.Appending.{Puts};
ghost use Rattle.archive_text.specs.Entries.{Entry};
ghost use Rattle.archive_sets.specs.Failures.{TellsFailures};
ghost use Rattle.archive_counts.specs.Counted.{Counted, HasLines, RowsText, Stopped};
ghost use Rattle.archive_counts.specs.Lines.{first_of};
ghost use Rattle.archive_counts.specs.Tables.{IsTableOf};

use crate::bars::put_bars;
use crate::counting::Counting;
use crate::json_lines::put_objects;
use crate::line::put_rows;
use crate::options::{CountForm, CountOptions};
use crate::order::order_of;
use crate::rows::{Row, rank};
use crate::table::Table;
use archive_sets::SelectFault;
use octet_devices::{Input, Output, WriteFault, write_all};
use std::alloc::{AllocError, Global};

// The first rows, at most so many.
fn first_rows(rows: &[Row], top: Option<u64>) -> &[Row]
    ensures { result.now ≡ first_of top rows.now }
{
    match top {
        Some(most) if most < rows.len() as u64 => &rows[..most as usize],
        _ => rows,
    }
}

// Appends the lines of rows in the form that is asked for.
fn put_form(options: &CountOptions, rows: &[Row], out: &mut Vec<u8>) -> Result<(), AllocError>
    ensures { Puts (RowsText options.now rows.now) out.old.items out.new.items result }
{
    match options.form {
        CountForm::Lines => put_rows(rows, out),
        CountForm::Json => put_objects(&options.keys, rows, out),
        CountForm::Bars { columns } => put_bars(columns, rows, out),
    }
}

// The lines of a table.
fn lines_of(alloc: Global, options: &CountOptions, table: Table) -> Result<Vec<u8>, AllocError>
    ensures { IfOk result (λ text. (xs : List Entry) → IsTableOf options.now.keys.items table xs
        → HasLines options.now xs text.items) }
{
    let mut rows = table.into_rows()?;
    rank(order_of(options), &mut rows);
    let mut text = Vec::new(alloc);
    put_form(options, first_rows(&rows, options.top), &mut text)?;
    Ok(text)
}

/// Reads an archive, the text of a set of records, and writes a line for each of the words that
/// records have under the keys. In the plain form it is `COUNT OCTETS FIRST LAST KEY..`: COUNT is
/// how many records there are, OCTETS how many octets their archive has, and FIRST and LAST are the
/// earliest and the latest of their times in canonical form (RFC 5424, section 6.2.3), or `-` if
/// none has one. The words stand in the order of the keys: a field is as it stands in the record,
/// `-` if it has none; a day, an hour or a minute is the front of the canonical time, `undated` if
/// there is none. Lines of more records come first, and those of as many by the octets of their
/// words. Without keys there is one line, of all records, also of none.
///
/// Room for two entries and for a piece of `ENTRIES_READ_MAX` octets of the reader is reserved
/// first. Further memory grows with the number of lines alone.
///
/// # Errors
/// The first fault that is met. Nothing is written before the whole archive was read, so only the
/// writer's fault leaves a part of the lines.
pub fn count_stream<R: Input, W: Output>(
    alloc: Global,
    options: &CountOptions,
    reader: &mut R,
    writer: &mut W,
) -> Result<(), SelectFault>
    // the whole archive, and its lines; or what a fault says of what was read and written
    ensures outcome { MatchResult result
        (λ _. Counted options.now (R.state reader.old) (R.state reader.new)
        (W.state writer.old).taken (W.state writer.new).taken)
        (λ fault. Stopped options.now fault (R.state reader.old) (R.state reader.new)
        (W.state writer.old).taken (W.state writer.new).taken) }

    // a device's fault just where that device failed
    ensures told { TellsFailures result (R.state reader.old) (R.state reader.new)
        (W.state writer.old) (W.state writer.new) }

    // out of memory before anything is written
    ensures memory { IsErrOf result SelectFault.Memory → writer.new ≡ writer.old }
{
    let Ok(mut counting) = Counting::new(alloc, &options.keys) else {
        return Err(SelectFault::Memory);
    };
    counting.read_all(&options.keys, reader)?;
    let Ok(text) = lines_of(alloc, options, counting.table) else {
        return Err(SelectFault::Memory);
    };
    match write_all(writer, &text) {
        Ok(()) => Ok(()),
        Err(WriteFault { sent }) => Err(SelectFault::Write { sent }),
    }
}
