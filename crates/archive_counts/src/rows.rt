//! The rows of a table, in their order.

ghost use Rattle.std.specs.Prelude.{◌≡◌};
ghost use Rattle.archive_counts.specs.Rows.{AreRanked, AreRowsOf, compare_rows};
ghost use Rattle.archive_counts.specs.declared.table.Table.{Table};

use crate::order::LineOrder;
use crate::tally::Tally;
use std::cmp::Ordering;

/// What is told of the entries with the same words.
#[derive(Debug, Drop)]
pub struct Row {
    /// Their words, each behind a space.
    pub words: Vec<u8>,
    /// What is told of them.
    pub tally: Tally,
}

// Which of two rows comes first.
fn compare(order: LineOrder, one: &Row, other: &Row) -> Ordering
    ensures { result ≡ compare_rows order one.now other.now }
{
    let words = one.words.as_slice().cmp(other.words.as_slice());
    match order {
        LineOrder::MostFirst => other.tally.records.cmp(&one.tally.records).then(words),
        LineOrder::ByWords => words,
    }
}

/// Puts the rows of a table in order.
pub fn rank(order: LineOrder, rows: &mut Vec<Row>)
    ensures rows { (t : Table) → AreRowsOf t rows.old.items → AreRowsOf t rows.new.items }
    ensures ranked { (t : Table) → AreRowsOf t rows.old.items → AreRanked order rows.new.items }
{
    rows.sort_unstable_by(|one, other| compare(order, one, other));
}
