//! Laws of counts. Each function does nothing, and its contract is the law.

ghost use Rattle.std.specs.Prelude.{◌≡◌, List};
ghost use Rattle.archive_text.specs.Entries.{Entry};
ghost use Rattle.archive_counts.specs.Lines.{AreLinesOf, Line};
ghost use Rattle.archive_counts.specs.Orders.{order_of};

use crate::options::CountOptions;

/// Entries have one list of lines, so an archive has one count.
pub fn counts_are_one(options: &CountOptions)
    ensures { (xs : List Entry) (ls ms : List Line)
        → AreLinesOf options.now.keys.items (order_of options.now) xs ls
        → AreLinesOf options.now.keys.items (order_of options.now) xs ms → ls ≡ ms }
{
    let _ = options;
}
