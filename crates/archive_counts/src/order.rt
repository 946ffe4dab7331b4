//! The order of lines.

ghost use Rattle.std.specs.Prelude.{◌≡◌};
ghost use Rattle.archive_counts.specs.Orders.{order_of};

use crate::key::CountKey;
use crate::options::{CountForm, CountOptions};

/// The order of lines.
#[derive(Clone, Copy, Debug, PartialEq, Eq)]
pub enum LineOrder {
    /// Those of more records first; those of as many by the octets of their words.
    MostFirst,
    /// By the octets of their words, which is the order of time if they are periods.
    ByWords,
}

/// The order that options ask for: bars of periods alone stand in the order of time.
pub fn order_of(options: &CountOptions) -> LineOrder
    ensures { result ≡ order_of options.now }
{
    match (options.form, options.keys.as_slice()) {
        (CountForm::Bars { .. }, [CountKey::Day | CountKey::Hour | CountKey::Minute]) => {
            LineOrder::ByWords
        }
        _ => LineOrder::MostFirst,
    }
}
