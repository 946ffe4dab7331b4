//! What is told of all files together.
ghost use Rattle.std.specs.Prelude.{◌≡◌, ◌++◌, ◌∷◌, [], List};
ghost use Rattle.store_statistics.specs.Sums.{AreSums};
ghost use Rattle.store_statistics.specs.declared.figures.FileFigures.{FileFigures};

use crate::figures::{Figures, FileFigures};
use crate::tally::Tally;
use crate::times::{earlier, later};

// One file more.
fn add(sum: &mut Figures, figures: &Figures)
    ensures { (fs : List FileFigures) (f : FileFigures) → f.figures ≡ figures.now → AreSums fs sum.old
        → AreSums (fs ++ f ∷ []) sum.new }
{
    sum.tally.records = sum.tally.records.saturating_add(figures.tally.records);
    sum.tally.first = earlier(sum.tally.first, figures.tally.first);
    sum.tally.last = later(sum.tally.last, figures.tally.last);
    sum.octets = sum.octets.saturating_add(figures.octets);
}

/// The sums of files, and the earliest and the latest of their times.
pub fn sum_of(files: &[FileFigures]) -> Figures
    ensures { AreSums files.now result }
{
    let mut sum = Figures {
        tally: Tally::new(),
        octets: 0,
    };
    'files: for file in files {
        add(&mut sum, &file.figures);
    }
    sum
}
