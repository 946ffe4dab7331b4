//! The condition of what stays.
ghost use Rattle.store_expiry.specs.Expired.{IsExpired};

use crate::expired::Expired;
use archive_sets::Condition;
use archive_text::EntryView;

/// Records that are not expired.
#[derive(Clone, Copy, Debug, PartialEq, Eq)]
pub struct Unexpired {
    /// Which ones are.
    pub expired: Expired,
}

impl Condition for Unexpired {
    ghost meets = { λ c e. ¬ (IsExpired c.expired e) };

    fn holds(&self, entry: &EntryView<'_>) -> bool {
        !self.expired.has(entry)
    }
}
