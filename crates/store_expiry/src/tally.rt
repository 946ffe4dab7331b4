//! Records are counted.
ghost use Rattle.std.specs.Prelude.{◌↔◌, ◌++◌, ◌∷◌, [], IsTrue, List};
ghost use Rattle.archive_text.specs.Entries.{Entry};
ghost use Rattle.store_expiry.specs.Expired.{IsExpired};
ghost use Rattle.store_expiry.specs.Surveys.{IsTallyOf};
ghost use Rattle.store_expiry.specs.declared.expired.Expired.{Expired};

/// How many records there are, and whether some are expired and some are not.
#[derive(Debug, Drop)]
pub struct Tally {
    /// How many there are, at most as many as a count of 64 bits tells.
    pub records: u64,
    /// Whether some are expired.
    pub expired: bool,
    /// Whether some are not.
    pub left: bool,
}

impl Tally {
    /// Of no records.
    pub fn new() -> Tally
        ensures { (x : Expired) → IsTallyOf x [] result }
    {
        Tally {
            records: 0,
            expired: false,
            left: false,
        }
    }

    /// One record more, which is expired or not.
    pub fn add(&mut self, is_expired: bool)
        ensures { (x : Expired) (es : List Entry) (e : Entry) → (IsTrue is_expired ↔ IsExpired x e)
            → IsTallyOf x es self.old → IsTallyOf x (es ++ e ∷ []) self.new }
    {
        self.records = self.records.saturating_add(1);
        if is_expired {
            self.expired = true;
        } else {
            self.left = true;
        }
    }
}
