use syslog_value::Instant;

/// How much of an archive is on the disk.
#[derive(Clone, Copy, Debug, PartialEq, Eq)]
pub struct Addition {
    /// The number of its first entries that are.
    pub entries: u64,
    /// The instant of the last of them: `None` if it has no time, and if there is none.
    pub last: Option<Instant>,
}

impl Addition {
    ghost use Rattle.std.specs.Prelude.{[]};
    ghost use Rattle.store_addition.specs.Additions.{Counts};

    /// Nothing of it.
    pub fn none() -> Addition
        ensures { Counts result [] }
    {
        Addition {
            entries: 0,
            last: None,
        }
    }
}
