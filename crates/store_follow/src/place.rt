/// Where a follower is: behind a batch of a journal, or at its start; and whether that batch has its
/// seal, which all behind it have then.
#[derive(Clone, Copy, Debug, PartialEq, Eq)]
pub(crate) struct Place {
    pub(crate) number: u64,
    pub(crate) at: u64,
    pub(crate) is_sealed: bool,
}

impl Place {
    ghost use Rattle.std.specs.Prelude.{◌≡◌};

    /// The start of a journal.
    pub(crate) fn start_of(number: u64) -> Place
        ensures number { result.number ≡ number }
        ensures at { result.at ≡ 0 }
    {
        Place {
            number,
            at: 0,
            is_sealed: false,
        }
    }
}
