//! Who watches a server.

use crate::counts::ServeCounts;

/// What a server shows of itself after a turn.
#[derive(Clone, Copy, Debug, PartialEq, Eq)]
pub struct ServerView {
    /// What it has counted.
    pub counts: ServeCounts,
    /// How many octets the batches of the journal take in its file.
    pub journal_len: u64,
    /// Whether what came waits for a disk with room or for memory, so that nothing is read.
    pub waits: bool,
}

/// Who watches a server.
pub trait Watch {
    ghost use Rattle.serve_engine.specs.declared.watch.ServerView.{ServerView};

    // that it was shown this
    ghost sees: { Self → Self → ServerView → Type 0 };

    /// Looks at the server. It is called once after each turn.
    fn see(&mut self, view: &ServerView)
        ensures { sees self.old self.new view.now };
}

/// Nobody, who watches nothing.
pub struct Nobody;

impl Watch for Nobody {
    ghost use Rattle.std.specs.Prelude.{◌≡◌};

    ghost sees = { λ old new view. new ≡ old };

    fn see(&mut self, _view: &ServerView) {}
}
