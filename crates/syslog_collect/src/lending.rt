//! The store of a collector, lent.

ghost use Rattle.std.specs.Prelude.{◌≡◌};
ghost use Rattle.std.specs.Borrow.{sem};
ghost use Rattle.syslog_collect.specs.Collectors.{store_of};
ghost use Rattle.syslog_collect.specs.Lends.{lends_store};

use crate::collector::Collector;
use archive_text::Store;

impl<S: Store> Collector<S> {
    /// The store, for what has no part in what is received: a commit, a checkpoint. However the
    /// collector stood, it stands so with the store that is left there, as
    /// [`stands_behind`](crate::stands_behind) says: with other entries kept elsewhere, if both
    /// together are the same.
    pub fn store_mut(&mut self) -> &mut S
        ensures* writes_back { sem 𝓛 (lends_store S.row self.entry result) }
        ensures value { result.now ≡ store_of self.old }
    {
        &mut self.store
    }
}
