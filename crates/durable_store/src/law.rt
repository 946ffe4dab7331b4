//! A law of checkpoints, as the contract of a function that does nothing.
ghost use Rattle.std.specs.Prelude.{◌≡◌};
ghost use Rattle.durable_store.specs.declared.checkpoint.TheConstants.{CHECKPOINT_SYNCS};

/// How many syncs a checkpoint makes at most: two for each of 65 segments, and two for the new journal.
pub fn checkpoint_syncs()
    ensures { CHECKPOINT_SYNCS ≡ 132 }
{}
