//! What is known of a folder behind another one.

ghost use Rattle.std.specs.Prelude.{ℕ, None};
ghost use Rattle.disk.specs.States.{Files};

use std::marker::Brand;

/// What is known of the folder behind another one. Proofs alone know it: a call at `Brand` picks it.
pub(crate) trait FolderBehind {
    // the name of its borrow
    ghost name: { ℕ };

    // its files
    ghost files: { Files };
}

impl FolderBehind for Brand {
    ghost name = { 0 };

    ghost files = { λ _. None };
}
