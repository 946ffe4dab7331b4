//! Laws of journals, as contracts of functions that do nothing.
ghost use Rattle.std.specs.Prelude.{◌≡◌, List, ℕ, Some};
ghost use Rattle.disk.specs.States.{Files, MayLeave, State};
ghost use Rattle.journal.specs.Batches.{HasBatches};
ghost use Rattle.journal.specs.Journals.{LeavesBatches, WithOrWithout};

/// A file reads as one list of batches.
pub fn one_reading()
    ensures { (file : List ℕ) (one other : List (List ℕ))
        → HasBatches file one → HasBatches file other → one ≡ other }
{}

/// Whatever a crash leaves of a disk at any moment of a commit, the batches that an opening finds
/// are those from before, with the new one or without it.
pub fn after_a_crash()
    ensures { (state : State) (name : List ℕ) (bodies : List (List ℕ)) (body : List ℕ)
        (files : Files) (file : List ℕ) (found : List (List ℕ))
        → LeavesBatches state name (WithOrWithout bodies body)
        → MayLeave state files → files name ≡ Some file → HasBatches file found
        → WithOrWithout bodies body found }
{}
