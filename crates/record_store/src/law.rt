//! Laws of stores, as contracts of functions that do nothing.
ghost use Rattle.std.specs.Prelude.{List};
ghost use Rattle.disk.specs.States.{Files, MayLeave, State};
ghost use Rattle.journal.specs.Journals.{IsSound};
ghost use Rattle.archive_text.specs.Entries.{Entry, Has};
ghost use Rattle.record_store.specs.Crashes.{Keeps, Rests};
ghost use Rattle.record_store.specs.Holdings.{Held};

/// What a crash leaves of a folder holds all that is committed, and nothing that was not received.
pub fn after_a_crash()
    ensures lost { (state : State) (files : Files) (committed received : List Entry)
        → Keeps state committed received → MayLeave state files
        → (e : Entry) → Has committed e → Held files e }
    ensures forged { (state : State) (files : Files) (committed received : List Entry)
        → Keeps state committed received → MayLeave state files
        → (e : Entry) → Held files e → Has received e }
{}

/// Once the machine has been restarted with what the crash left on the disk, the folder keeps what
/// it kept, and no sync has failed. So `open` may follow, and any calls and crashes after it.
pub fn after_a_restart()
    ensures keeps { (state anew : State) (files : Files) (committed received : List Entry)
        → Keeps state committed received → MayLeave state files → Rests anew files
        → Keeps anew committed received }
    ensures sound { (anew : State) (files : Files) → Rests anew files → IsSound anew }
{}
