//! A store is read, and records are chosen from it as its archive comes.

ghost use Rattle.std.specs.Prelude.{◌≡◌, List, Some, ℕ};
ghost use Rattle.driver.specs.Effects.{done_of};
ghost use Rattle.driver.specs.Sessions.{HasBegun};
ghost use Rattle.record_choice.specs.Choices.{choice_meaning};
ghost use Rattle.session_output.specs.Runs.{Runs, outputs};
ghost use Rattle.read_engine.specs.Readings.{HasRead, ReadsInto};

use archive_sets::InRange;
use driver::{Session, Stopped};
use octet_devices::Output;
use record_choice::{ChosenFrames, FrameTest};
use session_output::{Beginning, SessionOutput, SessionRun};
use std::alloc::Global;
use std::marker::Brand;
use store_reading::{Folder, ReadFault, read};

/// What became of a reading, and of the writing of what was chosen.
#[derive(Debug, Drop)]
pub(crate) struct Written {
    /// Why the store was not read, if it was not.
    pub(crate) reading: Result<(), ReadFault>,
    /// Whether something was refused; or why the records were not written.
    pub(crate) writing: Result<bool, Stopped>,
}

/// Which records are chosen.
#[derive(Clone, Copy, Debug, PartialEq, Eq)]
pub(crate) struct Choice<T> {
    /// Those in this range of time.
    pub(crate) range: InRange,
    /// That pass this test.
    pub(crate) test: T,
    /// Or the last of them, so many at most.
    pub(crate) last: Option<u32>,
}

// Reads a store into a session, by what the session begins with. The session is then to be ended or left.
fn read_run<'a, K: Beginning<S>, S: Session + Drop, F: Folder, W: Output, N: Output>(
    alloc: Global,
    folder: &mut F,
    range: InRange,
    session: S,
    output: &'a mut W,
    diagnostics: &'a mut N,
) -> (Result<(), ReadFault>, SessionRun<'a, S, W, N>)
    requires begun { HasBegun (S.stands session session) (S.means session) }
    requires first { K.first ≡ Some session }
    requires start { K.start ≡ outputs (W.state output.old) (N.state diagnostics.old) }
    requires output { K.output ≡ output.ghost_name }
    requires diagnostics { K.diagnostics ≡ diagnostics.ghost_name }
    ensures runs { ∥ ((given : List ℕ)
        × HasRead (F.tells folder.new) (F.has_failed folder.new) (F.files folder.old) range result.0 given
        × Runs result.1.progress (S.means session) (S.stands session result.1.session)
        (S.rest result.1.session) K.start
        (outputs (W.state result.1.output.now) (N.state result.1.diagnostics.now))
        (done_of result.1.effects) result.1.room given) ∥₁ }
    ensures output { result.1.output.ghost_name ≡ output.entry.ghost_name }
    ensures diagnostics { result.1.diagnostics.ghost_name ≡ diagnostics.entry.ghost_name }
    ensures same { F.tells folder.new → F.files folder.new ≡ F.files folder.old }
    ensures told { F.tells folder.new → F.tells folder.old }
{
    let mut records = SessionOutput::<'a, K, S, W, N>::new(alloc, session, output, diagnostics);
    let reading = read(alloc, folder, range, &mut records);
    (reading, records.into_run())
}

// Reads a store into a session, and ends it; or leaves it where the store is not read to its end.
fn read_into<S: Session + Drop, F: Folder, W: Output, N: Output>(
    alloc: Global,
    folder: &mut F,
    range: InRange,
    session: S,
    output: &mut W,
    diagnostics: &mut N,
) -> Written
    requires begun { HasBegun (S.stands session session) (S.means session) }
    ensures same { F.tells folder.new → F.files folder.new ≡ F.files folder.old }
    ensures told { F.tells folder.new → F.tells folder.old }
{
    let (reading, mut run) = read_run::<Brand, S, F, W, N>(
        alloc,
        folder,
        range,
        session,
        output,
        diagnostics,
    );
    match reading {
        Ok(()) => Written {
            reading: Ok(()),
            writing: run.finish(),
        },
        Err(fault) => Written {
            reading: Err(fault),
            writing: run.leave(),
        },
    }
}

/// Reads a store, and writes the archive of the records that are chosen. Where the reading fails, what was
/// chosen before is written; of the last records, nothing.
pub(crate) fn choose<T: FrameTest + Drop, F: Folder, W: Output, N: Output>(
    alloc: Global,
    folder: &mut F,
    choice: Choice<T>,
    output: &mut W,
    diagnostics: &mut N,
) -> Written
    ensures same { F.tells folder.new → F.files folder.new ≡ F.files folder.old }
    ensures told { F.tells folder.new → F.tells folder.old }
{
    let Choice { range, test, last } = choice;
    let chosen = ChosenFrames::new(alloc, test, last);
    read_into(alloc, folder, range, chosen, output, diagnostics)
}
