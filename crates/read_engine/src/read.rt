//! `read`: the records of a store that meet conditions, or the last of them.

ghost use Rattle.std.specs.Prelude.{◌≡◌, ◌⊎◌, List, Some, false, true, ℕ};
ghost use Rattle.driver.specs.Effects.{done_of};
ghost use Rattle.driver.specs.Sessions.{HasBegun};
ghost use Rattle.record_choice.specs.Choices.{choice_meaning};
ghost use Rattle.session_output.specs.Runs.{Runs, outputs};
ghost use Rattle.store_upkeep.specs.Whole.{IsWholeAt};
ghost use Rattle.store_engine.specs.Reading.{RanRead};
ghost use Rattle.read_engine.specs.Options.{IsPlain};
ghost use Rattle.read_engine.specs.Readings.{GivesText, IsRangeOf, ReadsThrough};
ghost use Rattle.read_engine.specs.Forms.{IsFormed, WritesChosen, counted_meaning};
ghost use Rattle.read_engine.specs.Commands.{RanChoice};
ghost use Rattle.read_engine.specs.Partial.{SearchFails, RanPartial};

use crate::choosing::{Choice, Written, choose};
use crate::options::{ReadForm, ReadOptions, range_of};
use crate::outcome::{both, report_written};
use crate::partial::read_partial;
use crate::record_test::RecordTest;
use archive_sets::InRange;
use colored_show::ColoredShow;
use driver::{Session, Stopped};
use frame_engine::{Convert, FrameHandler, Show, ShowJson, StreamSession};
use octet_devices::{Output, ToWrite};
use record_choice::FrameTest;
use session_output::{Beginning, SessionOutput, SessionRun};
use std::alloc::Global;
use std::marker::Brand;
use store_engine::read_store;
use store_reading::Folder;
use syslog_frame::Framing;
use syslog_legacy::FrameReading;

// Gives a session the archive of the records that are chosen, by what the session begins with. It is then to be
// ended or left.
fn choose_run<
    'a,
    K: Beginning<S>,
    S: Session + Drop,
    T: FrameTest + Drop,
    F: Folder,
    W: Output,
    N: Output,
>(
    alloc: Global,
    folder: &mut F,
    choice: Choice<T>,
    session: S,
    output: &'a mut W,
    diagnostics: &'a mut N,
) -> (Written, SessionRun<'a, S, W, N>)
    requires begun { HasBegun (S.stands session session) (S.means session) }
    requires first { K.first ≡ Some session }
    requires start { K.start ≡ outputs (W.state output.old) (N.state diagnostics.old) }
    requires output { K.output ≡ output.ghost_name }
    requires diagnostics { K.diagnostics ≡ diagnostics.ghost_name }
    ensures output { result.1.output.ghost_name ≡ output.entry.ghost_name }
    ensures diagnostics { result.1.diagnostics.ghost_name ≡ diagnostics.entry.ghost_name }
    ensures same { F.tells folder.new → F.files folder.new ≡ F.files folder.old }
    ensures told { F.tells folder.new → F.tells folder.old }
{
    let mut forms = SessionOutput::<'a, K, S, W, N>::new(alloc, session, output, diagnostics);
    let mut unused = ToWrite::new(Vec::new(alloc));
    let written = choose(alloc, folder, choice, &mut forms, &mut unused);
    (written, forms.into_run())
}

// Writes what a session makes of the archive of the records that are chosen.
fn choose_into<S: Session + Drop, T: FrameTest + Drop, F: Folder, W: Output, N: Output>(
    alloc: Global,
    folder: &mut F,
    choice: Choice<T>,
    session: S,
    output: &mut W,
    diagnostics: &mut N,
) -> Written
    requires begun { HasBegun (S.stands session session) (S.means session) }
    ensures same { F.tells folder.new → F.files folder.new ≡ F.files folder.old }
    ensures told { F.tells folder.new → F.tells folder.old }
{
    let (Written { reading, writing }, mut run) = choose_run::<Brand, S, T, F, W, N>(
        alloc,
        folder,
        choice,
        session,
        output,
        diagnostics,
    );
    let formed = if reading.is_ok() && writing.is_ok() {
        run.finish()
    } else {
        run.leave()
    };
    Written {
        reading,
        writing: both(writing, formed),
    }
}

// Writes what a handler makes of the records that are chosen, each of which is a frame.
fn choose_frames<H: FrameHandler + Drop, T: FrameTest + Drop, F: Folder, W: Output, N: Output>(
    alloc: Global,
    folder: &mut F,
    choice: Choice<T>,
    handler: H,
    output: &mut W,
    diagnostics: &mut N,
) -> Written
    ensures same { F.tells folder.new → F.files folder.new ≡ F.files folder.old }
    ensures told { F.tells folder.new → F.tells folder.old }
{
    let Ok(session) = StreamSession::new(alloc, Framing::Counted, handler) else {
        return Written {
            reading: Ok(()),
            writing: Err(Stopped::Memory),
        };
    };
    choose_into(alloc, folder, choice, session, output, diagnostics)
}

// Writes the records that are chosen in this form.
fn write_chosen<T: FrameTest + Drop, F: Folder, W: Output, N: Output>(
    alloc: Global,
    folder: &mut F,
    choice: Choice<T>,
    form: ReadForm,
    output: &mut W,
    diagnostics: &mut N,
) -> Written
    ensures same { F.tells folder.new → F.files folder.new ≡ F.files folder.old }
    ensures told { F.tells folder.new → F.tells folder.old }
{
    let reading = FrameReading::from(None);
    match form {
        ReadForm::Archive => choose(alloc, folder, choice, output, diagnostics),
        ReadForm::Lines => {
            let to = Some(Framing::Lf);
            let handler = Convert { alloc, reading, to };
            choose_frames(alloc, folder, choice, handler, output, diagnostics)
        }
        ReadForm::Json => {
            let handler = ShowJson { alloc, reading };
            choose_frames(alloc, folder, choice, handler, output, diagnostics)
        }
        ReadForm::Show => {
            let handler = Show { alloc, reading };
            choose_frames(alloc, folder, choice, handler, output, diagnostics)
        }
        ReadForm::ColoredShow => {
            let show = Show { alloc, reading };
            let handler = ColoredShow { show };
            choose_frames(alloc, folder, choice, handler, output, diagnostics)
        }
    }
}

// Writes the records of a store that meet the conditions, or the last of them, from all its files.
pub(crate) fn read_all<F: Folder, W: Output, N: Output>(
    alloc: Global,
    folder: &mut F,
    options: &ReadOptions<'_>,
    range: InRange,
    output: &mut W,
    diagnostics: &mut N,
) -> u8
    ensures same { F.tells folder.new → F.files folder.new ≡ F.files folder.old }
    ensures told { F.tells folder.new → F.tells folder.old }
    ensures plain { IsPlain options.now → RanRead (F.tells folder.new) (F.has_failed folder.new)
        (F.files folder.old) range (W.state output.old) (W.state output.new)
        (N.state diagnostics.old) (N.state diagnostics.new) result }
{
    if options.is_plain() {
        return read_store(alloc, folder, range, output, diagnostics);
    }
    let choice = Choice {
        range,
        test: RecordTest {
            conditions: &options.conditions,
        },
        last: options.last,
    };
    let written = write_chosen(alloc, folder, choice, options.form, output, diagnostics);
    report_written(alloc, &written, diagnostics)
}

/// Writes the records of a store that meet the conditions, or the last of them. Returns the exit status: `DONE`;
/// `REFUSED` if a file is damaged, or a record has no such form; `FAULT` if a file or a device failed; `NO_MEMORY`
/// if memory ran out. A line says what went wrong, behind a prefix of what is right. Where the last records are
/// wanted and the store is not read to its end, none is written.
///
/// With `partial`, the files that are read for these times are checked first. A line tells each that is damaged, and
/// what the others hold is written as if these were not there; the status is then `REFUSED` where it would be
/// `DONE`. A fault of a file or a device still ends the reading.
///
/// Beside what the reading of a store takes, memory is taken for the last records, and for a record at a time.
pub fn read_records<F: Folder, W: Output, N: Output>(
    alloc: Global,
    folder: &mut F,
    options: &ReadOptions<'_>,
    output: &mut W,
    diagnostics: &mut N,
) -> u8
    ensures same { F.tells folder.new → F.files folder.new ≡ F.files folder.old }
    ensures told { F.tells folder.new → F.tells folder.old }

    // the whole store was read, or its first fault told
    ensures plain { options.now.partial ≡ false → IsPlain options.now → (range : InRange)
        × IsRangeOf options.now.conditions.times range
        × RanRead (F.tells folder.new) (F.has_failed folder.new) (F.files folder.old) range
        (W.state output.old) (W.state output.new) (N.state diagnostics.old)
        (N.state diagnostics.new) result }

    // its damaged files were told, and what the others hold was read
    ensures partial { options.now.partial ≡ true → (range : InRange)
        × IsRangeOf options.now.conditions.times range
        × RanPartial options.now (F.tells folder.new) (F.has_failed folder.new)
        (F.files folder.old) range (W.state output.old) (W.state output.new)
        (N.state diagnostics.old) (N.state diagnostics.new) result }

    // where all files are whole, the whole store was read; or a fault stopped the search for damaged ones
    ensures whole { options.now.partial ≡ true → F.tells folder.new
        → ((name : List ℕ) → IsWholeAt (F.files folder.old) name) → IsPlain options.now
        → (range : InRange) × IsRangeOf options.now.conditions.times range
        × (RanRead (F.tells folder.new) (F.has_failed folder.new) (F.files folder.old) range
        (W.state output.old) (W.state output.new) (N.state diagnostics.old)
        (N.state diagnostics.new) result
        ⊎ SearchFails (F.tells folder.new) (F.has_failed folder.new) (F.files folder.old)
        (W.state output.old) (W.state output.new) (N.state diagnostics.old)
        (N.state diagnostics.new) result) }
{
    let range = range_of(options.conditions.times);
    if options.partial {
        return read_partial(alloc, folder, options, range, output, diagnostics);
    }
    read_all(alloc, folder, options, range, output, diagnostics)
}
