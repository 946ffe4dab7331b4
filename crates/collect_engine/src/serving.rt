//! A source is served: its steps go into a collector.
ghost use Rattle.std.specs.Prelude.{◌≡◌, ◌+◌, ◌-◌, ◌<◌, ◌^◌, ◌++◌, ◌||◌, ℕ, List, Some};
ghost use Rattle.std.specs.Prelude.{IfOk, IsErrOf, OnOk, length, vec_len};
ghost use Rattle.std.specs.Io.KnownBytes.{Appends};
ghost use Rattle.archive_text.specs.Entries.{Entry};
ghost use Rattle.syslog_frame.specs.declared.limits.TheConstants.{FRAME_MAX};
ghost use Rattle.syslog_collect.specs.Collectors.{NoneWaits, Stands, reading_of, waits_of};
ghost use Rattle.syslog_collect.specs.History.{AcceptedEvent, history_of};
ghost use Rattle.syslog_collect.specs.Runs.{accepted_event};
ghost use Rattle.octet_devices.specs.Device.{count_on};
ghost use Rattle.collect_engine.specs.Ends.{FinishesBy, IfEndDone, IsEventStep};
ghost use Rattle.collect_engine.specs.Lines.{NotesFail, has_some, memory_after};
ghost use Rattle.collect_engine.specs.Serving.{EventServed, GaveNext, GaveSteps, IfEnough, ServesTo, StepServed};
ghost use Rattle.collect_engine.specs.Serving.{StepsServed, UnlessMemory, event_of};
ghost use Rattle.collect_engine.specs.Steps.{Given, IsWithin, given_of};

use crate::lines::EventLines;
use crate::receiving::{Received, receive};
use crate::serve_end::{ServeEnd, Stopped};
use crate::source::Source;
use crate::step::Step;
use archive_text::Store;
use octet_devices::Output;
use std::alloc::{AllocError, Global};
use syslog_collect::{Collector, Event};
use syslog_frame::FRAME_MAX;

/// How many steps are asked of a source at most.
pub const SERVE_TURNS: u64 = 1_048_576;

// the number of the one connection
const CONN: u32 = 0;

// Why serving stops where memory ran out, by how the lines on what was met were written.
fn out_of_memory(noted: Result<(), Stopped>) -> Stopped
    ensures { result ≡ memory_after noted }
{
    match noted {
        Ok(()) => Stopped::Memory,
        Err(Stopped::Notes | Stopped::MemoryAndNotes) => Stopped::MemoryAndNotes,
        Err(Stopped::Step | Stopped::Endless | Stopped::Memory) => Stopped::Memory,
    }
}

// Gives an event to the collector, and writes the lines on what is refused.
fn serve_event<S: Store, N: Output>(
    alloc: Global,
    collector: &mut Collector<S>,
    event: Event<'_>,
    notes: &mut N,
    lines: &mut EventLines,
) -> Result<(), Stopped>
    ensures served { (first : List Entry) (before : List AcceptedEvent)
        → Stands S.entries collector.old first before
        → (accepted : List AcceptedEvent) × (told : List ℕ)
        × Stands S.entries collector.new first (before ++ accepted)
        × Appends (N.state notes.old).taken (N.state notes.new).taken told
        × EventServed (reading_of collector.old) (history_of before) (waits_of collector.old)
        (waits_of collector.new) lines.old.number lines.new.number result
        (accepted_event event.entry) accepted told
        × OnOk result (lines.new.refused ≡ (lines.old.refused || has_some told)) }
    ensures settled { (first : List Entry) (before : List AcceptedEvent)
        → Stands S.entries collector.old first before
        → NoneWaits collector.old
        → UnlessMemory result (NoneWaits collector.new) }
    ensures failures { NotesFail result (N.state notes.old).failures (N.state notes.new).failures }
    ensures going { ¬ (IsErrOf result Stopped.Endless) }
    ensures reading { reading_of collector.new ≡ reading_of collector.old }
{
    let received = receive(alloc, collector, event, &mut lines.outcomes);
    match received {
        Received::Accepted | Received::Unterminated { .. } => lines.write(received, notes),
        Received::Refused => Err(Stopped::Step),
        Received::Memory => {
            let noted = lines.write(received, notes);
            Err(out_of_memory(noted))
        }
    }
}

// The event of a step.
fn event_of_step(step: Step, buf: &[u8]) -> Event<'_>
    requires within { IsWithin (length buf.now) step }
    requires event { IsEventStep step }
    ensures { event_of (given_of step buf.now) ≡ Some (accepted_event result) }
{
    match step {
        Step::Opened(framing) => Event::Opened {
            conn: CONN,
            framing,
        },
        Step::Piece(n) => Event::Piece {
            conn: CONN,
            octets: &buf[..n],
        },
        Step::Ended => Event::Ended { conn: CONN },
        Step::Datagram(n) => Event::Datagram { octets: &buf[..n] },
        Step::Finished | Step::Failed => unreachable!(),
    }
}

// Serves a step that is an event.
fn serve_step<S: Store, N: Output>(
    alloc: Global,
    collector: &mut Collector<S>,
    step: Step,
    buf: &[u8],
    notes: &mut N,
    lines: &mut EventLines,
) -> Result<(), Stopped>
    requires within { IsWithin (length buf.now) step }
    requires event { IsEventStep step }
    ensures served { (first : List Entry) (before : List AcceptedEvent)
        → Stands S.entries collector.old first before
        → (event : AcceptedEvent) × (accepted : List AcceptedEvent) × (told : List ℕ)
        × (event_of (given_of step buf.now) ≡ Some event)
        × Stands S.entries collector.new first (before ++ accepted)
        × Appends (N.state notes.old).taken (N.state notes.new).taken told
        × EventServed (reading_of collector.old) (history_of before) (waits_of collector.old)
        (waits_of collector.new) lines.old.number lines.new.number result event accepted told
        × OnOk result (lines.new.refused ≡ (lines.old.refused || has_some told)) }
    ensures settled { (first : List Entry) (before : List AcceptedEvent)
        → Stands S.entries collector.old first before
        → NoneWaits collector.old
        → UnlessMemory result (NoneWaits collector.new) }
    ensures failures { NotesFail result (N.state notes.old).failures (N.state notes.new).failures }
    ensures going { ¬ (IsErrOf result Stopped.Endless) }
    ensures reading { reading_of collector.new ≡ reading_of collector.old }
{
    let event = event_of_step(step, buf);
    serve_event(alloc, collector, event, notes, lines)
}

// Room for the octets of a step.
fn make_room(alloc: Global) -> Result<Vec<u8>, AllocError>
    ensures { IfOk result (λ room. vec_len room ≡ FRAME_MAX + 1) }
{
    vec![in alloc; 0u8; FRAME_MAX + 1]
}

// Serves the next step. Whether it was the end of the source.
fn serve_next<S: Store, R: Source, N: Output>(
    alloc: Global,
    collector: &mut Collector<S>,
    source: &mut R,
    buf: &mut [u8],
    notes: &mut N,
    lines: &mut EventLines,
) -> Result<bool, Stopped>
    ensures served { (first : List Entry) (before : List AcceptedEvent)
        → Stands S.entries collector.old first before
        → (given : Given) × (accepted : List AcceptedEvent) × (told : List ℕ)
        × GaveNext (R.state source.old) (R.state source.new) (length buf.new) given
        × Stands S.entries collector.new first (before ++ accepted)
        × Appends (N.state notes.old).taken (N.state notes.new).taken told
        × StepServed (reading_of collector.old) (history_of before) (waits_of collector.old)
        (waits_of collector.new) lines.old.number lines.new.number result given accepted told
        × OnOk result (lines.new.refused ≡ (lines.old.refused || has_some told)) }
    ensures settled { (first : List Entry) (before : List AcceptedEvent)
        → Stands S.entries collector.old first before
        → NoneWaits collector.old
        → UnlessMemory result (NoneWaits collector.new) }
    ensures failures { NotesFail result (N.state notes.old).failures (N.state notes.new).failures }
    ensures steps { (R.state source.new).steps ≡ count_on (R.state source.old).steps }
    ensures finishes { FinishesBy result (R.state source.old).finishes (R.state source.new).finishes }
    ensures going { ¬ (IsErrOf result Stopped.Endless) }
    ensures reading { reading_of collector.new ≡ reading_of collector.old }
{
    let step = source.next(buf);
    match step {
        Step::Finished => Ok(true),
        Step::Failed => Err(Stopped::Step),
        Step::Opened(_) | Step::Piece(_) | Step::Ended | Step::Datagram(_) => {
            match serve_step(alloc, collector, step, buf, notes, lines) {
                Ok(()) => Ok(false),
                Err(stopped) => Err(stopped),
            }
        }
    }
}

/// Serves the steps of a source, to its end, and tells whether a line was noted.
pub(crate) fn serve_steps<S: Store, R: Source, N: Output>(
    alloc: Global,
    collector: &mut Collector<S>,
    source: &mut R,
    notes: &mut N,
) -> Result<bool, Stopped>
    ensures served { (first : List Entry) (before : List AcceptedEvent)
        → Stands S.entries collector.old first before
        → (given : List Given) × (accepted : List AcceptedEvent) × (told : List ℕ)
        × GaveSteps (R.state source.old) (R.state source.new) given
        × Stands S.entries collector.new first (before ++ accepted)
        × Appends (N.state notes.old).taken (N.state notes.new).taken told
        × StepsServed (reading_of collector.old) (history_of before) (waits_of collector.old)
        (waits_of collector.new) result given accepted told }
    ensures settled { (first : List Entry) (before : List AcceptedEvent)
        → Stands S.entries collector.old first before
        → NoneWaits collector.old
        → UnlessMemory result (NoneWaits collector.new) }
    ensures failures { NotesFail result (N.state notes.old).failures (N.state notes.new).failures }
    ensures endless { (R.state source.old).steps < 2 ^ 63 → IsErrOf result Stopped.Endless
        → ((R.state source.new).steps ≡ (R.state source.old).steps + SERVE_TURNS)
        × ((R.state source.new).finishes ≡ (R.state source.old).finishes) }
    ensures finished { (R.state source.old).finishes < 2 ^ 63
        → OnOk result ((R.state source.old).finishes < (R.state source.new).finishes) }
    ensures reading { reading_of collector.new ≡ reading_of collector.old }
{
    let Ok(mut buf) = make_room(alloc) else {
        return Err(Stopped::Memory);
    };
    let mut lines = EventLines::new(alloc);
    for _turn in 0..SERVE_TURNS {
        let room = buf.as_mut_slice();
        match serve_next(alloc, collector, source, room, notes, &mut lines) {
            Ok(false) => {}
            Ok(true) => return Ok(lines.refused),
            Err(stopped) => return Err(stopped),
        }
    }
    Err(Stopped::Endless)
}

/// Gives the steps of a source to a collector, each as an event on connection 0, until the source
/// gives its end.
///
/// A line on each frame and each count that is refused, and on an end inside a frame, goes to
/// `notes` as soon as it is met. Frames and counts are numbered from 1 over all connections. After
/// a bad count, the rest of that connection is passed over.
pub fn serve<S: Store, R: Source, N: Output>(
    alloc: Global,
    collector: &mut Collector<S>,
    source: &mut R,
    notes: &mut N,
) -> ServeEnd
    // Which steps came, as the counts of the source say, which events they were accepted as, and which lines were noted:
    // all that the steps ask for, unless the notes failed or memory ran out.
    ensures served { (first : List Entry) (before : List AcceptedEvent)
        → Stands S.entries collector.old first before
        → (given : List Given) × (accepted : List AcceptedEvent) × (told : List ℕ)
        × GaveSteps (R.state source.old) (R.state source.new) given
        × Stands S.entries collector.new first (before ++ accepted)
        × Appends (N.state notes.old).taken (N.state notes.new).taken told
        × ServesTo (reading_of collector.old) (history_of before) (waits_of collector.old)
        (waits_of collector.new) result (N.state notes.old).failures (N.state notes.new).failures given
        accepted told }
    // No frame is left ready, unless memory ran out.
    ensures settled { (first : List Entry) (before : List AcceptedEvent)
        → Stands S.entries collector.old first before
        → NoneWaits collector.old
        → IfEnough result (NoneWaits collector.new) }
    ensures endless { (R.state source.old).steps < 2 ^ 63 → result ≡ ServeEnd.Endless
        → ((R.state source.new).steps ≡ (R.state source.old).steps + SERVE_TURNS)
        × ((R.state source.new).finishes ≡ (R.state source.old).finishes) }
    ensures finished { (R.state source.old).finishes < 2 ^ 63
        → IfEndDone result ((R.state source.old).finishes < (R.state source.new).finishes) }
    ensures reading { reading_of collector.new ≡ reading_of collector.old }
{
    match serve_steps(alloc, collector, source, notes) {
        Ok(refused) => ServeEnd::Done { refused },
        Err(Stopped::Step) => ServeEnd::Failed,
        Err(Stopped::Notes) => ServeEnd::Failed,
        Err(Stopped::Endless) => ServeEnd::Endless,
        Err(Stopped::Memory) => ServeEnd::Memory,
        Err(Stopped::MemoryAndNotes) => ServeEnd::Memory,
    }
}
