//! `collect`: records from a source, as an archive.
ghost use Rattle.std.specs.Prelude.{◌≡◌, ◌≤◌, ◌<◌, ◌^◌, ◌++◌, ℕ, List, [], codes, if◌then◌else◌};
ghost use Rattle.archive_text.specs.Entries.{Entry};
ghost use Rattle.archive_text.specs.Text.{text_of};
ghost use Rattle.syslog_collect.specs.History.{AcceptedEvent};
ghost use Rattle.collect_engine.specs.Collecting.{Collects, IfArchived, IsArchiveOf, NotesBehind, NotesOut, NotesThen};
ghost use Rattle.collect_engine.specs.Collecting.{Served, Takes, WritesOut, WritesText};
ghost use Rattle.collect_engine.specs.Serving.{GaveSteps};
ghost use Rattle.collect_engine.specs.Steps.{Given};

use crate::collect_words::CollectWords;
use crate::serve_end::Stopped;
use crate::serving::serve_steps;
use crate::source::Source;
use archive_pages::PagedArchive;
use archive_text::Store;
use driver::{DONE, FAULT, NO_MEMORY, REFUSED};
use octet_devices::{Output, write_all};
use std::alloc::Global;
use syslog_collect::Collector;
use syslog_legacy::FrameReading;

// Writes the archive, and returns the exit status: this one, unless it cannot be written.
fn write_archive<S: Store, W: Output, N: Output>(
    store: &S,
    status: u8,
    writer: &mut W,
    notes: &mut N,
) -> u8
    ensures { (lines : List ℕ) × WritesText (text_of (S.entries store.now)) status [] (codes "write fault\n") result
        (W.state writer.old).failures (W.state writer.new).failures (W.state writer.old).taken (W.state writer.new).taken lines
        × NotesBehind (N.state notes.old).failures (N.state notes.new).failures (N.state notes.old).taken (N.state notes.new).taken
        [] lines }
{
    match store.write(writer) {
        Ok(()) => status,
        Err(_) => {
            let _noted = write_all(notes, b"write fault\n");
            FAULT
        }
    }
}

// Writes the archive where nothing more can be noted.
fn write_unnoted<S: Store, W: Output>(store: &S, writer: &mut W) -> u8
    ensures status { result ≡ FAULT }
    ensures written { Takes (W.state writer.old).failures (W.state writer.new).failures (W.state writer.old).taken (W.state writer.new).taken
        (text_of (S.entries store.now)) }
{
    match store.write(writer) {
        Ok(()) => FAULT,
        Err(_) => FAULT,
    }
}

// Notes why a source was not served to its end, and then writes the archive of what came.
fn write_behind<S: Store, W: Output, N: Output>(
    line: &[u8],
    store: &S,
    writer: &mut W,
    notes: &mut N,
) -> u8
    ensures { (lines : List ℕ) × WritesText (text_of (S.entries store.now)) 2 line.now
        (line.now ++ codes "write fault\n") result
        (W.state writer.old).failures (W.state writer.new).failures (W.state writer.old).taken (W.state writer.new).taken lines
        × NotesBehind (N.state notes.old).failures (N.state notes.new).failures (N.state notes.old).taken (N.state notes.new).taken
        [] lines }
{
    match write_all(notes, line) {
        Ok(()) => write_archive(store, FAULT, writer, notes),
        Err(_) => write_unnoted(store, writer),
    }
}

// Notes that memory ran out. Nothing is written.
fn tell_memory<N: Output>(notes: &mut N) -> u8
    ensures status { result ≡ NO_MEMORY }
    ensures noted { NotesBehind (N.state notes.old).failures (N.state notes.new).failures (N.state notes.old).taken (N.state notes.new).taken
        [] (codes "want of memory\n") }
{
    match write_all(notes, b"want of memory\n") {
        Ok(()) => NO_MEMORY,
        Err(_) => NO_MEMORY,
    }
}

// Notes why a source was not served to its end, and writes the archive of what came, unless memory
// ran out. Returns the exit status.
fn stop<S: Store, W: Output, N: Output>(
    stopped: Stopped,
    store: &S,
    writer: &mut W,
    notes: &mut N,
) -> u8
    ensures { (lines : List ℕ) × WritesOut (Err stopped) (text_of (S.entries store.now)) result
        (W.state writer.old).failures (W.state writer.new).failures (W.state writer.old).taken (W.state writer.new).taken lines
        × NotesThen (Err stopped) (N.state notes.old).failures (N.state notes.new).failures (N.state notes.old).taken (N.state notes.new).taken
        lines }
{
    match stopped {
        Stopped::Step => write_behind(b"socket fault\n", store, writer, notes),
        Stopped::Endless => write_behind(b"endless input\n", store, writer, notes),
        Stopped::Notes => write_unnoted(store, writer),
        Stopped::Memory => tell_memory(notes),
        Stopped::MemoryAndNotes => NO_MEMORY,
    }
}

// The exit status where the source was served to its end.
fn end_status(refused: bool) -> u8
    ensures { result ≡ (if refused then 1 else 0) }
{
    if refused { REFUSED } else { DONE }
}

// Collects in a store that is empty.
fn collect_into<S: Store + Drop, R: Source, W: Output, N: Output>(
    alloc: Global,
    store: S,
    reading: FrameReading,
    source: &mut R,
    writer: &mut W,
    notes: &mut N,
) -> u8
    requires { S.entries store ≡ [] }
    ensures { (end : Served) × (given : List Given) × (accepted : List AcceptedEvent) × (told : List ℕ)
        × (kept : List Entry) × (lines : List ℕ)
        × GaveSteps (R.state source.old) (R.state source.new) given
        × Collects reading end given accepted told × IfArchived end (IsArchiveOf reading accepted kept)
        × WritesOut end (text_of kept) result
        (W.state writer.old).failures (W.state writer.new).failures (W.state writer.old).taken (W.state writer.new).taken lines
        × NotesOut end (N.state notes.old).failures (N.state notes.new).failures (N.state notes.old).taken (N.state notes.new).taken
        told lines }
{
    let Ok(mut collector) = Collector::with_reading(alloc, store, reading) else {
        return tell_memory(notes);
    };
    match serve_steps(alloc, &mut collector, source, notes) {
        Ok(refused) => write_archive(collector.store(), end_status(refused), writer, notes),
        Err(stopped) => stop(stopped, collector.store(), writer, notes),
    }
}

/// Collects what a source gives, and writes the records as an archive: each once, in its canonical
/// form, in the one order of archives. Lines go to `notes`, as those of [`serve`](crate::serve) do;
/// if serving stops, the last of them says why, except for one on a writer that fails. Once the
/// notes have failed, nothing more goes to them.
///
/// Returns the exit status: `DONE` if nothing was refused, else `REFUSED`; `FAULT` if the source or
/// a device failed, or the source has no end, and then too the archive of what came is written;
/// `NO_MEMORY` if memory ran out, and then no archive is written.
pub fn run_collect<R: Source, W: Output, N: Output>(
    alloc: Global,
    words: &CollectWords,
    source: &mut R,
    writer: &mut W,
    notes: &mut N,
) -> u8
    ensures known { result ≤ 3 }
    ensures nothing { result ≡ NO_MEMORY → (W.state writer.new).taken ≡ (W.state writer.old).taken }
    // How serving ended, after which steps, which events they were accepted as and which lines were noted of them;
    // unless memory ran out, the archive of just the records that were received in these events, which was written, or
    // its first octets where the writer failed; and by all this the status and the lines that were noted then.
    ensures collected { (end : Served) × (given : List Given) × (accepted : List AcceptedEvent) × (told : List ℕ)
        × (kept : List Entry) × (lines : List ℕ)
        × GaveSteps (R.state source.old) (R.state source.new) given
        × Collects words.now.reading end given accepted told × IfArchived end (IsArchiveOf words.now.reading accepted kept)
        × WritesOut end (text_of kept) result
        (W.state writer.old).failures (W.state writer.new).failures (W.state writer.old).taken (W.state writer.new).taken lines
        × NotesOut end (N.state notes.old).failures (N.state notes.new).failures (N.state notes.old).taken (N.state notes.new).taken
        told lines }
{
    let store = PagedArchive::new(alloc);
    collect_into(alloc, store, words.reading, source, writer, notes)
}
