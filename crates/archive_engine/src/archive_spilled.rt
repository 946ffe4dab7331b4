//! `archive` by way of a set that may be larger than memory.

ghost use Rattle.std.specs.Prelude.{◌≡◌, ◌+◌, ◌++◌, ◌≤◌, ◌<◌, ◌^◌, ℕ, List, [], IfErr, IfOk, MatchResult, OnErr, OnOk, length};
ghost use Rattle.std.specs.Prelude.{if◌then◌else◌};
ghost use Rattle.octet_devices.specs.Device.{OutputState};
ghost use Rattle.octet_devices.specs.Transfers.{WroteAll};
ghost use Rattle.syslog_frame.specs.Scan.{IsReading};
ghost use Rattle.syslog_frame.specs.declared.framing.Framing.{Framing};
ghost use Rattle.syslog_frame.specs.declared.limits.TheConstants.{POSITION_MAX};
ghost use Rattle.archive_text.specs.Entries.{Entry};
ghost use Rattle.archive_text.specs.Text.{IsArchive, text_of};
ghost use Rattle.archive_text.specs.declared.limits.TheConstants.{ENTRY_MAX};
ghost use Rattle.archive_spill.specs.Sets.{Holds};
ghost use Rattle.archive_spill.specs.declared.fault.SpillFault.{SpillFault};
ghost use Rattle.archive_spill.specs.declared.spilled.SpilledArchive.{SpilledArchive};
ghost use Rattle.driver.specs.Devices.{OutputFailed, devices};
ghost use Rattle.driver.specs.Effects.{Done, done_of, nothing, then_done};
ghost use Rattle.driver.specs.declared.session.Flow.TheVariants.{Continue};
ghost use Rattle.driver.specs.declared.stopped.Stopped.TheVariants.{Diagnostics};
ghost use Rattle.frame_engine.specs.Converted.{noted_line};
ghost use Rattle.frame_engine.specs.Sessions.{EndsInput};
ghost use Rattle.frame_engine.specs.Streams.{HasHandled};
ghost use Rattle.frame_engine.specs.declared.input_framing.InputFraming.TheVariants.{Stream};
ghost use Rattle.archive_engine.specs.Archived.{archive_handling};
ghost use Rattle.archive_engine.specs.Gathering.{GathersFrom, GathersInput, GoesOrEnds, IsShort, Noted, StopsLines};
ghost use Rattle.archive_engine.specs.Gathering.{only_at_end};
ghost use Rattle.archive_engine.specs.Spilled.{ClosesSpilled, FinishesAs, IsOfSet, PumpedSpilled, RanSpilled};
ghost use Rattle.archive_engine.specs.declared.gathering.Gathering.{Gathering};
ghost use Rattle.archive_engine.specs.declared.spill_stop.SpillStop.TheVariants.{Run};

use crate::archive::archive_input;
use crate::gathered_stream::GatheredStream;
use crate::spill_stop::SpillStop;
use archive_spill::{Spill, SpillFault, SpilledArchive};
use driver::{DONE, Effects, FAULT, Flow, NO_MEMORY, REFUSED, Stopped, report};
use frame_engine::InputFraming;
use octet_devices::{Input, Output, READER_CALLS, write_all};
use std::alloc::{AllocError, Global};
use syslog_frame::Framing;
use syslog_legacy::FrameReading;

/// How many octets are asked of the input per call at most.
pub const SPILLED_READ_MAX: usize = 262_144;

// Writes the lines that are held back.
fn tell<N: Output>(effects: &mut Effects, diagnostics: &mut N) -> Result<(), SpillStop>
    ensures kept { done_of effects.new ≡ record {
      refused = effects.old.refused;
      output = effects.old.output.items;
      diagnostics = [];
    } }
    ensures wrote { OnOk result (WroteAll (N.state diagnostics.old) (N.state diagnostics.new)
        effects.old.diagnostics.items) }
    ensures failed { OnErr result
        (OutputFailed (N.state diagnostics.old) (N.state diagnostics.new)) }
    ensures stop { IfErr result (λ stop. stop ≡ Run Diagnostics) }
{
    let told = write_all(diagnostics, effects.diagnostics.as_slice());
    effects.diagnostics.clear();
    match told {
        Ok(()) => Ok(()),
        Err(_) => Err(SpillStop::Run(Stopped::Diagnostics)),
    }
}

// Why a stream stopped, whose set did not take a record for this cause, if for any.
fn stop_of(fault: Option<SpillFault>) -> SpillStop
    ensures { IsShort result }
{
    match fault {
        None | Some(SpillFault::Memory) => SpillStop::Run(Stopped::Memory),
        Some(SpillFault::Spill | SpillFault::TooLong | SpillFault::Output) => SpillStop::Spill,
    }
}

// Gives a piece to the stream, and writes the lines on it.
fn take_piece<P: Spill + Drop, N: Output>(
    stream: &mut GatheredStream<SpilledArchive<P, P::Run>, SpillFault>,
    piece: &[u8],
    effects: &mut Effects,
    diagnostics: &mut N,
) -> Result<Flow, SpillStop>
    requires reading { IsReading stream.old.scanner }
    requires near { stream.old.scanner.position + length piece.now ≤ POSITION_MAX }
    requires few { stream.old.number + length piece.now < 2 ^ 64 }
    ensures reading { IfOk result (λ flow. flow ≡ Continue → IsReading stream.new.scanner) }
    ensures position { IfOk result (λ flow. flow ≡ Continue →
        stream.new.scanner.position ≡ stream.old.scanner.position + length piece.now) }
    ensures number { stream.new.number ≤ stream.old.number + length piece.now }
    ensures takes { MatchResult result
        (λ flow. (n : OutputState) (first : Gathering (SpilledArchive P P.Run) SpillFault)
        (kind : Framing) (given : List ℕ)
        → Noted (HasHandled (archive_handling first.reading)
        (GathersFrom (Holds P.tells P.Run.state) first stream.old.gathering) stream.old.scanner kind given
        stream.old.number) n (N.state diagnostics.old) (done_of effects.old)
        → Noted (GoesOrEnds flow first.reading
        (GathersFrom (Holds P.tells P.Run.state) first stream.new.gathering) stream.new.scanner kind
        (given ++ piece.now) stream.new.number) n (N.state diagnostics.new) (done_of effects.new))
        (λ stop. (n : OutputState) (first : Gathering (SpilledArchive P P.Run) SpillFault)
        (kind : Framing) (given : List ℕ)
        → Noted (HasHandled (archive_handling first.reading)
        (GathersFrom (Holds P.tells P.Run.state) first stream.old.gathering) stream.old.scanner kind given
        stream.old.number) n (N.state diagnostics.old) (done_of effects.old)
        → StopsLines stop first.reading kind (given ++ piece.now) n (N.state diagnostics.new)) }
{
    let taken = stream.take(piece, effects);
    tell(effects, diagnostics)?;
    match taken {
        Ok(flow) => Ok(flow),
        Err(AllocError) => Err(stop_of(stream.gathering.fault)),
    }
}

// Ends the stream, and writes the line on its end.
fn take_end<P: Spill + Drop, N: Output>(
    stream: &GatheredStream<SpilledArchive<P, P::Run>, SpillFault>,
    effects: &mut Effects,
    diagnostics: &mut N,
) -> Result<(), SpillStop>
    requires { IsReading stream.now.scanner }
    ensures { MatchResult result
        (λ _. (n : OutputState) (first : Gathering (SpilledArchive P P.Run) SpillFault)
        (kind : Framing) (given : List ℕ)
        → Noted (HasHandled (archive_handling first.reading)
        (GathersFrom (Holds P.tells P.Run.state) first stream.now.gathering) stream.now.scanner kind given
        stream.now.number) n (N.state diagnostics.old) (done_of effects.old)
        → Noted (EndsInput (archive_handling first.reading) noted_line
        (only_at_end (GathersFrom (Holds P.tells P.Run.state) first stream.now.gathering)) (Stream kind)
        given) n (N.state diagnostics.new) (done_of effects.new))
        (λ stop. (n : OutputState) (first : Gathering (SpilledArchive P P.Run) SpillFault)
        (kind : Framing) (given : List ℕ)
        → Noted (HasHandled (archive_handling first.reading)
        (GathersFrom (Holds P.tells P.Run.state) first stream.now.gathering) stream.now.scanner kind given
        stream.now.number) n (N.state diagnostics.old) (done_of effects.old)
        → StopsLines stop first.reading kind given n (N.state diagnostics.new)) }
{
    let taken = stream.end(effects);
    tell(effects, diagnostics)?;
    match taken {
        Ok(()) => Ok(()),
        Err(AllocError) => Err(SpillStop::Run(Stopped::Memory)),
    }
}

// Reads the input to its end, or to a bad MSG-LEN, and writes the lines on it: those on a piece before
// the next call. Returns whether something was refused.
fn gather<P: Spill + Drop, R: Input, N: Output>(
    alloc: Global,
    stream: &mut GatheredStream<SpilledArchive<P, P::Run>, SpillFault>,
    input: &mut R,
    diagnostics: &mut N,
) -> Result<bool, SpillStop>
    requires reading { IsReading stream.old.scanner }
    requires position { stream.old.scanner.position ≡ 0 }
    requires number { stream.old.number ≡ 1 }
    ensures { (first : Gathering (SpilledArchive P P.Run) SpillFault) (kind : Framing)
        → HasHandled (archive_handling first.reading)
        (GathersFrom (Holds P.tells P.Run.state) first stream.old.gathering) stream.old.scanner kind []
        stream.old.number nothing
        → GathersInput first.reading (GathersFrom (Holds P.tells P.Run.state) first stream.new.gathering)
        kind (R.state input.old) (R.state input.new) (N.state diagnostics.old)
        (N.state diagnostics.new) result }
{
    let Ok(mut piece) = vec![in alloc; 0u8; SPILLED_READ_MAX] else {
        return Err(SpillStop::Run(Stopped::Memory));
    };
    let mut effects = Effects::new(alloc);
    for _turn in 0..READER_CALLS {
        let Ok(n) = input.read(&mut piece) else {
            return Err(SpillStop::Run(Stopped::Read));
        };
        if n == 0 {
            take_end(stream, &mut effects, diagnostics)?;
            return Ok(effects.refused);
        }
        match take_piece(stream, &piece[..n], &mut effects, diagnostics)? {
            Flow::Finished => return Ok(effects.refused),
            Flow::Continue => {}
        }
    }
    Err(SpillStop::Run(Stopped::Endless))
}

// Writes the archive of the set, and returns the exit status.
fn finish<P: Spill + Drop, W: Output>(
    set: SpilledArchive<P, P::Run>,
    refused: bool,
    output: &mut W,
) -> Result<u8, SpillStop>
    ensures written { (es : List Entry) → Holds P.tells P.Run.state set es
        → IsArchive ENTRY_MAX es
        → FinishesAs (W.state output.old) (W.state output.new) (text_of es) result }
    ensures status { IfOk result (λ status. status ≡ (if refused then 1 else 0)) }
    ensures stop { IfErr result (λ stop. IsOfSet stop) }
{
    match set.write(output) {
        Ok(()) => Ok(if refused { REFUSED } else { DONE }),
        Err(SpillFault::Output) => Err(SpillStop::Run(Stopped::Write)),
        Err(SpillFault::Memory) => Err(SpillStop::Run(Stopped::Memory)),
        Err(SpillFault::Spill | SpillFault::TooLong) => Err(SpillStop::Spill),
    }
}

// Archives a stream. At `Err` the line of the stop is not written.
fn archive_stream<P: Spill + Drop, R: Input, W: Output, N: Output>(
    alloc: Global,
    framing: Framing,
    reading: FrameReading,
    set: SpilledArchive<P, P::Run>,
    input: &mut R,
    output: &mut W,
    diagnostics: &mut N,
) -> Result<u8, SpillStop>
    ensures { PumpedSpilled (Holds P.tells P.Run.state set []) reading (Stream framing)
        (devices (R.state input.old) (W.state output.old) (N.state diagnostics.old))
        (devices (R.state input.new) (W.state output.new) (N.state diagnostics.new))
        result }
{
    let Ok(mut stream) = GatheredStream::new(alloc, framing, reading, set) else {
        return Err(SpillStop::Run(Stopped::Memory));
    };
    let refused = gather(alloc, &mut stream, input, diagnostics)?;
    finish(stream.gathering.set, refused, output)
}

// Writes the line of a stop, and returns its status.
fn close<N: Output>(stop: SpillStop, diagnostics: &mut N) -> u8
    ensures { ClosesSpilled stop (N.state diagnostics.old) (N.state diagnostics.new) result }
{
    match stop {
        SpillStop::Run(Stopped::Read) => report(diagnostics, b"read fault\n", FAULT),
        SpillStop::Run(Stopped::Endless) => report(diagnostics, b"endless input\n", FAULT),
        SpillStop::Run(Stopped::Write) => report(diagnostics, b"write fault\n", FAULT),
        SpillStop::Run(Stopped::Diagnostics) => FAULT,
        SpillStop::Run(Stopped::Memory) => report(diagnostics, b"want of memory\n", NO_MEMORY),
        SpillStop::Spill => report(diagnostics, b"spill fault\n", FAULT),
    }
}

// Whether no run was made for want of memory.
fn lacks_memory(made: &Result<(), SpillFault>) -> bool {
    matches!(made, Err(SpillFault::Memory))
}

/// Writes the records of the rest of the input as an archive, by way of a set that may be larger
/// than memory and holds nothing yet. The lines and the status are those of
/// [`archive_input`](crate::archive_input), whatever the set's room; so is the output, if the runs
/// of the spill give back what was written to them. A run is made before anything is read, to tell
/// whether there can be any.
///
/// Returns the exit status: `DONE` if nothing was refused, else `REFUSED`; `FAULT` if a device or
/// the spill failed or the input has no end; `NO_MEMORY` if memory ran out. After the last two, the
/// last line tells the cause, and a prefix of the archive was written. The input is asked for at
/// most `SPILLED_READ_MAX` octets per call; after a bad count nothing more is read.
pub fn archive_spilled_input<P: Spill + Drop, R: Input, W: Output, N: Output>(
    alloc: Global,
    input_framing: InputFraming,
    reading: FrameReading,
    mut set: SpilledArchive<P, P::Run>,
    input: &mut R,
    output: &mut W,
    diagnostics: &mut N,
) -> u8
    ensures { RanSpilled (Holds P.tells P.Run.state set []) reading input_framing
        (devices (R.state input.old) (W.state output.old) (N.state diagnostics.old))
        (devices (R.state input.new) (W.state output.new) (N.state diagnostics.new))
        result }
{
    let made = set.check_spill();
    if lacks_memory(&made) {
        return report(diagnostics, b"want of memory\n", NO_MEMORY);
    }
    if made.is_err() {
        return report(diagnostics, b"spill fault\n", FAULT);
    }
    let InputFraming::Stream(framing) = input_framing else {
        return archive_input(alloc, input_framing, reading, input, output, diagnostics);
    };
    match archive_stream(alloc, framing, reading, set, input, output, diagnostics) {
        Ok(status) => status,
        Err(stop) => close(stop, diagnostics),
    }
}
