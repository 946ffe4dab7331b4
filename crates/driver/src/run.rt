//! A session over devices.

ghost use Rattle.std.specs.Prelude.{◌≡◌, ◌<◌, length, IsTrue, OnOk, IsErrOf, if◌then◌else◌};
ghost use Rattle.octet_devices.specs.Device.{AreSmall};
ghost use Rattle.driver.specs.Devices.{devices};
ghost use Rattle.driver.specs.Effects.{IsWrittenOut, done_of, nothing};
ghost use Rattle.driver.specs.Holding.{Closes, FailsWrittenOut, Flushes, Pumped, ReadThrough};
ghost use Rattle.driver.specs.Run.{AreLawful, Ran, RanWithin, endless, limits_of};
ghost use Rattle.driver.specs.Sessions.{HasBegun};

use crate::diagnostics::report;
use crate::effects::Effects;
use crate::limits::ENDLESS_CALLS;
use crate::room::EndlessRoom;
use crate::session::{Flow, Session};
use crate::status::{DONE, FAULT, NO_MEMORY, REFUSED};
use crate::stopped::Stopped;
use octet_devices::{Input, Output, READ_MAX, READER_CALLS, write_all};
use std::alloc::Global;

// the octets held back before they are written
const LARGE: usize = 65_536;

// Writes the diagnostics and then the output, so that nothing is held back.
fn flush<W: Output, N: Output>(
    effects: &mut Effects,
    output: &mut W,
    diagnostics: &mut N,
) -> Result<(), Stopped>
    ensures flushes { Flushes (W.state output.old) (N.state diagnostics.old)
        (W.state output.new) (N.state diagnostics.new)
        (done_of effects.old) (done_of effects.new) result }
    ensures clear { OnOk result (IsWrittenOut (done_of effects.new)) }
{
    let reported = write_all(diagnostics, effects.diagnostics.as_slice());
    effects.diagnostics.clear();
    let written = write_all(output, effects.output.as_slice());
    effects.output.clear();
    match (reported, written) {
        (Ok(()), Ok(())) => Ok(()),
        (Ok(()), Err(_)) => Err(Stopped::Write),
        (Err(_), _) => Err(Stopped::Diagnostics),
    }
}

// Writes what is held back once it is much, or where nobody has sent more yet.
fn flush_due<W: Output, N: Output>(
    waits: bool,
    effects: &mut Effects,
    output: &mut W,
    diagnostics: &mut N,
) -> Result<(), Stopped>
    ensures flushes { Flushes (W.state output.old) (N.state diagnostics.old)
        (W.state output.new) (N.state diagnostics.new)
        (done_of effects.old) (done_of effects.new) result }
    ensures due { OnOk result (IsTrue waits → IsWrittenOut (done_of effects.new)) }
    ensures few { OnOk result ((length effects.new.output.items < LARGE)
        × (length effects.new.diagnostics.items < LARGE)) }
{
    if !waits && effects.output.len() < LARGE && effects.diagnostics.len() < LARGE {
        return Ok(());
    }
    flush(effects, output, diagnostics)
}

// Reads the input to its end, or as far as the session needs it, in so many calls at most, and gives it
// to the session. What is held back is written whenever it is much, and before a read that may wait for
// a sender; the rest is left in the effects.
fn read_through<S: Session, R: Input, W: Output, N: Output>(
    session: &mut S,
    input: &mut R,
    output: &mut W,
    diagnostics: &mut N,
    effects: &mut Effects,
    piece: &mut [u8],
    calls: u64,
) -> Result<(), Stopped>
    requires effects { done_of effects.old ≡ nothing }
    requires lawful { AreLawful (limits_of piece.old calls) }
    ensures ran { HasBegun (S.stands session.old session.old) (S.means session.old) →
        ReadThrough (limits_of piece.old calls) (S.means session.old)
        (devices (R.state input.old) (W.state output.old) (N.state diagnostics.old))
        (devices (R.state input.new) (W.state output.new) (N.state diagnostics.new))
        (done_of effects.new) (S.rest session.new) result }
    ensures due { AreSmall (R.state input.old) → IsErrOf result Stopped.Read →
        FailsWrittenOut (length piece.old) R.state input.old input.new (done_of effects.new) }
{
    for _turn in 0..calls {
        let Ok(n) = input.read(piece) else {
            return Err(Stopped::Read);
        };
        if n == 0 {
            session.end(effects)?;
            return Ok(());
        }
        match session.take(&piece[..n], effects)? {
            Flow::Finished => return Ok(()),
            // a read that came short has emptied its pipe: the next may wait for a sender
            Flow::Continue => flush_due(n < piece.len(), effects, output, diagnostics)?,
        }
    }
    Err(Stopped::Endless)
}

fn status(refused: bool) -> u8
    ensures { result ≡ (if refused then 1 else 0) }
{
    if refused { REFUSED } else { DONE }
}

// Runs the session, with nothing held back in the end. At `Err` the line of the stop is not written.
fn pump<S: Session, R: Input, W: Output, N: Output>(
    alloc: Global,
    session: &mut S,
    input: &mut R,
    output: &mut W,
    diagnostics: &mut N,
    piece: &mut [u8],
    calls: u64,
) -> Result<u8, Stopped>
    requires { AreLawful (limits_of piece.old calls) }
    ensures { HasBegun (S.stands session.old session.old) (S.means session.old) →
        Pumped (limits_of piece.old calls) (S.means session.old)
        (devices (R.state input.old) (W.state output.old) (N.state diagnostics.old))
        (devices (R.state input.new) (W.state output.new) (N.state diagnostics.new))
        result }
{
    let mut effects = Effects::new(alloc);
    match read_through(
        session,
        input,
        output,
        diagnostics,
        &mut effects,
        piece,
        calls,
    ) {
        Ok(()) => {
            flush(&mut effects, output, diagnostics)?;
            match session.write_rest(output) {
                Ok(()) => Ok(status(effects.refused)),
                Err(_) => Err(Stopped::Write),
            }
        }
        Err(Stopped::Read) => {
            flush(&mut effects, output, diagnostics)?;
            Err(Stopped::Read)
        }
        Err(Stopped::Endless) => {
            flush(&mut effects, output, diagnostics)?;
            Err(Stopped::Endless)
        }
        Err(Stopped::Memory) => {
            flush(&mut effects, output, diagnostics)?;
            Err(Stopped::Memory)
        }
        Err(Stopped::Write) => Err(Stopped::Write),
        Err(Stopped::Diagnostics) => Err(Stopped::Diagnostics),
    }
}

// Writes the line of a stop, and returns its status.
fn close<N: Output>(stopped: Stopped, diagnostics: &mut N) -> u8
    ensures { Closes stopped (N.state diagnostics.old) (N.state diagnostics.new) result }
{
    match stopped {
        Stopped::Read => report(diagnostics, b"read fault\n", FAULT),
        Stopped::Endless => report(diagnostics, b"endless input\n", FAULT),
        Stopped::Write => report(diagnostics, b"write fault\n", FAULT),
        Stopped::Diagnostics => FAULT,
        Stopped::Memory => report(diagnostics, b"want of memory\n", NO_MEMORY),
    }
}

// Runs a session over devices, with room for what is read at once, and so many calls at most.
fn run<S: Session, R: Input, W: Output, N: Output>(
    alloc: Global,
    session: &mut S,
    input: &mut R,
    output: &mut W,
    diagnostics: &mut N,
    piece: &mut [u8],
    calls: u64,
) -> u8
    requires { AreLawful (limits_of piece.old calls) }
    ensures { HasBegun (S.stands session.old session.old) (S.means session.old) →
        RanWithin (limits_of piece.old calls) (S.means session.old)
        (devices (R.state input.old) (W.state output.old) (N.state diagnostics.old))
        (devices (R.state input.new) (W.state output.new) (N.state diagnostics.new))
        result }
{
    match pump(alloc, session, input, output, diagnostics, piece, calls) {
        Ok(status) => status,
        Err(stopped) => close(stopped, diagnostics),
    }
}

/// Runs a session over devices: reads the input to its end, or as far as the session needs it, and
/// writes what comes of it. Returns the exit status: `DONE` if nothing was refused, else `REFUSED`;
/// `FAULT` if a device failed or the input has no end; `NO_MEMORY` if memory ran out. After the
/// last two, the last line of the diagnostics tells the cause, and before it stands what came of
/// the octets that were read.
pub fn drive<S: Session, R: Input, W: Output, N: Output>(
    alloc: Global,
    session: &mut S,
    input: &mut R,
    output: &mut W,
    diagnostics: &mut N,
) -> u8
    ensures { HasBegun (S.stands session.old session.old) (S.means session.old) →
        Ran (S.means session.old)
        (devices (R.state input.old) (W.state output.old) (N.state diagnostics.old))
        (devices (R.state input.new) (W.state output.new) (N.state diagnostics.new))
        result }
{
    let mut piece = [0u8; READ_MAX];
    run(
        alloc,
        session,
        input,
        output,
        diagnostics,
        &mut piece,
        READER_CALLS,
    )
}

/// Runs a session over devices, as [`drive`] does, over an input that may have any length: it is called
/// at most `ENDLESS_CALLS` times, each time for what the room takes.
pub fn drive_endless<S: Session, R: Input, W: Output, N: Output>(
    alloc: Global,
    room: &mut EndlessRoom,
    session: &mut S,
    input: &mut R,
    output: &mut W,
    diagnostics: &mut N,
) -> u8
    ensures { HasBegun (S.stands session.old session.old) (S.means session.old) →
        RanWithin endless (S.means session.old)
        (devices (R.state input.old) (W.state output.old) (N.state diagnostics.old))
        (devices (R.state input.new) (W.state output.new) (N.state diagnostics.new))
        result }
{
    run(
        alloc,
        session,
        input,
        output,
        diagnostics,
        room.piece.as_mut_slice(),
        ENDLESS_CALLS,
    )
}
