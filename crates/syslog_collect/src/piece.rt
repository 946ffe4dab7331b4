//! A piece of a connection, to its end.

ghost use Rattle.std.specs.Prelude.{◌≡◌, ◌++◌, ◌<◌, ◌≤◌, ◌⊎◌, ◌↔◌, ℕ, List, IsTrue, length, take};
ghost use Rattle.std.specs.Prelude.{vec_capacity, vec_len};
ghost use Rattle.syslog_collect.specs.Answers.{IsBadCount, IsWholeWith};
ghost use Rattle.syslog_collect.specs.History.{Stream};
ghost use Rattle.syslog_collect.specs.Outcomes.{outcomes_of};
ghost use Rattle.syslog_collect.specs.Runs.{IfAccepted, IfDone, IsStepWithin, Logs, LogsAdvance, OnGoing};
ghost use Rattle.syslog_collect.specs.Runs.{piece_octets, step_octets, used_before};
ghost use Rattle.syslog_collect.specs.Logs.{ready_count};
ghost use Rattle.syslog_collect.specs.Observers.{HearsLog};
ghost use Rattle.syslog_collect.specs.Standing.{IsAt};
ghost use Rattle.syslog_collect.specs.Stops.{IfStopped, MayGoOn, OnStopped, StopsPiece, StopsStep};
ghost use Rattle.syslog_frame.specs.Scan.{HasReady};

use crate::advancing::advance_connection;
use crate::connection::Connection;
use crate::event::EventEnd;
use crate::fault::CollectFault;
use crate::observer::Observer;
use crate::outcome::Outcome;
use archive_text::Store;
use std::alloc::Global;
use syslog_legacy::FrameReading;

/// What one advance did with the rest of a piece.
#[derive(Clone, Copy, Debug)]
pub enum Step {
    /// It was refused after `used` octets.
    Stopped { used: usize, fault: CollectFault },
    /// The rest is used up, or comes behind a bad count.
    Ended,
    /// `used` octets were used, and more are left.
    On { used: usize },
}

fn is_bad_count(outcome: Option<Outcome>) -> bool
    ensures { IsTrue result ↔ IsBadCount outcome }
{
    matches!(outcome, Some(Outcome::BadCount { .. }))
}

fn used_of(fault: CollectFault) -> usize
    ensures { result ≡ used_before fault }
{
    match fault {
        CollectFault::Memory { used } => used,
        _ => 0,
    }
}

/// Appends an outcome to a log that has room for it.
pub fn note(log: &mut Vec<Outcome>, outcome: Option<Outcome>)
    requires { vec_len log.old < vec_capacity log.old }
    ensures { log.new.items ≡ log.old.items ++ outcomes_of outcome }
{
    if let Some(outcome) = outcome {
        let _ = log.push(outcome);
    }
}

/// Advances a connection once, and appends the outcome to the log, in which room is made first.
fn take_step<S: Store, O: Observer>(
    alloc: Global,
    reading: FrameReading,
    connection: &mut Connection,
    store: &mut S,
    observer: &mut O,
    rest: &[u8],
    log: &mut Vec<Outcome>,
) -> Step
    ensures within { IsStepWithin rest.now result }
    ensures settled { IfAccepted result (¬ (HasReady connection.new.scanner)) }
    ensures progress { OnGoing result (λ used. (0 < used) ⊎ HasReady connection.old.scanner) }
    ensures number { connection.new.number ≡ connection.old.number }
    ensures reserved { connection.new.scanner.reserved ≡ connection.old.scanner.reserved }
    ensures moves { (s : Stream) (handled : List (List ℕ)) → IsAt connection.old s handled
        → Logs reading connection.old connection.new (S.entries store.old) (S.entries store.new)
        (step_octets rest.now result) log.old.items log.new.items s handled }
    ensures accepted { (s : Stream) (handled : List (List ℕ)) → IsAt connection.old s handled
        → IfAccepted result (LogsAdvance reading connection.old connection.new (S.entries store.old)
        (S.entries store.new) (step_octets rest.now result) log.old.items log.new.items s handled) }
    ensures goes_on { (s : Stream) (handled : List (List ℕ)) → IsAt connection.old s handled
        → OnGoing result (λ used. MayGoOn rest.now used s) }
    ensures whole { (s : Stream) (handled : List (List ℕ)) → IsAt connection.old s handled
        → OnGoing result (λ used. IsWholeWith (take used rest.now) s) }
    ensures cause { (s : Stream) (handled : List (List ℕ)) → IsAt connection.old s handled
        → OnStopped result (λ used fault. StopsStep reading rest.now used
        (ready_count connection.old.scanner.phase) (ready_count connection.new.scanner.phase) fault s) }
    ensures hears { (s : Stream) (handled : List (List ℕ)) → IsAt connection.old s handled
        → HearsLog O.observes connection.new (step_octets rest.now result) log.old.items log.new.items
        s handled observer.old observer.new }
{
    if log.reserve(1).is_err() {
        let fault = CollectFault::Memory { used: 0 };
        return Step::Stopped { used: 0, fault };
    }
    let advance = match advance_connection(alloc, reading, connection, store, observer, rest) {
        Ok(advance) => advance,
        Err(fault) => {
            let used = used_of(fault);
            return Step::Stopped { used, fault };
        }
    };
    note(log, advance.outcome);
    if is_bad_count(advance.outcome) || advance.used >= rest.len() {
        return Step::Ended;
    }
    Step::On { used: advance.used }
}

/// Advances a connection until the piece is used up, and at least once.
pub fn take_piece<S: Store, O: Observer>(
    alloc: Global,
    reading: FrameReading,
    connection: &mut Connection,
    store: &mut S,
    observer: &mut O,
    piece: &[u8],
    log: &mut Vec<Outcome>,
) -> EventEnd
    ensures within { IfStopped result (λ taken fault. taken ≤ length piece.now) }
    ensures settled { IfDone result (¬ (HasReady connection.new.scanner)) }
    ensures number { connection.new.number ≡ connection.old.number }
    ensures reserved { connection.new.scanner.reserved ≡ connection.old.scanner.reserved }
    ensures moves { (s : Stream) (handled : List (List ℕ)) → IsAt connection.old s handled
        → Logs reading connection.old connection.new (S.entries store.old) (S.entries store.new)
        (piece_octets piece.now result) log.old.items log.new.items s handled }
    ensures accepted { (s : Stream) (handled : List (List ℕ)) → IsAt connection.old s handled
        → IfDone result (LogsAdvance reading connection.old connection.new (S.entries store.old)
        (S.entries store.new) piece.now log.old.items log.new.items s handled) }
    // Why it is refused.
    ensures cause { (s : Stream) (handled : List (List ℕ)) → IsAt connection.old s handled
        → IfStopped result (λ taken fault. StopsPiece reading piece.now taken
        (ready_count connection.new.scanner.phase) fault s) }
    // Of which frames the observer is told.
    ensures hears { (s : Stream) (handled : List (List ℕ)) → IsAt connection.old s handled
        → HearsLog O.observes connection.new (piece_octets piece.now result) log.old.items
        log.new.items s handled observer.old observer.new }
{
    let mut taken = 0;
    'pieces: loop {
        match take_step(
            alloc,
            reading,
            connection,
            store,
            observer,
            &piece[taken..],
            log,
        ) {
            Step::Stopped { used, fault } => {
                return EventEnd::Stopped {
                    taken: taken + used,
                    fault,
                };
            }
            Step::Ended => return EventEnd::Done,
            Step::On { used } => taken += used,
        }
    }
}
