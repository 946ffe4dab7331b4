//! What a collector makes of an event.
ghost use Rattle.std.specs.Prelude.{◌≡◌, ◌++◌, List};
ghost use Rattle.archive_text.specs.Entries.{Entry};
ghost use Rattle.syslog_collect.specs.Collectors.{NoneWaits, Stands, behind, limit_of, reading_of, waits_of};
ghost use Rattle.syslog_collect.specs.History.{AcceptedEvent, Piece, history_of, stream_of};
ghost use Rattle.syslog_collect.specs.Runs.{accepted_event};
ghost use Rattle.collect_engine.specs.Receiving.{HearsReceived, IfNotMemory, IfRefused, MayNotOpen, ReceivesAs};
ghost use Rattle.collect_engine.specs.Receiving.{kept_outcomes, received_as};

use archive_text::Store;
use std::alloc::Global;
use syslog_collect::{CollectFault, Collector, Event, EventEnd, Observer, Outcome, RunEnd};

/// What became of an event.
#[derive(Clone, Copy, Debug, PartialEq, Eq)]
pub enum Received {
    /// It was accepted; or it was a piece behind a bad count, which is passed over.
    Accepted,
    /// The connection has ended, inside the frame that begins at this position.
    Unterminated { start: u64 },
    /// It was refused.
    Refused,
    /// An allocation failed.
    Memory,
}

fn received_of(fault: CollectFault) -> Received
    ensures { result ≡ received_as fault }
{
    match fault {
        CollectFault::ConnFailed => Received::Accepted,
        CollectFault::Memory { .. } => Received::Memory,
        CollectFault::Unterminated { start } => Received::Unterminated { start },
        _ => Received::Refused,
    }
}

// Keeps the outcomes of an event that was refused only where memory ran out.
fn keep_outcomes(fault: CollectFault, outcomes: &mut Vec<Outcome>)
    ensures { outcomes.new.items ≡ kept_outcomes fault outcomes.old.items }
{
    match fault {
        CollectFault::Memory { .. } => {}
        _ => outcomes.clear(),
    }
}

/// Gives an event to the collector, and keeps only its outcomes.
pub fn receive<S: Store>(
    alloc: Global,
    collector: &mut Collector<S>,
    event: Event<'_>,
    outcomes: &mut Vec<Outcome>,
) -> Received
    ensures received { (past first : List Entry) (before : List AcceptedEvent)
        → Stands (behind past S.entries) collector.old first before
        → (accepted : List AcceptedEvent)
        × Stands (behind past S.entries) collector.new first (before ++ accepted)
        × ReceivesAs (reading_of collector.old) (history_of before) (waits_of collector.old)
        (waits_of collector.new) (accepted_event event.entry) result outcomes.new.items
        accepted }
    ensures settled { (past first : List Entry) (before : List AcceptedEvent)
        → Stands (behind past S.entries) collector.old first before
        → NoneWaits collector.old
        → IfNotMemory result (NoneWaits collector.new) }
    ensures room { (past first : List Entry) (before : List AcceptedEvent)
        → Stands (behind past S.entries) collector.old first before
        → IfRefused result (MayNotOpen (limit_of collector.old) (history_of before)
        (accepted_event event.entry)) }
    ensures reading { reading_of collector.new ≡ reading_of collector.old }
    ensures limit { limit_of collector.new ≡ limit_of collector.old }
{
    outcomes.clear();
    match collector.run(alloc, &[event], outcomes) {
        RunEnd::Done => Received::Accepted,
        RunEnd::Stopped { fault, .. } => {
            keep_outcomes(fault, outcomes);
            received_of(fault)
        }
    }
}

/// Gives a piece to the collector as [`receive`] does, and tells an observer of each frame as it is
/// handled, with its octets.
pub fn receive_piece<S: Store, O: Observer>(
    alloc: Global,
    collector: &mut Collector<S>,
    conn: u32,
    octets: &[u8],
    outcomes: &mut Vec<Outcome>,
    observer: &mut O,
) -> Received
    ensures received { (past first : List Entry) (before : List AcceptedEvent)
        → Stands (behind past S.entries) collector.old first before
        → (accepted : List AcceptedEvent)
        × Stands (behind past S.entries) collector.new first (before ++ accepted)
        × ReceivesAs (reading_of collector.old) (history_of before) (waits_of collector.old)
        (waits_of collector.new) (Piece conn octets.now) result outcomes.new.items accepted }
    ensures settled { (past first : List Entry) (before : List AcceptedEvent)
        → Stands (behind past S.entries) collector.old first before
        → NoneWaits collector.old
        → IfNotMemory result (NoneWaits collector.new) }
    ensures room { (past first : List Entry) (before : List AcceptedEvent)
        → Stands (behind past S.entries) collector.old first before
        → IfRefused result (MayNotOpen (limit_of collector.old) (history_of before)
        (Piece conn octets.now)) }
    // Of which frames the observer was told.
    ensures hears { (past first : List Entry) (before : List AcceptedEvent)
        → Stands (behind past S.entries) collector.old first before
        → HearsReceived O.observes (stream_of conn (history_of before).streams) octets.now
        (waits_of collector.old conn) (waits_of collector.new conn) outcomes.new.items
        observer.old observer.new }
    ensures reading { reading_of collector.new ≡ reading_of collector.old }
    ensures limit { limit_of collector.new ≡ limit_of collector.old }
{
    outcomes.clear();
    match collector.observed_piece(alloc, conn, octets, outcomes, observer) {
        EventEnd::Done => Received::Accepted,
        EventEnd::Stopped { fault, .. } => {
            keep_outcomes(fault, outcomes);
            received_of(fault)
        }
    }
}
