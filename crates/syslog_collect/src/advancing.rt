//! What a connection does with a piece.

ghost use Rattle.std.specs.Prelude.{◌≡◌, ◌<◌, ◌≤◌, ◌⊎◌, ℕ, List, IfOk, OnErr, OnOk, length};
ghost use Rattle.syslog_frame.specs.Scan.{HasFrame, HasReady};
ghost use Rattle.syslog_collect.specs.Answers.{AdvancesBy, IfMemory, IfRefused};
ghost use Rattle.syslog_collect.specs.Answers.{IsBadCount, IsCause, IsTaken, IsUsedWithin, WantsRoom};
ghost use Rattle.syslog_collect.specs.Answers.{accepted_octets, answered, dropped_octets};
ghost use Rattle.syslog_collect.specs.History.{Stream};
ghost use Rattle.syslog_collect.specs.Logs.{ready_count};
ghost use Rattle.syslog_collect.specs.Observers.{HearsBy};
ghost use Rattle.syslog_collect.specs.Standing.{IsAt};

use crate::connection::{Connection, handle_ready};
use crate::fault::{Advance, CollectFault};
use crate::observer::Observer;
use archive_text::Store;
use std::alloc::Global;
use syslog_frame::GrowFault;
use syslog_legacy::FrameReading;

/// Takes octets of a piece, at most up to the end of a frame, and handles the frame that is ready,
/// of which it tells an observer.
/// It is refused as [`Collector::advance`](crate::Collector::advance) says.
pub fn advance_connection<S: Store, O: Observer>(
    alloc: Global,
    reading: FrameReading,
    connection: &mut Connection,
    store: &mut S,
    observer: &mut O,
    piece: &[u8],
) -> Result<Advance, CollectFault>
    // How much is taken, and that each call comes closer to the end of the piece.
    ensures within { IsUsedWithin piece.now result }
    ensures settled { OnOk result (¬ (HasReady connection.new.scanner)) }
    ensures progress { IfOk result (λ a. ¬ (HasReady connection.old.scanner) → 0 < length piece.now
        → a.used ≡ 0 → IsBadCount a.outcome) }
    ensures number { connection.new.number ≡ connection.old.number }
    ensures reserved { connection.new.scanner.reserved ≡ connection.old.scanner.reserved }
    // Where memory was refused, the frame stays ready, and the store is what it was; or there was no
    // room for octets of a frame.
    ensures waits { WantsRoom connection.old connection.new result
        ⊎ IfMemory result (HasFrame connection.new.scanner) }
    ensures err { OnErr result (S.entries store.new ≡ S.entries store.old) }
    ensures taken { (s : Stream) (handled : List (List ℕ)) → IsAt connection.old s handled
        → WantsRoom connection.old connection.new result
        ⊎ IsTaken piece.now (ready_count connection.old.scanner.phase) result s }

    // Why it is refused, and that nothing has changed then, but where memory was refused.
    ensures cause { (s : Stream) (handled : List (List ℕ)) → IsAt connection.old s handled
        → WantsRoom connection.old connection.new result ⊎ IsCause reading piece.now result s }
    ensures unchanged { IfRefused result
        ((connection.new ≡ connection.old) × (store.new ≡ store.old)) }
    // What was accepted, with the octets that follow a bad one or without them.
    ensures moves { (s : Stream) (handled : List (List ℕ)) → IsAt connection.old s handled
        → AdvancesBy reading (accepted_octets piece.now result) connection.old connection.new
        (S.entries store.old) (S.entries store.new) (answered result) s handled }
    ensures drops { (s : Stream) (handled : List (List ℕ)) → IsAt connection.old s handled
        → AdvancesBy reading (dropped_octets piece.now result) connection.old connection.new
        (S.entries store.old) (S.entries store.new) (answered result) s handled }
    ensures hears { (s : Stream) (handled : List (List ℕ)) → IsAt connection.old s handled
        → HearsBy O.observes (dropped_octets piece.now result) connection.old connection.new
        (answered result) s handled observer.old observer.new }
{
    let used = match connection.scanner.push(piece) {
        Ok(used) => used,
        Err(GrowFault::Failed) => return Err(CollectFault::ConnFailed),
        Err(GrowFault::StreamTooLong) => return Err(CollectFault::StreamTooLong),
        Err(GrowFault::Memory) => return Err(CollectFault::Memory { used: 0 }),
    };
    let Ok(outcome) = handle_ready(alloc, reading, &connection.scanner, store, observer) else {
        return Err(CollectFault::Memory { used });
    };
    let _ = connection.scanner.release();
    Ok(Advance { used, outcome })
}
