//! Laws of received sets, as contracts.

ghost use Rattle.std.specs.Prelude.{◌≡◌, ◌↔◌, ◌≤◌, ◌⊎◌, ◌++◌, ℕ, ℤ, List, [], None, length};
ghost use Rattle.syslog_value.specs.Parts.{Parts};
ghost use Rattle.syslog_reading.specs.WellFormed.{WellFormed};
ghost use Rattle.syslog_frame.specs.declared.limits.TheConstants.{FRAME_MAX};
ghost use Rattle.archive_text.specs.Entries.{Entry, Has, IsEntryOf};
ghost use Rattle.archive_text.specs.Sets.{IsUnionOfEntries};
ghost use Rattle.archive_text.specs.Text.{IsArchive, text_of};
ghost use Rattle.syslog_collect.specs.Collectors.{HaveSameEntries, NoneWaits, Stands, behind, reading_of};
ghost use Rattle.syslog_collect.specs.Collectors.{store_of, with_store};
ghost use Rattle.syslog_collect.specs.Frames.{IsFrameOf, IsReceived};
ghost use Rattle.syslog_collect.specs.Headline.{ReceivedBoth, ReceivedSame};
ghost use Rattle.syslog_collect.specs.History.{AcceptedEvent};
ghost use Rattle.syslog_legacy.specs.FrameReadings.{IsLegacy, IsNotUtf8At, IsReadAs, whole};
ghost use Rattle.syslog_legacy.specs.declared.frame_reading.FrameReading.{FrameReading};

use crate::collector::Collector;
use archive_text::{ENTRY_MAX, Store};

/// The received set is exactly that of the records as which some frame of at most `FRAME_MAX`
/// octets is read.
pub fn received_records()
    // Each of its entries is that of such a record.
    ensures entries { (reading : FrameReading) (events : List AcceptedEvent) (x : Entry)
        → IsReceived reading events x → (r : Parts ℤ) × IsEntryOf r x
        × ((f : List ℕ) × IsFrameOf events f × (length f ≤ FRAME_MAX) × IsReadAs reading r f) }
    // A record is received exactly where some such frame is read as it.
    ensures records { (reading : FrameReading) (events : List AcceptedEvent) (r : Parts ℤ) (x : Entry)
        → IsEntryOf r x → IsReceived reading events x
        ↔ ((f : List ℕ) × IsFrameOf events f × (length f ≤ FRAME_MAX) × IsReadAs reading r f) }
    // Of whole frames without a clock these are the records of RFC 5424 that some such frame spells.
    ensures spelled { (events : List AcceptedEvent) (r : Parts ℤ) (x : Entry)
        → IsEntryOf r x → IsReceived (whole None) events x
        ↔ ((f : List ℕ) × IsFrameOf events f × (length f ≤ FRAME_MAX) × WellFormed r f) }
{}

/// A frame is read as at most one record. If it is read whole and without a clock, that is the
/// record of RFC 5424 that it spells, and no frame is a legacy packet.
pub fn frames_have_one_reading()
    ensures one { (reading : FrameReading) (r : Parts ℤ) (q : Parts ℤ) (f : List ℕ)
        → IsReadAs reading r f → IsReadAs reading q f → r ≡ q }
    ensures spelled { (r : Parts ℤ) (f : List ℕ) → IsReadAs (whole None) r f ↔ WellFormed r f }
    ensures never_legacy { (f : List ℕ) → ¬ (IsLegacy (whole None) f) }
    ensures never_refused { (offset : ℕ) (f : List ℕ) → ¬ (IsNotUtf8At (whole None) offset f) }
{}

/// A store may no longer hold what is kept elsewhere, as on a disk: a collector stands behind both.
pub fn stands_behind<S: Store>(collector: &Collector<S>)
    // With another store it stands there still, where both have the same entries with those elsewhere.
    ensures members { (store : S) (past since first : List Entry) (events : List AcceptedEvent)
        → Stands (behind past S.entries) collector.now first events
        → HaveSameEntries (past ++ S.entries (store_of collector.now)) (since ++ S.entries store)
        → Stands (behind since S.entries) (with_store collector.now store) first events }
    // Where no frame waits, both together hold what was there first and the received set.
    ensures received { (past first : List Entry) (events : List AcceptedEvent)
        → Stands (behind past S.entries) collector.now first events → NoneWaits collector.now
        → (x : Entry) → Has (past ++ S.entries (store_of collector.now)) x
        ↔ (Has first x ⊎ IsReceived (reading_of collector.now) events x) }
{}

/// The headline: two collectors over stores that were empty, of any two kinds, whose received sets
/// are equal, hold the same entries in the same order. So their archives, as `Store::write` writes
/// them, are byte-equal, whatever the framings, cuts, orders, interleavings and repetitions. Both
/// must read frames in the same way.
pub fn same_archives<S: Store, T: Store>(one: &Collector<S>, two: &Collector<T>)
    ensures entries { (events others : List AcceptedEvent) → reading_of one.now ≡ reading_of two.now
        → Stands S.entries one.now [] events → Stands T.entries two.now [] others
        → NoneWaits one.now → NoneWaits two.now → ReceivedSame (reading_of one.now) events others
        → S.entries (store_of one.now) ≡ T.entries (store_of two.now) }
    ensures texts { (events others : List AcceptedEvent) → reading_of one.now ≡ reading_of two.now
        → Stands S.entries one.now [] events → Stands T.entries two.now [] others
        → NoneWaits one.now → NoneWaits two.now → ReceivedSame (reading_of one.now) events others
        → text_of (S.entries (store_of one.now)) ≡ text_of (T.entries (store_of two.now)) }
{}

/// Merging: the union of the archives of two collectors is the archive of a collector that received
/// what the two did. All must read frames in the same way.
pub fn merged_archives<S: Store, T: Store, U: Store>(
    one: &Collector<S>,
    two: &Collector<T>,
    all: &Collector<U>,
)
    ensures { (events others both : List AcceptedEvent) (merged : List Entry)
        → reading_of one.now ≡ reading_of two.now → reading_of one.now ≡ reading_of all.now
        → Stands S.entries one.now [] events → Stands T.entries two.now [] others
        → Stands U.entries all.now [] both
        → NoneWaits one.now → NoneWaits two.now → NoneWaits all.now
        → ReceivedBoth (reading_of one.now) both events others → IsArchive ENTRY_MAX merged
        → IsUnionOfEntries (S.entries (store_of one.now)) (T.entries (store_of two.now)) merged
        → merged ≡ U.entries (store_of all.now) }
{}
