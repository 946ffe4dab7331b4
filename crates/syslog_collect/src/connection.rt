//! One connection, and what one frame of it does to a store.

ghost use Rattle.std.specs.Prelude.{◌≡◌, ◌≤◌, ◌<◌, ◌⊎◌, ℕ, List, [], length, IfOk, OnErr, OnOk};
ghost use Rattle.syslog_reading.specs.ViewParts.{IsViewOf, view_parts};
ghost use Rattle.syslog_legacy.specs.FrameReadings.{whole};
ghost use Rattle.syslog_legacy.specs.NewForm.{HasNewForm};
ghost use Rattle.syslog_legacy.specs.Readings.{Legacy, ReadAs};
ghost use Rattle.syslog_legacy.specs.Views.{legacy_view_parts};
ghost use Rattle.syslog_frame.specs.Reads.{Reads};
ghost use Rattle.syslog_frame.specs.Scan.{HasFrame, IsReading, Stands};
ghost use Rattle.syslog_collect.specs.Observers.{TellsReady};
ghost use Rattle.syslog_collect.specs.Outcomes.{HandlesReady, HasEntry, HasFittingEntry, HasRecord};
ghost use Rattle.syslog_collect.specs.Outcomes.{IsOutcome, IsRecordFrame, added_outcome};

use crate::observer::Observer;
use crate::outcome::Outcome;
use archive_text::{AddFault, Added, Store};
use std::alloc::{AllocError, Global};
use syslog_frame::{FRAME_MAX, Framing, GrowingScanner, Ready};
use syslog_grammar::{RecordView, view};
use syslog_legacy::{FrameReading, LegacyClock, LegacyView, has_new_form, legacy_view};

/// An open connection.
#[derive(Drop)]
pub struct Connection {
    /// Its number, which the caller chose.
    pub number: u32,
    /// The scanner of its stream.
    pub scanner: GrowingScanner,
}

/// A scanner before the first octet of a stream, with room for a whole record if that is to be
/// reserved.
pub fn new_scanner(
    alloc: Global,
    framing: Framing,
    reserves: bool,
) -> Result<GrowingScanner, AllocError>
    ensures stands { IfOk result (λ s. Stands FRAME_MAX s framing 0 [] × IsReading s) }
    ensures reads { IfOk result (λ s. Reads FRAME_MAX s framing 0 [] [] []) }
    ensures reserved { IfOk result (λ s. s.reserved ≡ reserves) }
{
    if !reserves {
        return Ok(GrowingScanner::new(alloc, framing));
    }
    match GrowingScanner::reserved(alloc, framing, 0) {
        Ok(scanner) => Ok(scanner),
        Err(_) => Err(AllocError),
    }
}

/// The record that a view shows has an entry: an instant that it has is some civil time.
fn has_entry(shown: &RecordView<'_>)
    ensures { (b : List ℕ) → IsViewOf b (view_parts shown.now) → HasEntry b }
{
    match shown.instant() {
        None => {}
        Some(instant) => {
            let _civil = instant.civil();
        }
    }
}

/// The record that a legacy view shows has an entry, which fits an archive.
fn has_legacy_entry(clock: &LegacyClock, shown: &LegacyView<'_>)
    ensures { (b : List ℕ) → Legacy clock.now (ReadAs (legacy_view_parts shown.now)) b
        → length b ≤ FRAME_MAX → HasFittingEntry (legacy_view_parts shown.now) }
{
    let _year = clock.year();
    let _offset = clock.offset_minutes();
    match shown.instant() {
        None => {}
        Some(instant) => {
            let _civil = instant.civil();
        }
    }
}

fn outcome_of(added: Added) -> Outcome
    ensures { result ≡ added_outcome added }
{
    match added {
        Added::New => Outcome::New,
        Added::Held => Outcome::Held,
    }
}

/// Adds the record of a legacy packet to a store.
fn handle_legacy<S: Store>(
    alloc: Global,
    clock: &LegacyClock,
    store: &mut S,
    packet: &[u8],
) -> Result<Outcome, AllocError>
    requires within { length packet.now ≤ FRAME_MAX }
    requires legacy { ¬ (HasNewForm packet.now) }
    ensures outcome { IfOk result (λ o.
        IsOutcome (whole (Some clock.now)) (S.entries store.old) (S.entries store.new) packet.now o) }
    ensures err { OnErr result (S.entries store.new ≡ S.entries store.old) }
    ensures spelled { OnErr result (IsRecordFrame (whole (Some clock.now)) packet.now) }
{
    let shown = match legacy_view(clock, packet) {
        Ok(shown) => shown,
        Err(fault) => {
            return Ok(Outcome::RefusedLegacy {
                offset: fault.offset,
            });
        }
    };
    let Ok(owned) = shown.to_record(alloc) else {
        return Err(AllocError);
    };
    match store.add(alloc, &owned) {
        Ok(added) => Ok(outcome_of(added)),
        Err(AddFault::Memory) => Err(AllocError),
        Err(AddFault::TooLong) => {
            has_legacy_entry(clock, &shown);
            unreachable!()
        }
    }
}

/// Adds the record of octets in the form of RFC 5424 to a store.
fn handle_new<S: Store>(alloc: Global, store: &mut S, octets: &[u8]) -> Result<Outcome, AllocError>
    requires { length octets.now ≤ FRAME_MAX }
    ensures outcome { IfOk result (λ o.
        IsOutcome (whole None) (S.entries store.old) (S.entries store.new) octets.now o) }
    ensures err { OnErr result (S.entries store.new ≡ S.entries store.old) }
    ensures spelled { OnErr result (IsRecordFrame (whole None) octets.now) }
{
    let shown = match view(octets) {
        Ok(shown) => shown,
        Err(fault) => return Ok(Outcome::Refused(fault)),
    };
    match store.add_view(alloc, &shown) {
        Ok(added) => Ok(outcome_of(added)),
        Err(AddFault::Memory) => Err(AllocError),
        Err(AddFault::TooLong) => {
            has_entry(&shown);
            unreachable!()
        }
    }
}

/// Adds the record of octets that are read whole to a store, if they are one. With a clock, octets
/// without the front of RFC 5424 are read as a legacy packet.
fn handle_octets<S: Store>(
    alloc: Global,
    clock: Option<LegacyClock>,
    store: &mut S,
    octets: &[u8],
) -> Result<Outcome, AllocError>
    requires { length octets.now ≤ FRAME_MAX }
    ensures outcome { IfOk result (λ o.
        IsOutcome (whole clock) (S.entries store.old) (S.entries store.new) octets.now o) }
    ensures err { OnErr result (S.entries store.new ≡ S.entries store.old) }
    ensures spelled { OnErr result (IsRecordFrame (whole clock) octets.now) }
{
    let Some(clock) = clock else {
        return handle_new(alloc, store, octets);
    };
    if has_new_form(octets) {
        return handle_new(alloc, store, octets);
    }
    handle_legacy(alloc, &clock, store, octets)
}

/// Adds the record of a frame to a store, if the frame is read as one. If an allocation fails,
/// nothing has changed.
pub fn handle<S: Store>(
    alloc: Global,
    reading: FrameReading,
    store: &mut S,
    frame: &[u8],
) -> Result<Outcome, AllocError>
    ensures outcome { IfOk result (λ o.
        IsOutcome reading (S.entries store.old) (S.entries store.new) frame.now o) }
    ensures err { OnErr result (S.entries store.new ≡ S.entries store.old) }
    // Memory is refused for records alone.
    ensures spelled { OnErr result (IsRecordFrame reading frame.now) }
{
    if frame.len() > FRAME_MAX {
        return Ok(Outcome::TooLong);
    }
    handle_octets(alloc, reading.clock, store, reading.octets(frame))
}

/// Handles what a scanner has ready, tells an observer of it, and leaves it ready. If an allocation
/// fails, nothing has changed.
pub fn handle_ready<S: Store, O: Observer>(
    alloc: Global,
    reading: FrameReading,
    scanner: &GrowingScanner,
    store: &mut S,
    observer: &mut O,
) -> Result<Option<Outcome>, AllocError>
    ensures handles { IfOk result (λ o.
        HandlesReady reading scanner.now (S.entries store.old) (S.entries store.new) o) }
    ensures tells { IfOk result (TellsReady O.observes scanner.now observer.old observer.new) }
    ensures err { OnErr result (S.entries store.new ≡ S.entries store.old) }
    ensures silent { OnErr result (observer.new ≡ observer.old) }
    ensures waits { OnErr result (HasFrame scanner.now) }
    ensures spelled { OnErr result (HasRecord reading scanner.now) }
{
    match scanner.ready() {
        None => Ok(None),
        Some(Ready::BadCount { at }) => {
            let outcome = Outcome::BadCount { at };
            observer.passed_over(alloc, outcome);
            Ok(Some(outcome))
        }
        Some(Ready::TooLong) => {
            observer.passed_over(alloc, Outcome::TooLong);
            Ok(Some(Outcome::TooLong))
        }
        Some(Ready::Frame(frame)) => match handle(alloc, reading, store, frame) {
            Ok(outcome) => {
                observer.frame(alloc, outcome, frame);
                Ok(Some(outcome))
            }
            Err(fault) => Err(fault),
        },
    }
}
