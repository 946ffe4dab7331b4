//! The scanner.

ghost use Rattle.std.specs.Prelude.{◌≡◌, ◌≤◌, ◌<◌, ◌+◌, ◌++◌, ◌∷◌, ◌↔◌, ℕ, List, [], length, take};
ghost use Rattle.std.specs.Prelude.{IfOk, IfSome, IsNone, OnErr, OnOk, OnSome, IsTrue, false};
ghost use Rattle.syslog_frame.specs.Frames.{Frame, Whole};
ghost use Rattle.syslog_frame.specs.FrameRefs.{IsFrameRef};
ghost use Rattle.syslog_frame.specs.Ready.{IsEnd, IsReady, ImpliedOf};
ghost use Rattle.syslog_frame.specs.Reads.{IsReadyBehind, Reads, ReadsOn, StopsBehind};
ghost use Rattle.syslog_frame.specs.Scan.{HasBadCount, HasFrame, HasReady};
ghost use Rattle.syslog_frame.specs.Scan.{IsFailed, IsReading, Stands};
ghost use Rattle.syslog_frame.specs.Takes.{Takes};
ghost use Rattle.syslog_frame.specs.declared.framing.Framing.{Framing};

use crate::fault::{EndFault, GrowFault, ScanFault, StartFault};
use crate::frame_ref::FrameRef;
use crate::framing::Framing;
use crate::growing_scanner::GrowingScanner;
use crate::limits::{FRAME_MAX, POSITION_MAX};
use crate::ready::Ready;
use std::alloc::{AllocError, Global};
use std::marker::Model;

/// Finds the frames of a stream whose octets come in pieces, cut anywhere.
///
/// Room for one record of `FRAME_MAX` octets is reserved when the scanner is made; no later call
/// takes memory.
#[derive(Drop)]
pub struct Scanner {
    scanner: GrowingScanner,
}

impl Model for Scanner {
    ghost use Rattle.syslog_frame.specs.Scan.{Scan};
    ghost use Rattle.std.specs.Prelude.{◌≡◌, true};

    ghost Value = { Scan };

    ghost view = { λ s. s.scanner };

    ghost invariant = { λ s. s.scanner.reserved ≡ true };
}

impl Scanner {
    /// A scanner before the first octet of a stream. It fails if the room for a record cannot be
    /// allocated.
    pub fn new(alloc: Global, framing: Framing) -> Result<Scanner, AllocError>
        ensures stands { IfOk result (λ s. Stands FRAME_MAX s framing 0 [] × IsReading s) }
        ensures reads { IfOk result (λ s. Reads FRAME_MAX s framing 0 [] [] []) }
    {
        match GrowingScanner::reserved(alloc, framing, 0) {
            Ok(scanner) => Ok(Scanner { scanner }),
            Err(StartFault::Memory) => Err(AllocError),
            Err(StartFault::PositionTooLarge) => unreachable!(),
        }
    }

    /// A scanner before the first octet of a stream that begins at a position, in octets. The
    /// refusals come in the order of the variants of [`StartFault`].
    pub fn new_at(alloc: Global, framing: Framing, position: u64) -> Result<Scanner, StartFault>
        ensures stands { IfOk result (λ s. Stands FRAME_MAX s framing position [] × IsReading s) }
        ensures reads { IfOk result (λ s. Reads FRAME_MAX s framing position [] [] []) }
        ensures too_large { (result ≡ Err StartFault.PositionTooLarge) ↔ (POSITION_MAX < position) }
    {
        let scanner = GrowingScanner::reserved(alloc, framing, position)?;
        Ok(Scanner { scanner })
    }

    /// The position of the next octet: that of the first plus the number of octets taken since.
    pub fn position(&self) -> u64
        ensures value { result ≡ self.now.position }
        ensures bound { result ≤ POSITION_MAX }
    {
        self.scanner.position()
    }

    /// Takes octets, at most up to the end of the current frame, and returns how many. While
    /// something is ready it takes none. A refusal, as the variants of [`ScanFault`] say, leaves
    /// the scanner as it was.
    pub fn push(&mut self, piece: &[u8]) -> Result<usize, ScanFault>
        // Each refusal, and what it leaves.
        ensures failed { (result ≡ Err ScanFault.Failed) ↔ IsFailed self.old }
        ensures too_long { (result ≡ Err ScanFault.StreamTooLong)
            ↔ (IsReading self.old × (POSITION_MAX < self.old.position + length piece.now)) }
        ensures same { OnErr result (self.new ≡ self.old) }

        // How much is taken.
        ensures waits { HasReady self.old → (result ≡ Ok 0) × (self.new ≡ self.old) }
        ensures within { IfOk result (λ used. used ≤ length piece.now) }
        ensures progress { IfOk result (λ used. IsReading self.old → 0 < length piece.now
            → ¬ (HasBadCount self.new) → 0 < used) }
        ensures takes { IfOk result (λ used. (kind : Framing) (position : ℕ) (p : List ℕ)
            → Stands FRAME_MAX self.old kind position p → ¬ (HasBadCount self.old)
            → Takes kind p piece.now used self.new) }

        // Where the scanner is then.
        ensures live { OnOk result (¬ (IsFailed self.new)) }
        ensures position { IfOk result (λ used. self.new.position ≡ self.old.position + used) }
        ensures bound { OnOk result (self.new.position ≤ POSITION_MAX) }
        ensures stands { IfOk result (λ used. (kind : Framing) (position : ℕ) (p : List ℕ)
            → Stands FRAME_MAX self.old kind position p
            → Stands FRAME_MAX self.new kind (position + used) (p ++ take used piece.now)) }
        ensures reads { IfOk result (λ used. (kind : Framing) (first : ℕ) (octets : List ℕ)
            (frames : List (List ℕ)) (rest : List ℕ)
            → Reads FRAME_MAX self.old kind first octets frames rest → ¬ (HasBadCount self.old)
            → ReadsOn FRAME_MAX self.new kind first octets frames rest piece.now used) }
    {
        match self.scanner.push(piece) {
            Ok(used) => Ok(used),
            Err(GrowFault::Failed) => Err(ScanFault::Failed),
            Err(GrowFault::StreamTooLong) => Err(ScanFault::StreamTooLong),
            Err(GrowFault::Memory) => unreachable!(),
        }
    }

    /// Lends the frame that the piece begins with, if the scanner is between two frames and all of
    /// this one lies in the piece: what `push`, `ready` and `release` do together, without a copy.
    /// Otherwise nothing is taken, and the piece is for `push`.
    #[inline]
    pub fn next_borrowed<'a>(&mut self, piece: &'a [u8]) -> Option<FrameRef<'a>>
        // What is borrowed, and where the scanner is then.
        ensures lends { IsReading self.old → (kind : Framing) (position : ℕ)
            → Stands FRAME_MAX self.old kind position [] → position + length piece.now ≤ POSITION_MAX
            → IsFrameRef FRAME_MAX kind piece.now result }
        ensures reading { OnSome result (IsReading self.old × IsReading self.new) }
        ensures progress { IfSome result (λ borrowed. 0 < borrowed.used × (borrowed.used ≤ length piece.now)) }
        ensures position { IfSome result (λ borrowed. self.new.position ≡ self.old.position + borrowed.used) }
        ensures bound { OnSome result (self.new.position ≤ POSITION_MAX) }
        ensures stands { IfSome result (λ borrowed. (kind : Framing) (position : ℕ) (p : List ℕ)
            → Stands FRAME_MAX self.old kind position p
            → (p ≡ []) × Stands FRAME_MAX self.new kind (position + borrowed.used) []) }
        ensures reads { IfSome result (λ borrowed. (kind : Framing) (first : ℕ) (octets : List ℕ)
            (frames : List (List ℕ)) (rest : List ℕ)
            → Reads FRAME_MAX self.old kind first octets frames rest
            → Frame kind borrowed.frame.now (take borrowed.used piece.now)
            × Reads FRAME_MAX self.new kind first (octets ++ take borrowed.used piece.now)
            (frames ++ borrowed.frame.now ∷ []) []) }

        // What else is left.
        ensures same { IsNone result → self.new ≡ self.old }
    {
        self.scanner.next_borrowed(piece)
    }

    /// What is ready: a frame whose last octet was taken, or a bad count.
    pub fn ready(&self) -> Option<Ready<'_>>
        ensures reports { ImpliedOf self.now result }
        ensures stands { (kind : Framing) (position : ℕ) (p : List ℕ)
            → Stands FRAME_MAX self.now kind position p
            → IsReady FRAME_MAX self.now kind position p result }
        ensures reads { (kind : Framing) (first : ℕ) (octets : List ℕ)
            (frames : List (List ℕ)) (rest : List ℕ)
            → Reads FRAME_MAX self.now kind first octets frames rest
            → IsReadyBehind FRAME_MAX kind first octets frames rest result }
    {
        self.scanner.ready()
    }

    /// Drops what is ready, and returns whether something was. After a frame the next one begins;
    /// after a bad count the scanner has failed for good.
    pub fn release(&mut self) -> bool
        ensures value { IsTrue result ↔ HasReady self.old }
        ensures same { result ≡ false → self.new ≡ self.old }
        ensures position { self.new.position ≡ self.old.position }
        ensures frame { HasFrame self.old → IsReading self.new }
        ensures failed { HasBadCount self.old → IsFailed self.new }
        ensures stands { (kind : Framing) (position : ℕ) (p : List ℕ)
            → Stands FRAME_MAX self.old kind position p → Whole kind p
            → Stands FRAME_MAX self.new kind position [] }
        ensures reads { (kind : Framing) (first : ℕ) (octets : List ℕ)
            (frames : List (List ℕ)) (rest f : List ℕ)
            → Reads FRAME_MAX self.old kind first octets frames rest → Frame kind f rest
            → Reads FRAME_MAX self.new kind first octets (frames ++ f ∷ []) [] }
    {
        self.scanner.release()
    }

    /// Whether the stream may stop here. The refusals come in the order of the variants of
    /// [`EndFault`].
    pub fn end(&self) -> Result<(), EndFault>
        ensures failed { (result ≡ Err EndFault.Failed) ↔ IsFailed self.now }
        ensures unreleased { (result ≡ Err EndFault.Unreleased) ↔ HasReady self.now }
        ensures stands { (kind : Framing) (position : ℕ) (p : List ℕ)
            → Stands FRAME_MAX self.now kind position p → IsEnd self.now kind position p result }
        ensures reads { (kind : Framing) (first : ℕ) (octets : List ℕ)
            (frames : List (List ℕ)) (rest : List ℕ)
            → Reads FRAME_MAX self.now kind first octets frames rest
            → StopsBehind self.now kind first octets frames rest result }
    {
        self.scanner.end()
    }
}
