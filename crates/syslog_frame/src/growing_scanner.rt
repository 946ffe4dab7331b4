//! A scanner whose room grows with the frame.

ghost use Rattle.std.specs.Prelude.{◌≡◌, ◌≤◌, ◌<◌, ◌+◌, ◌++◌, ◌∷◌, ◌↔◌, ℕ, List, [], length, take};
ghost use Rattle.std.specs.Prelude.{IfOk, IfSome, IsNone, OnErr, OnOk, OnSome, IsTrue, false, true};
ghost use Rattle.std.specs.Prelude.{vec_capacity, vec_len};
ghost use Rattle.syslog_frame.specs.Frames.{Frame, Whole};
ghost use Rattle.syslog_frame.specs.FrameRefs.{IsFrameRef};
ghost use Rattle.syslog_frame.specs.Ready.{IsEnd, IsReady, ImpliedOf};
ghost use Rattle.syslog_frame.specs.Reads.{IsReadyBehind, Reads, ReadsOn, StopsBehind};
ghost use Rattle.syslog_frame.specs.Scan.{HasBadCount, HasFrame, HasReady};
ghost use Rattle.syslog_frame.specs.Scan.{IsFailed, IsReading, Stands};
ghost use Rattle.syslog_frame.specs.State.{phase_of};
ghost use Rattle.syslog_frame.specs.Takes.{Takes};
ghost use Rattle.syslog_frame.specs.declared.framing.Framing.{Framing};

use crate::fault::{EndFault, GrowFault, StartFault};
use crate::frame_ref::{FrameRef, borrowed_frame};
use crate::framing::Framing;
use crate::limits::{FRAME_MAX, POSITION_MAX, ROOM_KEPT};
use crate::phase::Phase;
use crate::ready::Ready;
use crate::record::take_piece;
use std::alloc::Global;
use std::marker::Model;

/// Finds the frames of a stream as a [`Scanner`](crate::Scanner) does, with room that grows with the
/// frame.
///
/// Where there is too little room for octets, it is doubled, up to `FRAME_MAX`. Once a frame is
/// released, room for more than `ROOM_KEPT` octets is given back. So many scanners can wait for
/// octets at little cost, but [`GrowingScanner::push`] may be refused memory.
#[derive(Drop)]
pub struct GrowingScanner {
    framing: Framing,
    position: u64,
    start: u64,
    phase: Phase,
    count: u64,
    size: u64,
    kept: Vec<u8>,
    // whether room for a whole record is reserved, and is never given back
    reserved: bool,
}

impl Model for GrowingScanner {
    ghost use Rattle.std.specs.Prelude.{◌≤◌};
    ghost use Rattle.syslog_frame.specs.Scan.{Scan};

    ghost Value = { Scan };

    ghost use Rattle.syslog_frame.specs.Fields.{scan_of, IsSound};

    ghost view = { scan_of };

    ghost invariant = { IsSound };
}

impl GrowingScanner {
    /// A scanner before the first octet of a stream, without room.
    pub fn new(alloc: Global, framing: Framing) -> GrowingScanner
        ensures stands { Stands FRAME_MAX result framing 0 [] × IsReading result }
        ensures reads { Reads FRAME_MAX result framing 0 [] [] [] }
        ensures grows { result.reserved ≡ false }
    {
        GrowingScanner::starting(framing, 0, Vec::new(alloc), false)
    }

    /// A scanner before the first octet of a stream that begins at a position, in octets, with room
    /// for one record of `FRAME_MAX` octets: none of its calls takes memory. It fails if that room
    /// cannot be allocated.
    pub fn reserved(
        alloc: Global,
        framing: Framing,
        position: u64,
    ) -> Result<GrowingScanner, StartFault>
        ensures stands { IfOk result (λ s. Stands FRAME_MAX s framing position [] × IsReading s) }
        ensures reads { IfOk result (λ s. Reads FRAME_MAX s framing position [] [] []) }
        ensures reserved { IfOk result (λ s. s.reserved ≡ true) }
        ensures too_large { (result ≡ Err StartFault.PositionTooLarge) ↔ (POSITION_MAX < position) }
    {
        if position > POSITION_MAX {
            return Err(StartFault::PositionTooLarge);
        }
        let Ok(kept) = Vec::with_capacity(alloc, FRAME_MAX) else {
            return Err(StartFault::Memory);
        };
        Ok(GrowingScanner::starting(framing, position, kept, true))
    }

    fn starting(framing: Framing, position: u64, kept: Vec<u8>, reserved: bool) -> GrowingScanner
        requires within { position ≤ POSITION_MAX }
        requires none { kept.items ≡ [] }
        requires len { vec_len kept ≡ 0 }
        requires room { reserved ≡ true → FRAME_MAX ≤ vec_capacity kept }
        requires few { reserved ≡ false → vec_capacity kept ≤ ROOM_KEPT }
        ensures stands { Stands FRAME_MAX result framing position [] × IsReading result }
        ensures reads { Reads FRAME_MAX result framing position [] [] [] }
        ensures reserved { result.reserved ≡ reserved }
    {
        GrowingScanner {
            framing,
            position,
            start: position,
            phase: first_phase(framing),
            count: 0,
            size: 0,
            kept,
            reserved,
        }
    }

    /// The position of the next octet: that of the first plus the number of octets taken since.
    pub fn position(&self) -> u64
        ensures value { result ≡ self.now.position }
        ensures bound { result ≤ POSITION_MAX }
    {
        self.position
    }

    /// Takes octets, at most up to the end of the current frame, and returns how many. While
    /// something is ready it takes none. A refusal, as the variants of [`GrowFault`] say, leaves
    /// the scanner as it was.
    pub fn push(&mut self, piece: &[u8]) -> Result<usize, GrowFault>
        // Each refusal, and what it leaves.
        ensures failed { (result ≡ Err GrowFault.Failed) ↔ IsFailed self.old }
        ensures too_long { (result ≡ Err GrowFault.StreamTooLong)
            ↔ (IsReading self.old × (POSITION_MAX < self.old.position + length piece.now)) }
        ensures memory { result ≡ Err GrowFault.Memory → IsReading self.old × (self.old.reserved ≡ false)
            × (self.old.position + length piece.now ≤ POSITION_MAX) }
        ensures same { OnErr result (self.new ≡ self.old) }
        ensures reserved { self.new.reserved ≡ self.old.reserved }

        // How much is taken.
        ensures waits { HasReady self.old → (result ≡ Ok 0) × (self.new ≡ self.old) }
        ensures within { IfOk result (λ used. used ≤ length piece.now) }
        ensures progress { IfOk result (λ used. IsReading self.old → 0 < length piece.now
            → ¬ (HasBadCount self.new) → 0 < used) }
        ensures takes { IfOk result (λ used. (kind : Framing) (position : ℕ) (p : List ℕ)
            → Stands FRAME_MAX self.old kind position p → ¬ (HasBadCount self.old)
            → Takes kind p piece.now used self.new) }

        // Where the scanner is then.
        ensures live { OnOk result (¬ (IsFailed self.new)) }
        ensures position { IfOk result (λ used. self.new.position ≡ self.old.position + used) }
        ensures bound { OnOk result (self.new.position ≤ POSITION_MAX) }
        ensures stands { IfOk result (λ used. (kind : Framing) (position : ℕ) (p : List ℕ)
            → Stands FRAME_MAX self.old kind position p
            → Stands FRAME_MAX self.new kind (position + used) (p ++ take used piece.now)) }
        ensures reads { IfOk result (λ used. (kind : Framing) (first : ℕ) (octets : List ℕ)
            (frames : List (List ℕ)) (rest : List ℕ)
            → Reads FRAME_MAX self.old kind first octets frames rest → ¬ (HasBadCount self.old)
            → ReadsOn FRAME_MAX self.new kind first octets frames rest piece.now used) }
    {
        match self.phase {
            Phase::Failed => Err(GrowFault::Failed),
            Phase::Ended | Phase::BadCount => Ok(0),
            Phase::Counting | Phase::Inside => {
                if piece.len() as u64 > POSITION_MAX - self.position {
                    return Err(GrowFault::StreamTooLong);
                }
                let Ok(taken) = take_piece(
                    self.framing,
                    self.phase,
                    &mut self.kept,
                    self.count,
                    self.size,
                    piece,
                ) else {
                    return Err(GrowFault::Memory);
                };
                self.phase = taken.phase;
                self.count = taken.count;
                self.size = taken.size;
                self.position += taken.used as u64;
                Ok(taken.used)
            }
        }
    }

    /// Lends the frame that the piece begins with, if the scanner is between two frames and all of
    /// this one lies in the piece: what `push`, `ready` and `release` do together, without a copy.
    /// Otherwise nothing is taken, and the piece is for `push`.
    #[inline]
    pub fn next_borrowed<'a>(&mut self, piece: &'a [u8]) -> Option<FrameRef<'a>>
        // What is borrowed, and where the scanner is then.
        ensures lends { IsReading self.old → (kind : Framing) (position : ℕ)
            → Stands FRAME_MAX self.old kind position [] → position + length piece.now ≤ POSITION_MAX
            → IsFrameRef FRAME_MAX kind piece.now result }
        ensures reading { OnSome result (IsReading self.old × IsReading self.new) }
        ensures progress { IfSome result (λ borrowed. 0 < borrowed.used × (borrowed.used ≤ length piece.now)) }
        ensures position { IfSome result (λ borrowed. self.new.position ≡ self.old.position + borrowed.used) }
        ensures bound { OnSome result (self.new.position ≤ POSITION_MAX) }
        ensures stands { IfSome result (λ borrowed. (kind : Framing) (position : ℕ) (p : List ℕ)
            → Stands FRAME_MAX self.old kind position p
            → (p ≡ []) × Stands FRAME_MAX self.new kind (position + borrowed.used) []) }
        ensures reads { IfSome result (λ borrowed. (kind : Framing) (first : ℕ) (octets : List ℕ)
            (frames : List (List ℕ)) (rest : List ℕ)
            → Reads FRAME_MAX self.old kind first octets frames rest
            → Frame kind borrowed.frame.now (take borrowed.used piece.now)
            × Reads FRAME_MAX self.new kind first (octets ++ take borrowed.used piece.now)
            (frames ++ borrowed.frame.now ∷ []) []) }

        // What else is left.
        ensures same { IsNone result → self.new ≡ self.old }
        ensures reserved { self.new.reserved ≡ self.old.reserved }
    {
        match self.phase {
            Phase::Failed | Phase::Ended | Phase::BadCount => None,
            Phase::Counting | Phase::Inside => {
                if self.start != self.position {
                    return None;
                }
                if POSITION_MAX - self.position < piece.len() as u64 {
                    return None;
                }
                let Some(borrowed) = borrowed_frame(self.framing, piece) else {
                    return None;
                };
                let behind = self.position + borrowed.used as u64;
                self.position = behind;
                self.start = behind;
                Some(borrowed)
            }
        }
    }

    /// What is ready: a frame whose last octet was taken, or a bad count.
    pub fn ready(&self) -> Option<Ready<'_>>
        ensures reports { ImpliedOf self.now result }
        ensures stands { (kind : Framing) (position : ℕ) (p : List ℕ)
            → Stands FRAME_MAX self.now kind position p
            → IsReady FRAME_MAX self.now kind position p result }
        ensures reads { (kind : Framing) (first : ℕ) (octets : List ℕ)
            (frames : List (List ℕ)) (rest : List ℕ)
            → Reads FRAME_MAX self.now kind first octets frames rest
            → IsReadyBehind FRAME_MAX kind first octets frames rest result }
    {
        match self.phase {
            Phase::Ended => {
                if self.size <= FRAME_MAX as u64 {
                    Some(Ready::Frame(&self.kept))
                } else {
                    Some(Ready::TooLong)
                }
            }
            Phase::BadCount => Some(Ready::BadCount { at: self.position }),
            _ => None,
        }
    }

    /// Drops what is ready, and returns whether something was. After a frame the next one begins,
    /// and room for more than `ROOM_KEPT` octets is given back, unless it was reserved; after a bad
    /// count the scanner has failed for good.
    pub fn release(&mut self) -> bool
        ensures value { IsTrue result ↔ HasReady self.old }
        ensures same { result ≡ false → self.new ≡ self.old }
        ensures position { self.new.position ≡ self.old.position }
        ensures frame { HasFrame self.old → IsReading self.new }
        ensures failed { HasBadCount self.old → IsFailed self.new }
        ensures reserved { self.new.reserved ≡ self.old.reserved }
        ensures stands { (kind : Framing) (position : ℕ) (p : List ℕ)
            → Stands FRAME_MAX self.old kind position p → Whole kind p
            → Stands FRAME_MAX self.new kind position [] }
        ensures reads { (kind : Framing) (first : ℕ) (octets : List ℕ)
            (frames : List (List ℕ)) (rest f : List ℕ)
            → Reads FRAME_MAX self.old kind first octets frames rest → Frame kind f rest
            → Reads FRAME_MAX self.new kind first octets (frames ++ f ∷ []) [] }
    {
        match self.phase {
            Phase::Ended => {
                self.kept.clear();
                give_back(&mut self.kept, self.reserved);
                self.phase = first_phase(self.framing);
                self.count = 0;
                self.size = 0;
                self.start = self.position;
                true
            }
            Phase::BadCount => {
                self.phase = Phase::Failed;
                true
            }
            _ => false,
        }
    }

    /// Whether the stream may stop here. The refusals come in the order of the variants of
    /// [`EndFault`].
    pub fn end(&self) -> Result<(), EndFault>
        ensures failed { (result ≡ Err EndFault.Failed) ↔ IsFailed self.now }
        ensures unreleased { (result ≡ Err EndFault.Unreleased) ↔ HasReady self.now }
        ensures stands { (kind : Framing) (position : ℕ) (p : List ℕ)
            → Stands FRAME_MAX self.now kind position p → IsEnd self.now kind position p result }
        ensures reads { (kind : Framing) (first : ℕ) (octets : List ℕ)
            (frames : List (List ℕ)) (rest : List ℕ)
            → Reads FRAME_MAX self.now kind first octets frames rest
            → StopsBehind self.now kind first octets frames rest result }
    {
        match self.phase {
            Phase::Failed => Err(EndFault::Failed),
            Phase::Ended | Phase::BadCount => Err(EndFault::Unreleased),
            Phase::Counting | Phase::Inside => {
                if self.start == self.position {
                    Ok(())
                } else {
                    Err(EndFault::Unterminated { start: self.start })
                }
            }
        }
    }
}

fn first_phase(framing: Framing) -> Phase
    ensures { result ≡ phase_of framing }
{
    match framing {
        Framing::Counted => Phase::Counting,
        Framing::Lf => Phase::Inside,
    }
}

// Gives back the room of a frame that has ended, if it is large and was not reserved.
fn give_back(kept: &mut Vec<u8>, reserved: bool)
    requires { vec_len kept.old ≡ 0 }
    ensures items { kept.new.items ≡ kept.old.items }
    ensures len { vec_len kept.new ≡ 0 }
    ensures same { reserved ≡ true → vec_capacity kept.new ≡ vec_capacity kept.old }
    ensures few { reserved ≡ false → vec_capacity kept.new ≤ ROOM_KEPT }
{
    if !reserved && kept.capacity() > ROOM_KEPT {
        kept.shrink_to_fit();
    }
}
