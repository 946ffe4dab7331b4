//! Laws of turns and of what they give, as contracts of functions that do nothing.
ghost use Rattle.std.specs.Prelude.{◌≡◌, ℕ, ◌+◌, ◌*◌, ◌++◌, ◌<◌, ◌≤◌, List, [], length, slice_get};
ghost use Rattle.socket_source.specs.Runs.{Turn, Turns, ended, ends_of_datagrams, ends_of_others};
ghost use Rattle.socket_source.specs.Turns.{marks};
ghost use Rattle.socket_source.specs.Waiting.{KeepsOrder, Line, steps_had};
ghost use Rattle.syslog_frame.specs.Frames.{Frames};
ghost use Rattle.syslog_frame.specs.declared.framing.Framing.TheVariants.{Counted, Lf};

use crate::limits::{ACCEPTS_A_TURN, DATAGRAMS_A_TURN, STEPS_BETWEEN};

/// Sockets leave a queue in its order, each at the end of its turn.
pub fn turns_in_order()
    ensures datagrams { (turns : List Turn) (old new : Line) → Turns turns old new
        → KeepsOrder (ended (ends_of_datagrams turns)) old.datagrams.numbers new.datagrams.numbers }
    ensures others { (turns : List Turn) (old new : Line) → Turns turns old new
        → KeepsOrder (ended (ends_of_others turns)) old.others.numbers new.others.numbers }
{}

/// The turn of a socket comes as soon as as many turns have ended as others were before it.
pub fn turn_comes()
    ensures datagrams { (turns : List Turn) (old new : Line) → Turns turns old new
        → ended (ends_of_datagrams turns) < length old.datagrams.numbers
        → slice_get new.datagrams.numbers 0
        ≡ slice_get old.datagrams.numbers (ended (ends_of_datagrams turns)) }
    ensures others { (turns : List Turn) (old new : Line) → Turns turns old new
        → ended (ends_of_others turns) < length old.others.numbers
        → slice_get new.others.numbers 0 ≡ slice_get old.others.numbers (ended (ends_of_others turns)) }
{}

/// In as many steps of a queue as some whole turns have at most, that many turns end.
pub fn turns_end()
    ensures datagrams { (turns : List Turn) (old new : Line) (count : ℕ) → Turns turns old new
        → steps_had old.datagrams < DATAGRAMS_A_TURN
        → count * DATAGRAMS_A_TURN ≤ length (ends_of_datagrams turns)
        → count ≤ ended (ends_of_datagrams turns) }
    ensures others { (turns : List Turn) (old new : Line) (count : ℕ) → Turns turns old new
        → steps_had old.others < ACCEPTS_A_TURN
        → count * ACCEPTS_A_TURN ≤ length (ends_of_others turns)
        → count ≤ ended (ends_of_others turns) }
{}

/// While one queue has something, the other has only so many steps in a row.
pub fn queues_alternate()
    ensures datagrams { (turns : List Turn) (old new : Line) → Turns turns old new
        → 0 < length old.others.numbers → steps_had old.datagrams < DATAGRAMS_A_TURN
        → ends_of_others turns ≡ [] → length (ends_of_datagrams turns) ≤ DATAGRAMS_A_TURN }
    ensures others { (turns : List Turn) (old new : Line) → Turns turns old new
        → 0 < length old.datagrams.numbers
        → ends_of_datagrams turns ≡ [] → length (ends_of_others turns) ≤ STEPS_BETWEEN }
{}

/// Octets of a stream complete no more frames than they have ends of lines, or counts before frames and
/// one: the count of the first frame may have come before.
pub fn marks_bound_frames()
    ensures lines { (before octets : List ℕ) (old new : List (List ℕ)) (r q : List ℕ) → Frames Lf before old r
        → Frames Lf (before ++ octets) new q → length new ≤ length old + marks Lf octets (length octets) }
    ensures counted { (before octets : List ℕ) (old new : List (List ℕ)) (r q : List ℕ) → Frames Counted before old r
        → Frames Counted (before ++ octets) new q
        → length new ≤ length old + marks Counted octets (length octets) + 1 }
{}
