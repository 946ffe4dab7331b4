//! Laws of notes, as contracts of functions that do nothing.
ghost use Rattle.std.specs.Prelude.{◌+◌, ◌*◌, ◌≤◌, List, sum_by};
ghost use Rattle.serve_engine.specs.Notes.{OwesLittle, TellTurns, Telling, TellsFew, TellsTurn, Told};

use crate::limits::TURN_LINES;
use crate::pace::{ALL_COST, ALL_MOST};

/// A turn has few notes; and over any number of turns the lines on peers are no more than those of a
/// burst and those that the time pays for, which passed at ticks.
pub fn notes_are_few()
    ensures few { (old new : Told) → TellsTurn old new → TellsFew TURN_LINES old.output new.output }
    ensures owes { (old new : Told) → OwesLittle old.pace → TellsTurn old new → OwesLittle new.pace }
    ensures paced { (turns : List Telling) (old new : Told) → OwesLittle old.pace → TellTurns turns old new
        → sum_by (λ t. t.lines) turns * ALL_COST ≤ ALL_MOST + sum_by (λ t. t.millis) turns }
{}
