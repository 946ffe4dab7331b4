//! The lines on what is refused.
ghost use Rattle.std.specs.Prelude.{◌≡◌, ◌++◌, ◌||◌, ℕ, List, IfErr, IsErrOf, OnOk, false};
ghost use Rattle.std.specs.Io.KnownBytes.{Appends};
ghost use Rattle.collect_engine.specs.Lines.{NotesAs, NotesFail, counted, has_some, lines_on};
ghost use Rattle.collect_engine.specs.Lines.{outcome_line, outcome_lines};

use crate::receiving::Received;
use crate::serve_end::Stopped;
use frame_engine::{Line, put_line};
use octet_devices::{Output, write_all};
use std::alloc::{AllocError, Global};
use syslog_collect::Outcome;

// Appends the line on an outcome, if it is a refusal.
fn put_outcome(outcome: Outcome, number: u64, lines: &mut Vec<u8>) -> Result<(), AllocError>
    ensures { OnOk result (lines.new.items ≡ lines.old.items ++ outcome_line number outcome) }
{
    match outcome {
        Outcome::New | Outcome::Held => Ok(()),
        Outcome::Refused(fault) => put_line(lines, Line::Refused { number, fault }),
        Outcome::RefusedLegacy { offset } => put_line(
            lines,
            Line::LegacyNotUtf8 { number, offset },
        ),
        Outcome::TooLong => put_line(lines, Line::TooLong { number }),
        Outcome::BadCount { at } => put_line(lines, Line::BadCount { number, at }),
    }
}

// Appends the lines on the refusals among outcomes. `number` is that of the first outcome, and
// afterwards that of the next.
fn put_outcomes(
    outcomes: &[Outcome],
    number: &mut u64,
    lines: &mut Vec<u8>,
) -> Result<(), AllocError>
    ensures lines { OnOk result
        (lines.new.items ≡ lines.old.items ++ outcome_lines number.old outcomes.now) }
    ensures number { OnOk result (number.new ≡ counted number.old outcomes.now) }
{
    for outcome in outcomes {
        put_outcome(*outcome, *number, lines)?;
        *number = number.saturating_add(1);
    }
    Ok(())
}

// Whether there is a line now, or was one before.
fn has_line(before: bool, lines: &Vec<u8>) -> bool
    ensures { result ≡ (before || has_some lines.now.items) }
{
    before || !lines.is_empty()
}

/// The outcomes of one event after another, and the lines on them.
#[derive(Drop)]
pub(crate) struct EventLines {
    /// The outcomes of the last event.
    pub(crate) outcomes: Vec<Outcome>,
    lines: Vec<u8>,
    /// The number of the next outcome.
    pub(crate) number: u64,
    /// Whether there was a line.
    pub(crate) refused: bool,
}

impl EventLines {
    pub(crate) fn new(alloc: Global) -> EventLines
        ensures number { result.number ≡ 1 }
        ensures refused { result.refused ≡ false }
    {
        EventLines {
            outcomes: Vec::new(alloc),
            lines: Vec::new(alloc),
            number: 1,
            refused: false,
        }
    }

    // Makes the lines on the last event.
    fn make(&mut self, received: Received) -> Result<(), AllocError>
        ensures lines { OnOk result (self.new.lines.items
            ≡ lines_on self.old.number self.old.outcomes.items received) }
        ensures number { OnOk result
            (self.new.number ≡ counted self.old.number self.old.outcomes.items) }
        ensures refused { self.new.refused ≡ self.old.refused }
    {
        self.lines.clear();
        put_outcomes(&self.outcomes, &mut self.number, &mut self.lines)?;
        match received {
            Received::Unterminated { start } => {
                put_line(&mut self.lines, Line::Unterminated { start })
            }
            Received::Accepted | Received::Refused | Received::Memory => Ok(()),
        }
    }

    /// Writes the lines on the last event.
    pub(crate) fn write<N: Output>(
        &mut self,
        received: Received,
        notes: &mut N,
    ) -> Result<(), Stopped>
        ensures noted { (told : List ℕ) × Appends (N.state notes.old).taken (N.state notes.new).taken told
            × NotesAs result (lines_on self.old.number self.old.outcomes.items received) told }
        ensures number { OnOk result
            (self.new.number ≡ counted self.old.number self.old.outcomes.items) }
        ensures refused { OnOk result (self.new.refused
            ≡ (self.old.refused || has_some (lines_on self.old.number self.old.outcomes.items received))) }
        ensures failures { NotesFail result (N.state notes.old).failures (N.state notes.new).failures }
        ensures going { ¬ (IsErrOf result Stopped.Endless) }
    {
        if self.make(received).is_err() {
            return Err(Stopped::Memory);
        }
        self.refused = has_line(self.refused, &self.lines);
        match write_all(notes, self.lines.as_slice()) {
            Ok(()) => Ok(()),
            Err(_) => Err(Stopped::Notes),
        }
    }
}
