//! A session that is given its octets by calls.

ghost use Rattle.std.specs.Prelude.{◌≡◌, ◌++◌, ℕ, List, MatchResult, OnOk, false};
ghost use Rattle.driver.specs.Effects.{done_of, nothing};
ghost use Rattle.driver.specs.Sessions.{most_octets};
ghost use Rattle.session_output.specs.Runs.{Ends, GoesOn, HoldsAnswer, HoldsFirst, IsStopped, Leaves, Outputs, Runs};
ghost use Rattle.session_output.specs.Runs.{is_stopped, outputs};

use crate::flushing::{flush, flush_due};
use crate::progress::Progress;
use driver::{Effects, Flow, INPUT_MAX, Session, Stopped};
use octet_devices::Output;
use std::alloc::Global;

/// A session that is given its octets by calls, and what it writes to.
#[derive(Drop)]
pub struct SessionRun<'a, S, W, N> {
    /// The session.
    pub session: S,
    /// What comes of it goes there.
    pub output: &'a mut W,
    /// And the lines on what went wrong.
    pub diagnostics: &'a mut N,
    /// What is held back of both.
    pub effects: Effects,
    /// How many more octets the session takes.
    pub room: u64,
    /// How far it has come.
    pub progress: Progress,
}

impl<'a, S: Session + Drop, W: Output, N: Output> SessionRun<'a, S, W, N> {
    /// A session that was given nothing.
    pub fn new(
        alloc: Global,
        session: S,
        output: &'a mut W,
        diagnostics: &'a mut N,
    ) -> SessionRun<'a, S, W, N>
        ensures session { result.session ≡ session }
        ensures output { result.output.ghost_name ≡ output.entry.ghost_name }
        ensures output_is { result.output.now ≡ output.old }
        ensures diagnostics { result.diagnostics.ghost_name ≡ diagnostics.entry.ghost_name }
        ensures diagnostics_is { result.diagnostics.now ≡ diagnostics.old }
        ensures effects { done_of result.effects ≡ nothing }
        ensures room { result.room ≡ most_octets }
        ensures progress { result.progress ≡ Progress.Open }
    {
        SessionRun {
            session,
            output,
            diagnostics,
            effects: Effects::new(alloc),
            room: INPUT_MAX,
            progress: Progress::Open,
        }
    }

    // Gives octets to a session that goes on, once what is held back has been written if it is much.
    fn give_open(&mut self, piece: &[u8]) -> Result<(), Stopped>
        ensures sound { OnOk result (is_stopped self.new.progress ≡ false) }
        ensures output { self.new.output.ghost_name ≡ self.old.output.ghost_name }
        ensures diagnostics { self.new.diagnostics.ghost_name ≡ self.old.diagnostics.ghost_name }
        ensures gives { (first : S) (start : Outputs) (given : List ℕ)
            → GoesOn (S.means first) (S.stands first self.old.session) start
            (outputs (W.state self.old.output.now) (N.state self.old.diagnostics.now))
            (done_of self.old.effects) self.old.room given
            → MatchResult result
            (λ _. Runs self.new.progress (S.means first) (S.stands first self.new.session)
            (S.rest self.new.session) start
            (outputs (W.state self.new.output.now) (N.state self.new.diagnostics.now))
            (done_of self.new.effects) self.new.room (given ++ piece.now))
            (λ stop. IsStopped (S.means first) stop start
            (outputs (W.state self.new.output.now) (N.state self.new.diagnostics.now)) given) }
    {
        flush_due(&mut self.effects, self.output, self.diagnostics)?;
        if piece.len() as u64 > self.room {
            return Err(Stopped::Endless);
        }
        let flow = self.session.take(piece, &mut self.effects)?;
        self.room -= piece.len() as u64;
        self.progress = match flow {
            Flow::Finished => Progress::Answered,
            Flow::Continue => Progress::Open,
        };
        Ok(())
    }

    /// Gives octets to the session. They are not taken at `Err`, and the session must not be used any more.
    pub fn give(&mut self, piece: &[u8]) -> Result<(), Stopped>
        ensures sound { OnOk result (is_stopped self.new.progress ≡ false) }
        ensures was_sound { OnOk result (is_stopped self.old.progress ≡ false) }
        ensures output { self.new.output.ghost_name ≡ self.old.output.ghost_name }
        ensures diagnostics { self.new.diagnostics.ghost_name ≡ self.old.diagnostics.ghost_name }
        ensures gives { (first : S) (start : Outputs) (given : List ℕ)
            → Runs self.old.progress (S.means first) (S.stands first self.old.session)
            (S.rest self.old.session) start
            (outputs (W.state self.old.output.now) (N.state self.old.diagnostics.now))
            (done_of self.old.effects) self.old.room given
            → MatchResult result
            (λ _. Runs self.new.progress (S.means first) (S.stands first self.new.session)
            (S.rest self.new.session) start
            (outputs (W.state self.new.output.now) (N.state self.new.diagnostics.now))
            (done_of self.new.effects) self.new.room (given ++ piece.now))
            (λ stop. IsStopped (S.means first) stop start
            (outputs (W.state self.new.output.now) (N.state self.new.diagnostics.now)) given) }
    {
        match self.progress {
            Progress::Open => self.give_open(piece),
            Progress::Answered => Ok(()),
            Progress::Stopped(stopped) => Err(stopped),
        }
    }

    // Writes what is held back of a complete answer, and the rest of it.
    fn write_answer(&mut self) -> Result<bool, Stopped>
        ensures output { self.new.output.ghost_name ≡ self.old.output.ghost_name }
        ensures diagnostics { self.new.diagnostics.ghost_name ≡ self.old.diagnostics.ghost_name }
        ensures ends { (first : S) (start : Outputs) (text : List ℕ)
            → HoldsAnswer (S.means first) start
            (outputs (W.state self.old.output.now) (N.state self.old.diagnostics.now))
            (done_of self.old.effects) (S.rest self.old.session) text
            → Ends (S.means first) start
            (outputs (W.state self.new.output.now) (N.state self.new.diagnostics.now)) text
            result }
    {
        flush(&mut self.effects, self.output, self.diagnostics)?;
        match self.session.write_rest(self.output) {
            Ok(()) => Ok(self.effects.refused),
            Err(_) => Err(Stopped::Write),
        }
    }

    // Ends a session that goes on.
    fn end_open(&mut self) -> Result<bool, Stopped>
        ensures output { self.new.output.ghost_name ≡ self.old.output.ghost_name }
        ensures diagnostics { self.new.diagnostics.ghost_name ≡ self.old.diagnostics.ghost_name }
        ensures ends { (first : S) (start : Outputs) (text : List ℕ)
            → GoesOn (S.means first) (S.stands first self.old.session) start
            (outputs (W.state self.old.output.now) (N.state self.old.diagnostics.now))
            (done_of self.old.effects) self.old.room text
            → Ends (S.means first) start
            (outputs (W.state self.new.output.now) (N.state self.new.diagnostics.now)) text
            result }
    {
        match self.session.end(&mut self.effects) {
            Ok(()) => self.write_answer(),
            Err(_) => {
                flush(&mut self.effects, self.output, self.diagnostics)?;
                Err(Stopped::Memory)
            }
        }
    }

    /// Ends the session, and writes all that is left to write. Answers whether something was refused.
    pub fn finish(&mut self) -> Result<bool, Stopped>
        ensures output { self.new.output.ghost_name ≡ self.old.output.ghost_name }
        ensures diagnostics { self.new.diagnostics.ghost_name ≡ self.old.diagnostics.ghost_name }
        ensures ends { (first : S) (start : Outputs) (text : List ℕ)
            → Runs self.old.progress (S.means first) (S.stands first self.old.session)
            (S.rest self.old.session) start
            (outputs (W.state self.old.output.now) (N.state self.old.diagnostics.now))
            (done_of self.old.effects) self.old.room text
            → Ends (S.means first) start
            (outputs (W.state self.new.output.now) (N.state self.new.diagnostics.now)) text
            result }
    {
        match self.progress {
            Progress::Open => self.end_open(),
            Progress::Answered => self.write_answer(),
            Progress::Stopped(stopped) => Err(stopped),
        }
    }

    // Writes what is held back. Answers whether something was refused so far.
    fn write_held(&mut self) -> Result<bool, Stopped>
        ensures output { self.new.output.ghost_name ≡ self.old.output.ghost_name }
        ensures diagnostics { self.new.diagnostics.ghost_name ≡ self.old.diagnostics.ghost_name }
        ensures leaves { (first : S) (start : Outputs) (given : List ℕ)
            → HoldsFirst (S.means first) start
            (outputs (W.state self.old.output.now) (N.state self.old.diagnostics.now))
            (done_of self.old.effects) given
            → Leaves (S.means first) start
            (outputs (W.state self.new.output.now) (N.state self.new.diagnostics.now)) given
            result }
    {
        flush(&mut self.effects, self.output, self.diagnostics)?;
        Ok(self.effects.refused)
    }

    /// Writes what is held back, and leaves it at that. Answers whether something was refused so far.
    pub fn leave(&mut self) -> Result<bool, Stopped>
        ensures output { self.new.output.ghost_name ≡ self.old.output.ghost_name }
        ensures diagnostics { self.new.diagnostics.ghost_name ≡ self.old.diagnostics.ghost_name }
        ensures leaves { (first : S) (start : Outputs) (given : List ℕ)
            → Runs self.old.progress (S.means first) (S.stands first self.old.session)
            (S.rest self.old.session) start
            (outputs (W.state self.old.output.now) (N.state self.old.diagnostics.now))
            (done_of self.old.effects) self.old.room given
            → Leaves (S.means first) start
            (outputs (W.state self.new.output.now) (N.state self.new.diagnostics.now)) given
            result }
    {
        match self.progress {
            Progress::Open => self.write_held(),
            Progress::Answered => self.write_held(),
            Progress::Stopped(stopped) => Err(stopped),
        }
    }
}
