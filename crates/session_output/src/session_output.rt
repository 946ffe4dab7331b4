//! A session as an output.

ghost use Rattle.std.specs.Prelude.{◌≡◌, ◌<◌, [], IfSome, Some, false, true};
ghost use Rattle.driver.specs.Effects.{done_of};
ghost use Rattle.driver.specs.Sessions.{HasBegun};
ghost use Rattle.session_output.specs.Runs.{Runs, is_stopped, outputs};

use crate::beginning::Beginning;
use crate::given::Given;
use crate::progress::Progress;
use crate::session_run::SessionRun;
use driver::Session;
use octet_devices::{DeviceFault, Output};
use std::alloc::Global;
use std::marker::PhantomData;

/// An output whose octets are given to a session, piece by piece. What comes of them is held back until there is
/// much of it, and then written to another output and to diagnostics.
///
/// A write takes the whole piece, or fails and takes nothing of it. It fails once and for all where the other
/// output or the diagnostics failed, memory ran out, or the session was given more than `INPUT_MAX` octets.
#[derive(Drop)]
pub struct SessionOutput<'a, K: Beginning<S>, S: Session, W: Output, N: Output> {
    beginning: PhantomData<K>,
    run: SessionRun<'a, S, W, N>,
    given: Given,
    calls: u64,
    failures: u64,
    ghost runs: { ∥ IfSome K.first (λ first. HasBegun (S.stands first first) (S.means first)
        → Runs run.progress (S.means first) (S.stands first run.session) (S.rest run.session)
        K.start (outputs (W.state run.output.now) (N.state run.diagnostics.now))
        (done_of run.effects) run.room given.octets) ∥₁ },
    ghost output: { run.output.ghost_name ≡ K.output },
    ghost diagnostics: { run.diagnostics.ghost_name ≡ K.diagnostics },
    ghost sound: { failures ≡ 0 → is_stopped run.progress ≡ false },
    ghost stopped: { 0 < failures → is_stopped run.progress ≡ true },
}

impl<'a, K: Beginning<S>, S: Session + Drop, W: Output, N: Output> SessionOutput<'a, K, S, W, N> {
    /// A session that was given nothing, over an output and diagnostics.
    pub fn new(
        alloc: Global,
        session: S,
        output: &'a mut W,
        diagnostics: &'a mut N,
    ) -> SessionOutput<'a, K, S, W, N>
        // what proofs take for its beginning is that
        requires first { K.first ≡ Some session }
        requires start { K.start ≡ outputs (W.state output.old) (N.state diagnostics.old) }
        requires output { K.output ≡ output.ghost_name }
        requires diagnostics { K.diagnostics ≡ diagnostics.ghost_name }
        ensures { ⟦<SessionOutput<'a, K, S, W, N> as Output>⟧.state result
            ≡ record { calls = 0; failures = 0; taken = Some [] } }
    {
        SessionOutput {
            beginning: PhantomData,
            run: SessionRun::new(alloc, session, output, diagnostics),
            given: Given::new(),
            calls: 0,
            failures: 0,
        }
    }

    /// The session, to be ended or left.
    pub fn into_run(self) -> SessionRun<'a, S, W, N>
        ensures runs { ∥ IfSome K.first (λ first. HasBegun (S.stands first first) (S.means first)
            → Runs result.progress (S.means first) (S.stands first result.session)
            (S.rest result.session) K.start
            (outputs (W.state result.output.now) (N.state result.diagnostics.now))
            (done_of result.effects) result.room self.entry.given.octets) ∥₁ }
        ensures output { result.output.ghost_name ≡ K.output }
        ensures diagnostics { result.diagnostics.ghost_name ≡ K.diagnostics }
        ensures sound { self.entry.failures ≡ 0 → is_stopped result.progress ≡ false }
        ensures stopped { 0 < self.entry.failures → is_stopped result.progress ≡ true }
    {
        self.run
    }
}

impl<'a, K: Beginning<S>, S: Session + Drop, W: Output, N: Output> Output
    for SessionOutput<'a, K, S, W, N> {
    ghost state = { λ d. record {
      calls = d.calls;
      failures = d.failures;
      taken = Some d.given.octets;
    } };

    fn write(&mut self, buf: &[u8]) -> Result<usize, DeviceFault> {
        self.calls = self.calls.saturating_add(1);
        match self.run.give(buf) {
            Ok(()) => {
                self.given.note(buf);
                Ok(buf.len())
            }
            Err(stopped) => {
                self.run.progress = Progress::Stopped(stopped);
                self.failures = self.failures.saturating_add(1);
                Err(DeviceFault)
            }
        }
    }
}
