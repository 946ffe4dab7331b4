//! The loop of a server.
ghost use Rattle.std.specs.Prelude.{◌≡◌, Bool, IfNone, List, false, length, true};
ghost use Rattle.archive_text.specs.Entries.{Entry};
ghost use Rattle.syslog_collect.specs.Collectors.{NoneWaits};
ghost use Rattle.syslog_collect.specs.History.{AcceptedEvent};
ghost use Rattle.serve_engine.specs.declared.turn.Turn.TheVariants.{On};
ghost use Rattle.socket_source.specs.Steps.{IsWithin, octets_of};
ghost use Rattle.serve_engine.specs.Events.{event_of, manner_of};
ghost use Rattle.serve_engine.specs.Intakes.{StandsBy, waiting_in};
ghost use Rattle.serve_engine.specs.Keepings.{Kept};
ghost use Rattle.serve_engine.specs.Notes.{TellTurns, Telling, TellsTurn, told_in};
ghost use Rattle.serve_engine.specs.Refusals.{KeepsSilent, kept_in, with_peer};
ghost use Rattle.serve_engine.specs.Servers.{ServesRun, ServesTurn, SyncsTo, counts_of, intake_of, is_full};
ghost use Rattle.serve_engine.specs.Servers.{place_of, told_of};
ghost use Rattle.serve_engine.specs.Serving.{ClosesOwn, IsStepTurn, ServesStep, asks_commit, is_last};
ghost use Rattle.serve_engine.specs.Syncs.{MakesAtMost, turn_syncs};
ghost use Rattle.serve_engine.specs.Watching.{WatchedRun};

use crate::keeping::{Keeping, Pause};
use crate::serve_end::ServeEnd;
use crate::server::Server;
use crate::turn::Turn;
use crate::watch::Watch;
use archive_text::Store;
use octet_devices::Output;
use socket_source::{PIECE_MAX, ServerSource, ServerStep};
use std::alloc::Global;

/// What a server is to do.
#[derive(Clone, Copy, Debug, PartialEq, Eq)]
pub struct ServeOptions {
    /// From how many octets on a journal makes a checkpoint due.
    pub checkpoint_len: u64,
    /// After how many milliseconds the counts are told, at the next tick; 0 means never.
    pub count_millis: u64,
    /// Whether the counts that are told have the peers that may not send.
    pub counts_not_allowed: bool,
    /// Whether the counts that are told have the datagrams above the rates of their peers.
    pub counts_over_rate: bool,
}

impl<S: Store + Drop, K: Keeping<S> + Drop, N: Output + Drop, R: Output + Drop> Server<S, K, N, R> {
    // A step of the source.
    fn step<Q: ServerSource, P: Pause>(
        &mut self,
        alloc: Global,
        source: &mut Q,
        pause: &mut P,
        step: ServerStep,
        buf: &[u8],
        options: &ServeOptions,
    ) -> Turn
        requires within { IsWithin (length buf.now) step }
        ensures served { (lost : Bool) × ClosesOwn lost (Q.state source.old) (Q.state source.new) step
            × ServesStep S.entries K.stands self.old.intake self.new.intake
            step (octets_of step buf.now) lost self.new.full result
            (kept_in R.state self.old.report) (kept_in R.state self.new.report) }
        ensures manner { manner_of self.new.intake.collector ≡ manner_of self.old.intake.collector }
        ensures full { asks_commit step ≡ false → self.new.full ≡ self.old.full }
        ensures turn { IsStepTurn step result }
        ensures last { is_last step ≡ true → result ≡ On → self.new.full ≡ true }
        ensures silent { IfNone (event_of step (octets_of step buf.now))
            (KeepsSilent (asks_commit step) (with_peer step (kept_in R.state self.old.report))
            (kept_in R.state self.new.report)) }
        ensures notes { (k : Kept) (first : List Entry) (before : List AcceptedEvent)
            → StandsBy S.entries K.stands self.old.intake k first before
            → TellsTurn (told_in N.state self.old.report) (told_in N.state self.new.report) }
        ensures syncs { MakesAtMost (turn_syncs K.most_syncs (waiting_in S.entries self.old.intake))
            (K.syncs self.old.intake.keeper) (K.syncs self.new.intake.keeper) }
    {
        match step {
            ServerStep::Opened {
                conn,
                listener: _,
                framing,
                peer,
            } => self.opened(alloc, source, conn, framing, peer),
            ServerStep::Piece { conn, len } => self.piece(alloc, source, conn, &buf[..len]),
            ServerStep::Ended { conn, end } => self.ended(alloc, conn, end),
            ServerStep::Datagram {
                listener: _,
                peer,
                len,
            } => self.datagram(alloc, peer, &buf[..len]),
            ServerStep::TurnedAway {
                listener: _,
                framing,
                peer,
            } => self.turned_away(alloc, framing, peer),
            ServerStep::NotAllowed { listener: _, peer } => self.not_allowed(alloc, peer),
            ServerStep::OverRate { listener: _, peer } => self.over_rate(alloc, peer),
            ServerStep::Tick => self.tick(alloc, pause.passed(), options),
            ServerStep::InputEnded => Turn::On,
            ServerStep::Finished => self.finish(alloc, ServeEnd::Finished),
            ServerStep::Failed(fault) => self.finish(alloc, ServeEnd::Source(fault)),
        }
    }

    /// A turn: a step of the source; or if the disk is full, another try after a while in which
    /// nothing is read; or if memory is short, a commit before more is read, and a checkpoint if that is due. The slice should have room
    /// for `PIECE_MAX` octets.
    ///
    /// What came is committed at each tick, and once the source has finished or failed, unless the
    /// disk is full or fails, or memory runs out. What is refused of the step is kept, frame by
    /// frame.
    pub fn turn<Q: ServerSource, P: Pause>(
        &mut self,
        alloc: Global,
        source: &mut Q,
        pause: &mut P,
        buf: &mut [u8],
        options: &ServeOptions,
    ) -> Turn
        ensures served { ServesTurn S.entries K.stands result
            (place_of R.state K.short self.old (Q.state source.old))
            (place_of R.state K.short self.new (Q.state source.new)) }
        ensures manner { manner_of (intake_of self.new).collector
            ≡ manner_of (intake_of self.old).collector }
        // Each note is written once, and a turn has few.
        ensures notes { (k : Kept) (first : List Entry) (before : List AcceptedEvent)
            → StandsBy S.entries K.stands (intake_of self.old) k first before
            → TellsTurn (told_of N.state self.old) (told_of N.state self.new) }
        // For each record that waited at its start, a turn makes the syncs of a call at most once.
        ensures syncs { MakesAtMost (turn_syncs K.most_syncs (waiting_in S.entries (intake_of self.old)))
            (K.syncs (intake_of self.old).keeper) (K.syncs (intake_of self.new).keeper) }
    {
        if self.full {
            pause.pause();
            return self.try_again(alloc);
        }
        if self.intake.is_short() {
            return self.commit_early(alloc, options.checkpoint_len);
        }
        let step = source.next(buf);
        self.step(alloc, source, pause, step, buf, options)
    }

    /// Serves a source until it has finished or failed, the disk has failed, or memory has run out.
    /// Whoever watches is shown the server after each turn.
    pub fn serve<Q: ServerSource, P: Pause, W: Watch>(
        &mut self,
        alloc: Global,
        source: &mut Q,
        pause: &mut P,
        watch: &mut W,
        options: &ServeOptions,
    ) -> ServeEnd
        ensures served { ServesRun S.entries K.stands result
            (place_of R.state K.short self.old (Q.state source.old))
            (place_of R.state K.short self.new (Q.state source.new)) }
        ensures manner { manner_of (intake_of self.new).collector
            ≡ manner_of (intake_of self.old).collector }
        // Its notes are those of its turns.
        ensures notes { (k : Kept) (first : List Entry) (before : List AcceptedEvent)
            → StandsBy S.entries K.stands (intake_of self.old) k first before
            → NoneWaits (intake_of self.old).collector → (turns : List Telling)
            × TellTurns turns (told_of N.state self.old) (told_of N.state self.new) }
        // Each turn makes at most the syncs of one at whose start so many records waited.
        ensures syncs { SyncsTo S.entries K.stands K.syncs K.most_syncs result
            (place_of R.state K.short self.old (Q.state source.old))
            (place_of R.state K.short self.new (Q.state source.new)) }
        // Whoever watches has seen it as it is.
        ensures watched { WatchedRun W.sees result watch.old watch.new (counts_of self.new) (is_full self.new) }
    {
        let Ok(mut buf) = vec![in alloc; 0u8; PIECE_MAX] else {
            return ServeEnd::Memory;
        };
        for _turn in 0..u64::MAX {
            let went = self.turn(alloc, source, pause, &mut buf, options);
            watch.see(&self.view());
            match went {
                Turn::On => {}
                Turn::End(end) => return end,
            }
        }
        ServeEnd::Endless
    }
}
