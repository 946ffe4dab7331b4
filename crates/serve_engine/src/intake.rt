//! Where events go: a collector, and what keeps its records.
ghost use Rattle.std.specs.Prelude.{◌≡◌, ◌++◌, ⊤, [], List, IfOk, OnErr, OnOk};
ghost use Rattle.archive_text.specs.Entries.{Entry};
ghost use Rattle.collect_engine.specs.Receiving.{HearsReceived, IfNotMemory, IfRefused, MayNotOpen, ReceivesAs};
ghost use Rattle.collect_engine.specs.declared.receiving.Received.TheVariants.{Memory};
ghost use Rattle.syslog_collect.specs.Collectors.{NoneWaits, limit_of, reading_of, store_of, waits_of};
ghost use Rattle.syslog_collect.specs.History.{AcceptedEvent, Ended, Opened, Piece, history_of, stream_of};
ghost use Rattle.syslog_collect.specs.Runs.{accepted_event};
ghost use Rattle.serve_engine.specs.Counts.{no_taken};
ghost use Rattle.serve_engine.specs.Events.{ending_of, manner_of, opening_of};
ghost use Rattle.serve_engine.specs.Intakes.{AddsTaken, IsCommitted, StandsBy, waiting_in};
ghost use Rattle.serve_engine.specs.Keepings.{Kept};
ghost use Rattle.serve_engine.specs.Serving.{StandsOn};
ghost use Rattle.serve_engine.specs.Syncs.{MakesAtMost, commit_syncs, take_syncs};

use crate::keeping::{KeepFault, Keeping, Taken};
use archive_text::Store;
use collect_engine::{Received, receive, receive_piece};
use std::alloc::Global;
use syslog_collect::{CollectFault, Collector, Event, Observer, Outcome};
use syslog_frame::Framing;

// What became of an opening.
fn opening_of(answer: Result<(), CollectFault>) -> Received
    ensures { result ≡ opening_of answer }
{
    match answer {
        Ok(()) => Received::Accepted,
        Err(CollectFault::Memory { .. }) => Received::Memory,
        Err(_) => Received::Refused,
    }
}

// What became of an end, for which no memory is needed.
fn ending_of(answer: Result<(), CollectFault>) -> Received
    ensures { result ≡ ending_of answer }
{
    match answer {
        Ok(()) => Received::Accepted,
        Err(CollectFault::Unterminated { start }) => Received::Unterminated { start },
        Err(_) => Received::Refused,
    }
}

/// A collector over a set of what came since the last hand-over, and what keeps the rest.
#[derive(Drop)]
pub(crate) struct Intake<S, K> {
    pub(crate) collector: Collector<S>,
    pub(crate) keeper: K,
    /// What was handed over and is not committed.
    pub(crate) handed: Taken,
    /// The outcomes of the last event.
    pub(crate) outcomes: Vec<Outcome>,
}

impl<S: Store + Drop, K: Keeping<S> + Drop> Intake<S, K> {
    /// What keeps the records.
    pub(crate) fn into_keeper(self) -> K
        ensures { result ≡ self.keeper }
    {
        let Intake {
            collector: _,
            keeper,
            handed: _,
            outcomes: _,
        } = self;
        keeper
    }

    /// Opens a connection in the collector.
    pub(crate) fn open(&mut self, alloc: Global, conn: u32, framing: Framing) -> Received
        ensures received { (k : Kept) (first : List Entry) (before : List AcceptedEvent)
            → StandsBy S.entries K.stands self.old k first before
            → (accepted : List AcceptedEvent)
            × StandsBy S.entries K.stands self.new k first (before ++ accepted)
            × ReceivesAs (reading_of self.old.collector) (history_of before) (waits_of self.old.collector)
            (waits_of self.new.collector) (Opened conn framing) result [] accepted }
        ensures room { (k : Kept) (first : List Entry) (before : List AcceptedEvent)
            → StandsBy S.entries K.stands self.old k first before
            → IfRefused result (MayNotOpen (limit_of self.old.collector) (history_of before)
            (Opened conn framing)) }
        ensures settled { NoneWaits self.old.collector → NoneWaits self.new.collector }
        ensures manner { manner_of self.new.collector ≡ manner_of self.old.collector }
        ensures keeper { self.new.keeper ≡ self.old.keeper }
    {
        let answer = self.collector.open_conn(alloc, conn, framing);
        opening_of(answer)
    }

    /// Ends a connection in the collector. No memory is needed for that.
    pub(crate) fn end(&mut self, conn: u32) -> Received
        ensures received { (k : Kept) (first : List Entry) (before : List AcceptedEvent)
            → StandsBy S.entries K.stands self.old k first before
            → (accepted : List AcceptedEvent)
            × StandsBy S.entries K.stands self.new k first (before ++ accepted)
            × ReceivesAs (reading_of self.old.collector) (history_of before) (waits_of self.old.collector)
            (waits_of self.new.collector) (Ended conn) result [] accepted }
        ensures settled { (k : Kept) (first : List Entry) (before : List AcceptedEvent)
            → StandsBy S.entries K.stands self.old k first before
            → NoneWaits self.old.collector → NoneWaits self.new.collector }
        ensures memory { ¬ (result ≡ Memory) }
        ensures manner { manner_of self.new.collector ≡ manner_of self.old.collector }
        ensures keeper { self.new.keeper ≡ self.old.keeper }
    {
        let answer = self.collector.end_conn(conn);
        ending_of(answer)
    }

    /// Gives an event to the collector.
    pub(crate) fn receive(&mut self, alloc: Global, event: Event<'_>) -> Received
        ensures received { (k : Kept) (first : List Entry) (before : List AcceptedEvent)
            → StandsBy S.entries K.stands self.old k first before
            → (accepted : List AcceptedEvent)
            × StandsBy S.entries K.stands self.new k first (before ++ accepted)
            × ReceivesAs (reading_of self.old.collector) (history_of before) (waits_of self.old.collector)
            (waits_of self.new.collector) (accepted_event event.entry) result self.new.outcomes.items
            accepted }
        ensures room { (k : Kept) (first : List Entry) (before : List AcceptedEvent)
            → StandsBy S.entries K.stands self.old k first before
            → IfRefused result (MayNotOpen (limit_of self.old.collector) (history_of before)
            (accepted_event event.entry)) }
        ensures settled { (k : Kept) (first : List Entry) (before : List AcceptedEvent)
            → StandsBy S.entries K.stands self.old k first before
            → NoneWaits self.old.collector → IfNotMemory result (NoneWaits self.new.collector) }
        ensures manner { manner_of self.new.collector ≡ manner_of self.old.collector }
        ensures keeper { self.new.keeper ≡ self.old.keeper }
    {
        receive(alloc, &mut self.collector, event, &mut self.outcomes)
    }

    /// Gives a piece to the collector, and tells an observer of its frames.
    pub(crate) fn receive_piece<O: Observer>(
        &mut self,
        alloc: Global,
        conn: u32,
        octets: &[u8],
        observer: &mut O,
    ) -> Received
        ensures received { (k : Kept) (first : List Entry) (before : List AcceptedEvent)
            → StandsBy S.entries K.stands self.old k first before
            → (accepted : List AcceptedEvent)
            × StandsBy S.entries K.stands self.new k first (before ++ accepted)
            × ReceivesAs (reading_of self.old.collector) (history_of before) (waits_of self.old.collector)
            (waits_of self.new.collector) (Piece conn octets.now) result self.new.outcomes.items accepted }
        ensures room { (k : Kept) (first : List Entry) (before : List AcceptedEvent)
            → StandsBy S.entries K.stands self.old k first before
            → IfRefused result (MayNotOpen (limit_of self.old.collector) (history_of before)
            (Piece conn octets.now)) }
        ensures settled { (k : Kept) (first : List Entry) (before : List AcceptedEvent)
            → StandsBy S.entries K.stands self.old k first before
            → NoneWaits self.old.collector → IfNotMemory result (NoneWaits self.new.collector) }
        ensures hears { (k : Kept) (first : List Entry) (before : List AcceptedEvent)
            → StandsBy S.entries K.stands self.old k first before
            → HearsReceived O.observes (stream_of conn (history_of before).streams) octets.now
            (waits_of self.old.collector conn) (waits_of self.new.collector conn)
            self.new.outcomes.items observer.old observer.new }
        ensures manner { manner_of self.new.collector ≡ manner_of self.old.collector }
        ensures keeper { self.new.keeper ≡ self.old.keeper }
    {
        receive_piece(
            alloc,
            &mut self.collector,
            conn,
            octets,
            &mut self.outcomes,
            observer,
        )
    }

    /// Whether memory is short, so that what came is to be committed before more is read.
    pub(crate) fn is_short(&self) -> bool
        ensures { result ≡ K.short (store_of self.now.collector) }
    {
        self.keeper.is_short(self.collector.store())
    }

    /// Hands over what came since the last call.
    fn hand_over(&mut self, alloc: Global) -> Result<Taken, KeepFault>
        ensures stands { StandsOn S.entries K.stands self.old self.new (λ _. ⊤) }
        ensures empty { OnOk result (S.entries (store_of self.new.collector) ≡ []) }
        ensures settled { NoneWaits self.old.collector → NoneWaits self.new.collector }
        ensures manner { manner_of self.new.collector ≡ manner_of self.old.collector }
        ensures handed { self.new.handed ≡ self.old.handed }
        ensures syncs { MakesAtMost (take_syncs K.most_syncs (waiting_in S.entries self.old))
            (K.syncs self.old.keeper) (K.syncs self.new.keeper) }
    {
        let fresh = self.collector.store_mut();
        self.keeper.take(alloc, fresh)
    }

    // Commits what was handed over.
    fn commit_held(&mut self, alloc: Global) -> Result<(), KeepFault>
        ensures ok { OnOk result (StandsOn S.entries K.stands self.old self.new
            (λ j. j.committed ≡ j.held)) }
        ensures stands { StandsOn S.entries K.stands self.old self.new (λ _. ⊤) }
        ensures collector { self.new.collector ≡ self.old.collector }
        ensures handed { self.new.handed ≡ self.old.handed }
        ensures syncs { MakesAtMost K.most_syncs
            (K.syncs self.old.keeper) (K.syncs self.new.keeper) }
    {
        self.keeper.commit(alloc)
    }

    /// Commits all that came, and says what was handed over since the last commit.
    pub(crate) fn commit(&mut self, alloc: Global) -> Result<Taken, KeepFault>
        ensures ok { OnOk result (StandsOn S.entries K.stands self.old self.new
            (IsCommitted S.entries self.new)) }
        ensures stands { StandsOn S.entries K.stands self.old self.new (λ _. ⊤) }
        ensures settled { NoneWaits self.old.collector → NoneWaits self.new.collector }
        ensures manner { manner_of self.new.collector ≡ manner_of self.old.collector }
        ensures taken { IfOk result (λ taken. AddsTaken self.old.handed taken) }
        ensures handed { OnOk result (self.new.handed ≡ no_taken) }
        ensures waits { OnErr result (AddsTaken self.old.handed self.new.handed) }
        ensures syncs { MakesAtMost (commit_syncs K.most_syncs (waiting_in S.entries self.old))
            (K.syncs self.old.keeper) (K.syncs self.new.keeper) }
    {
        let taken = self.hand_over(alloc)?;
        let all = self.handed.and(taken);
        self.handed = all;
        self.commit_held(alloc)?;
        self.handed = Taken::none();
        Ok(all)
    }

    /// Opens the store again.
    pub(crate) fn reopen(&mut self, alloc: Global) -> Result<(), KeepFault>
        ensures stands { (k : Kept) (first : List Entry) (before : List AcceptedEvent)
            → StandsBy S.entries K.stands self.old k first before
            → StandsBy S.entries K.stands self.new k first before }
        ensures collector { self.new.collector ≡ self.old.collector }
        ensures syncs { MakesAtMost K.most_syncs
            (K.syncs self.old.keeper) (K.syncs self.new.keeper) }
    {
        self.keeper.reopen(alloc)
    }

    /// Makes a checkpoint.
    pub(crate) fn checkpoint(&mut self, alloc: Global) -> Result<(), KeepFault>
        ensures stands { (k : Kept) (first : List Entry) (before : List AcceptedEvent)
            → StandsBy S.entries K.stands self.old k first before
            → StandsBy S.entries K.stands self.new k first before }
        ensures collector { self.new.collector ≡ self.old.collector }
        ensures syncs { MakesAtMost K.most_syncs
            (K.syncs self.old.keeper) (K.syncs self.new.keeper) }
    {
        self.keeper.checkpoint(alloc)
    }
}
