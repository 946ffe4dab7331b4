//! What whoever watches a server is shown: what it has counted for each listener, how long its commits
//! take, and how it does.

use crate::askers::Askers;
use serve_engine::{ServeCounts, ServerView, Watch};
use server_metrics::{CommitTimes, Health, ListenerCounts, ListenerRow, Totals, put_metrics};
use socket_source::{CONNECTIONS_MAX, ServerStep};
use std::alloc::AllocError;
use std::cell::RefCell;
use std::time::{Duration, Instant, SystemTime, UNIX_EPOCH};

// Milliseconds between two looks at who asks, at the least.
const LOOK_MILLIS: u64 = 20;

/// What is watched of a server. Its source tells it each step, and the server shows itself after each
/// turn, so that what a turn has counted is that of the listener of its step.
#[derive(Drop)]
pub struct Watched<'t> {
    rt: &'t HostRuntime,
    askers: Askers,
    rows: Vec<ListenerRow>,
    // the row of the listener of each connection, by its number
    of_connection: Vec<usize>,
    // the row of the step of this turn
    row: Option<usize>,
    // when the tick of this turn came
    ticked: Option<Instant>,
    // when it was last looked who asks
    looked: Option<Instant>,
    counts: ServeCounts,
    connections: u64,
    commits: CommitTimes,
    last_commit: u64,
    start: u64,
}

// The seconds since 1970, by the clock of the system; 0 where it does not tell.
fn unix_seconds(rt: &HostRuntime) -> u64 {
    let Ok(now) = SystemTime::now(rt) else {
        return 0;
    };
    match now.duration_since(UNIX_EPOCH) {
        Ok(since) => since.as_secs(),
        Err(_) => 0,
    }
}

// A count with what another count has more than it had before.
fn grown(count: u64, before: u64, now: u64) -> u64 {
    count.saturating_add(now.saturating_sub(before))
}

// The counts of a listener, with what the server has counted since.
fn add(row: &mut ListenerCounts, before: &ServeCounts, now: &ServeCounts) {
    row.records = grown(row.records, before.received, now.received);
    row.octets = grown(row.octets, before.octets, now.octets);
    row.not_records = grown(row.not_records, before.refused, now.refused);
    row.too_long = grown(row.too_long, before.too_long, now.too_long);
    row.broken = grown(row.broken, before.broken, now.broken);
    row.not_allowed = grown(row.not_allowed, before.not_allowed, now.not_allowed);
    row.dropped = grown(row.dropped, before.over_rate, now.over_rate);
}

impl<'t> Watched<'t> {
    /// A server with these listeners, of which nothing is counted yet.
    pub fn new(
        rt: &'t HostRuntime,
        askers: Askers,
        rows: Vec<ListenerRow>,
        counts: ServeCounts,
    ) -> Result<Watched<'t>, AllocError> {
        Ok(Watched {
            rt,
            askers,
            rows,
            of_connection: vec![in rt.alloc(); 0usize; CONNECTIONS_MAX]?,
            row: None,
            ticked: None,
            looked: None,
            counts,
            connections: 0,
            commits: CommitTimes::new(),
            last_commit: 0,
            start: unix_seconds(rt),
        })
    }

    fn opened(&mut self, conn: u32, listener: usize) {
        self.connections = self.connections.saturating_add(1);
        if let Some(row) = self.of_connection.get_mut(conn as usize) {
            *row = listener;
        }
    }

    /// A connection is open no more.
    pub fn closed(&mut self) {
        self.connections = self.connections.saturating_sub(1);
    }

    /// The source gives this step.
    pub fn step(&mut self, step: &ServerStep) {
        self.ticked = None;
        self.row = match *step {
            ServerStep::Opened { conn, listener, .. } => {
                self.opened(conn, listener);
                Some(listener)
            }
            ServerStep::Piece { conn, .. } => self.of_connection.get(conn as usize).copied(),
            ServerStep::Ended { conn, .. } => {
                self.closed();
                self.of_connection.get(conn as usize).copied()
            }
            ServerStep::Datagram { listener, .. }
            | ServerStep::TurnedAway { listener, .. }
            | ServerStep::NotAllowed { listener, .. }
            | ServerStep::OverRate { listener, .. } => Some(listener),
            ServerStep::Tick => {
                self.ticked = Instant::now(self.rt).ok();
                None
            }
            ServerStep::InputEnded | ServerStep::Finished | ServerStep::Failed(_) => None,
        };
    }

    fn totals(&self, view: &ServerView) -> Totals {
        Totals {
            new_records: view.counts.new,
            held_records: view.counts.held,
            batches: view.counts.batches,
            notes_dropped: view.counts.dropped,
            notes_quiet: view.counts.quiet,
            connections: self.connections,
            journal_octets: view.journal_len,
            disk_full: view.waits,
            last_commit: self.last_commit,
            start: self.start,
        }
    }

    fn page(&self, view: &ServerView) -> Result<Vec<u8>, AllocError> {
        let mut page = Vec::new(self.rt.alloc());
        let totals = self.totals(view);
        let version = command_line::VERSION;
        put_metrics(
            &mut page,
            version,
            self.rows.as_slice(),
            &totals,
            &self.commits,
        )?;
        Ok(page)
    }

    // Whether it is time to look who asks.
    fn is_due(&self, now: Instant) -> bool {
        match self.looked {
            Some(then) => {
                now.saturating_duration_since(then) >= Duration::from_millis(LOOK_MILLIS)
            }
            None => true,
        }
    }

    // Answers who asks.
    fn answer(&mut self, view: &ServerView, now: Instant) {
        if !self.is_due(now) {
            return;
        }
        self.looked = Some(now);
        if self.askers.read(now) {
            let health = if view.waits {
                Health::DiskFull
            } else {
                Health::Ok
            };
            if let Ok(page) = self.page(view) {
                self.askers.answer(health, page.as_slice());
            }
        }
        self.askers.write(now);
    }

    // Counts the commit of a tick, if it had records.
    fn count_commit(&mut self, view: &ServerView, ticked: Instant, now: Instant) {
        if view.counts.batches > self.counts.batches {
            let took = now.saturating_duration_since(ticked).as_micros();
            self.commits.add(u64::try_from(took).unwrap_or(u64::MAX));
        }
        if !view.waits {
            self.last_commit = unix_seconds(self.rt);
        }
    }

    // What a turn has counted is that of the listener of its step.
    fn count(&mut self, view: &ServerView) {
        if let Some(place) = self.row {
            if let Some(row) = self.rows.get_mut(place) {
                add(&mut row.counts, &self.counts, &view.counts);
            }
        }
        self.row = None;
    }

    // A commit was tried.
    fn committed(&mut self, view: &ServerView) {
        let Ok(now) = Instant::now(self.rt) else {
            return;
        };
        if let Some(ticked) = self.ticked {
            self.count_commit(view, ticked, now);
        }
        self.ticked = None;
        self.answer(view, now);
    }

    // The server after a turn.
    fn turned(&mut self, view: &ServerView) {
        self.count(view);
        if self.ticked.is_some() || view.waits {
            self.committed(view);
        }
        self.counts = view.counts;
    }
}

/// Whoever watches a server, if anybody does.
#[derive(Clone, Copy)]
pub struct Watcher<'w, 't> {
    pub watched: Option<&'w RefCell<Watched<'t>>>,
}

impl<'w, 't> Watcher<'w, 't> {
    /// The source gives this step.
    pub fn step(&self, step: &ServerStep) {
        if let Some(watched) = self.watched {
            if let Ok(mut watched) = watched.try_borrow_mut() {
                watched.step(step);
            }
        }
    }

    /// The server closes a connection.
    pub fn closed(&self) {
        if let Some(watched) = self.watched {
            if let Ok(mut watched) = watched.try_borrow_mut() {
                watched.closed();
            }
        }
    }
}

impl<'w, 't> Watch for Watcher<'w, 't> {
    ghost use Rattle.std.specs.Prelude.{◌≡◌};

    ghost sees = { λ old new view. new ≡ old };

    fn see(&mut self, view: &ServerView) {
        if let Some(watched) = self.watched {
            if let Ok(mut watched) = watched.try_borrow_mut() {
                watched.turned(view);
            }
        }
    }
}
