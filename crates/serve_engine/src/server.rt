//! A server: where events go, what it tells, and who is connected.
ghost use Rattle.std.specs.Prelude.{◌≡◌, false, IfOk};
ghost use Rattle.serve_engine.specs.Notes.{OwesLittle};
ghost use Rattle.serve_engine.specs.Servers.{counts_of, intake_of, is_full, outputs_of, told_of};
ghost use Rattle.serve_engine.specs.Counts.{no_counts};
ghost use Rattle.serve_engine.specs.Watching.{Shows};

use crate::counts::ServeCounts;
use crate::intake::Intake;
use crate::keeping::{Keeping, Taken};
use crate::pace::Pace;
use crate::peers::Peers;
use crate::report::Report;
use crate::watch::ServerView;
use archive_text::Store;
use octet_devices::Output;
use socket_source::CONNECTIONS_MAX;
use std::alloc::{AllocError, Global};
use syslog_collect::Collector;

/// A server: a collector, what keeps its records, and what it tells.
#[derive(Drop)]
pub struct Server<S, K, N, R> {
    pub(crate) intake: Intake<S, K>,
    pub(crate) report: Report<N, R>,
    pub(crate) peers: Peers,
    /// Whether the disk is full, so that nothing is read.
    pub(crate) full: bool,
    /// Whether it was told that the disk is full, and not since that it has room.
    pub(crate) told: bool,
    /// How many milliseconds have passed since the counts were told.
    pub(crate) waited: u64,
}

impl<S: Store + Drop, K: Keeping<S> + Drop, N: Output + Drop, R: Output + Drop> Server<S, K, N, R> {
    /// A server over a collector and what keeps its records. Lines go to the notes, refused frames
    /// to an output of their own.
    pub fn new(
        alloc: Global,
        collector: Collector<S>,
        keeper: K,
        notes: N,
        refused: R,
    ) -> Result<Server<S, K, N, R>, AllocError>
        ensures collector { IfOk result (λ server. (intake_of server).collector ≡ collector) }
        ensures keeper { IfOk result (λ server. (intake_of server).keeper ≡ keeper) }
        ensures room { IfOk result (λ server. is_full server ≡ false) }
        ensures counts { IfOk result (λ server. counts_of server ≡ no_counts) }
        ensures outputs { IfOk result (λ server. outputs_of server ≡ (notes, refused)) }
        ensures pace { IfOk result (λ server. OwesLittle (told_of N.state server).pace) }
    {
        Ok(Server {
            intake: Intake {
                collector,
                keeper,
                handed: Taken::none(),
                outcomes: Vec::new(alloc),
            },
            report: Report::new(alloc, Pace::new(alloc)?, notes, refused),
            peers: Peers::new(alloc, CONNECTIONS_MAX)?,
            full: false,
            told: false,
            waited: 0,
        })
    }

    /// What keeps its records, and where it told.
    pub fn into_parts(self) -> (K, N, R)
        ensures keeper { result.0 ≡ (intake_of self).keeper }
        ensures outputs { (result.1, result.2) ≡ outputs_of self }
    {
        let Server {
            intake,
            report,
            peers: _,
            full: _,
            told: _,
            waited: _,
        } = self;
        let (notes, refused) = report.into_outputs();
        (intake.into_keeper(), notes, refused)
    }

    /// What has been counted so far.
    pub fn counts(&self) -> ServeCounts
        ensures { result ≡ counts_of self.now }
    {
        self.report.counts
    }

    // What whoever watches sees.
    pub(crate) fn view(&self) -> ServerView
        ensures { Shows result (counts_of self.now) (is_full self.now) }
    {
        ServerView {
            counts: self.report.counts,
            journal_len: self.intake.keeper.journal_len(),
            waits: self.full,
        }
    }
}
