//! How many packets were read as legacy ones.

ghost use Rattle.std.specs.Prelude.{◌≡◌, ◌++◌, List, ℕ, None, OnErr, OnOk, ⊤};
ghost use Rattle.syslog_legacy.specs.Views.{legacy_view_parts};
ghost use Rattle.frame_engine.specs.Summaries.{CountsOne, no_packets, summary_text};

use crate::line::{put_number, put_text};
use std::alloc::AllocError;
use syslog_legacy::LegacyView;

/// How many packets were read as legacy ones. A count that reaches `u64::MAX` stays there.
#[derive(Clone, Copy, Debug, PartialEq, Eq)]
pub struct Tally {
    /// The packets that were read as legacy ones.
    pub packets: u64,
    /// Those without a time.
    pub no_time: u64,
    /// Those without a host.
    pub no_host: u64,
}

impl Tally {
    /// The tally of no packets.
    pub fn new() -> Tally
        ensures { result ≡ no_packets }
    {
        Tally {
            packets: 0,
            no_time: 0,
            no_host: 0,
        }
    }

    /// Counts a packet.
    pub fn add(&mut self, view: &LegacyView<'_>)
        ensures packets { CountsOne ⊤ self.old.packets self.new.packets }
        ensures no_time { CountsOne ((legacy_view_parts view.now).time ≡ None)
            self.old.no_time self.new.no_time }
        ensures no_host { CountsOne ((legacy_view_parts view.now).hostname ≡ None)
            self.old.no_host self.new.no_host }
    {
        self.packets = self.packets.saturating_add(1);
        if view.instant().is_none() {
            self.no_time = self.no_time.saturating_add(1);
        }
        if view.hostname().is_none() {
            self.no_host = self.no_host.saturating_add(1);
        }
    }

    // Appends the line; where memory runs out, possibly a part of it.
    fn append_to(&self, out: &mut Vec<u8>) -> Result<(), AllocError>
        ensures ok { OnOk result (out.new.items ≡ out.old.items ++ summary_text self.now) }
        ensures err { (part : List ℕ) × (out.new.items ≡ out.old.items ++ part) }
    {
        put_text(out, b"legacy ")?;
        put_number(out, self.packets)?;
        put_text(out, b" no-time ")?;
        put_number(out, self.no_time)?;
        put_text(out, b" no-host ")?;
        put_number(out, self.no_host)?;
        put_text(out, b"\n")
    }

    /// Appends the line that tells the counts, whole or not at all.
    ///
    /// # Errors
    /// Out of memory.
    pub fn put_summary(&self, out: &mut Vec<u8>) -> Result<(), AllocError>
        ensures ok { OnOk result (out.new.items ≡ out.old.items ++ summary_text self.now) }
        ensures err { OnErr result (out.new.items ≡ out.old.items) }
    {
        let before = out.len();
        let put = self.append_to(out);
        if put.is_err() {
            out.truncate(before);
        }
        put
    }
}
