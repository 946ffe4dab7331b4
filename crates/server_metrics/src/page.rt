//! The page of metrics.
ghost use Rattle.std.specs.Prelude.{◌≡◌, ◌++◌, OnOk};
ghost use Rattle.server_metrics.specs.Pages.{bucket_sample, build_text, count_sample, counters_text, flag_number};
ghost use Rattle.server_metrics.specs.Pages.{histogram_text, long_buckets_text, moments_text, page_text};
ghost use Rattle.server_metrics.specs.Pages.{short_buckets_text, sizes_text, sum_sample};

use crate::commit_times::CommitTimes;
use crate::counts::{ListenerRow, Totals};
use crate::family::{Kind, put_counter, put_gauge, put_head};
use crate::label::put_label;
use crate::listeners::put_listeners;
use crate::text::{put, put_seconds, put_value};
use std::alloc::AllocError;

// Appends what was counted of the whole server.
fn put_counters(out: &mut Vec<u8>, totals: &Totals) -> Result<(), AllocError>
    ensures { OnOk result (out.new.items ≡ out.old.items ++ counters_text totals.now) }
{
    put_counter(
        out,
        b"syslogbox_new_records_total",
        b"Records that were not held before.",
        totals.new_records,
    )?;
    put_counter(
        out,
        b"syslogbox_held_records_total",
        b"Records that were held before.",
        totals.held_records,
    )?;
    put_counter(
        out,
        b"syslogbox_batches_total",
        b"Commits of a record or more.",
        totals.batches,
    )?;
    put_counter(
        out,
        b"syslogbox_notes_dropped_total",
        b"Lines of notes that could not be written.",
        totals.notes_dropped,
    )?;
    put_counter(
        out,
        b"syslogbox_notes_quiet_total",
        b"Lines of notes that their pace left out.",
        totals.notes_quiet,
    )
}

// 1 where it is so, and else 0.
fn flag_number(holds: bool) -> u64
    ensures { result ≡ flag_number holds }
{
    if holds { 1 } else { 0 }
}

// Appends how much there is of something now.
fn put_sizes(out: &mut Vec<u8>, totals: &Totals) -> Result<(), AllocError>
    ensures { OnOk result (out.new.items ≡ out.old.items ++ sizes_text totals.now) }
{
    put_gauge(
        out,
        b"syslogbox_connections",
        b"Connections that are open.",
        totals.connections,
    )?;
    put_gauge(
        out,
        b"syslogbox_journal_octets",
        b"Octets of the journal.",
        totals.journal_octets,
    )?;
    put_gauge(
        out,
        b"syslogbox_disk_full",
        b"1 while the disk is full, and else 0.",
        flag_number(totals.disk_full),
    )
}

// Appends when something was.
fn put_moments(out: &mut Vec<u8>, totals: &Totals) -> Result<(), AllocError>
    ensures { OnOk result (out.new.items ≡ out.old.items ++ moments_text totals.now) }
{
    put_gauge(
        out,
        b"syslogbox_last_commit_timestamp_seconds",
        b"When the last commit was made, in Unix seconds, and 0 before the first.",
        totals.last_commit,
    )?;
    put_gauge(
        out,
        b"syslogbox_start_timestamp_seconds",
        b"When the server began, in Unix seconds.",
        totals.start,
    )
}

// Appends how many commits took at most so many seconds.
fn put_bucket(out: &mut Vec<u8>, seconds: &[u8], count: u64) -> Result<(), AllocError>
    ensures { OnOk result (out.new.items ≡ out.old.items ++ bucket_sample seconds.now count) }
{
    put(out, b"syslogbox_commit_seconds_bucket{")?;
    put_label(out, b"le", seconds)?;
    put(out, b"}")?;
    put_value(out, count)
}

// Appends how many commits took at most a tenth of a second, and less.
fn put_short_buckets(out: &mut Vec<u8>, commits: &CommitTimes) -> Result<(), AllocError>
    ensures { OnOk result (out.new.items ≡ out.old.items ++ short_buckets_text commits.now) }
{
    put_bucket(out, b"0.001", commits.within[0])?;
    put_bucket(out, b"0.0025", commits.within[1])?;
    put_bucket(out, b"0.005", commits.within[2])?;
    put_bucket(out, b"0.01", commits.within[3])?;
    put_bucket(out, b"0.025", commits.within[4])?;
    put_bucket(out, b"0.05", commits.within[5])?;
    put_bucket(out, b"0.1", commits.within[6])
}

// Appends how many commits took at most a quarter of a second, and more; and how many there were.
fn put_long_buckets(out: &mut Vec<u8>, commits: &CommitTimes) -> Result<(), AllocError>
    ensures { OnOk result (out.new.items ≡ out.old.items ++ long_buckets_text commits.now) }
{
    put_bucket(out, b"0.25", commits.within[7])?;
    put_bucket(out, b"0.5", commits.within[8])?;
    put_bucket(out, b"1", commits.within[9])?;
    put_bucket(out, b"2.5", commits.within[10])?;
    put_bucket(out, b"5", commits.within[11])?;
    put_bucket(out, b"10", commits.within[12])?;
    put_bucket(out, b"+Inf", commits.count)
}

// Appends how long all commits took, in seconds.
fn put_sum(out: &mut Vec<u8>, micros: u64) -> Result<(), AllocError>
    ensures { OnOk result (out.new.items ≡ out.old.items ++ sum_sample micros) }
{
    put(out, b"syslogbox_commit_seconds_sum ")?;
    put_seconds(out, micros)?;
    put(out, b"\n")
}

// Appends how many commits there were.
fn put_count(out: &mut Vec<u8>, count: u64) -> Result<(), AllocError>
    ensures { OnOk result (out.new.items ≡ out.old.items ++ count_sample count) }
{
    put(out, b"syslogbox_commit_seconds_count")?;
    put_value(out, count)
}

// Appends how long commits took.
fn put_histogram(out: &mut Vec<u8>, commits: &CommitTimes) -> Result<(), AllocError>
    ensures { OnOk result (out.new.items ≡ out.old.items ++ histogram_text commits.now) }
{
    put_head(
        out,
        b"syslogbox_commit_seconds",
        b"How long commits took.",
        Kind::Histogram,
    )?;
    put_short_buckets(out, commits)?;
    put_long_buckets(out, commits)?;
    put_sum(out, commits.sum)?;
    put_count(out, commits.count)
}

// Appends the version of the program.
fn put_build(out: &mut Vec<u8>, version: &[u8]) -> Result<(), AllocError>
    ensures { OnOk result (out.new.items ≡ out.old.items ++ build_text version.now) }
{
    put_head(
        out,
        b"syslogbox_build_info",
        b"The version of the program.",
        Kind::Gauge,
    )?;
    put(out, b"syslogbox_build_info{")?;
    put_label(out, b"version", version)?;
    put(out, b"}")?;
    put_value(out, 1)
}

/// Appends the page of metrics, in the text format of Prometheus, version 0.0.4: the families of all
/// listeners, of the whole server and of its commits, and the version of the program. If memory runs
/// out, a part of the page may be there.
pub fn put_metrics(
    out: &mut Vec<u8>,
    version: &str,
    rows: &[ListenerRow],
    totals: &Totals,
    commits: &CommitTimes,
) -> Result<(), AllocError>
    ensures { OnOk result (out.new.items
        ≡ out.old.items ++ page_text version.now rows.now totals.now commits.now) }
{
    put_listeners(out, rows)?;
    put_counters(out, totals)?;
    put_sizes(out, totals)?;
    put_moments(out, totals)?;
    put_histogram(out, commits)?;
    put_build(out, version.as_bytes())
}
