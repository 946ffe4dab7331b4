//! What a page tells of each listener.
ghost use Rattle.std.specs.Prelude.{◌≡◌, ◌++◌, OnOk, string_bytes};
ghost use Rattle.std.specs.List.{flat_map};
ghost use Rattle.server_metrics.specs.Listeners.{family_help, family_name, family_text, fault_sample, faults_text};
ghost use Rattle.server_metrics.specs.Listeners.{listener_sample, listeners_text, row_text};

use crate::counts::{ListenerCounts, ListenerRow};
use crate::family::{Kind, put_head};
use crate::label::put_label;
use crate::text::{put, put_value};
use std::alloc::AllocError;

/// The families that have samples of each listener.
#[derive(Clone, Copy, Debug, PartialEq, Eq)]
pub(crate) enum Family {
    /// Records that came.
    Records,
    /// Octets that came.
    Octets,
    /// Frames that were refused, by their faults.
    Refused,
    /// Peers that may not send.
    NotAllowed,
    /// Datagrams above the rates of their peers.
    Dropped,
}

fn family_name(family: Family) -> &'static [u8]
    ensures { result.now ≡ family_name family }
{
    match family {
        Family::Records => b"syslogbox_received_records_total",
        Family::Octets => b"syslogbox_received_octets_total",
        Family::Refused => b"syslogbox_refused_frames_total",
        Family::NotAllowed => b"syslogbox_not_allowed_total",
        Family::Dropped => b"syslogbox_dropped_datagrams_total",
    }
}

fn family_help(family: Family) -> &'static [u8]
    ensures { result.now ≡ family_help family }
{
    match family {
        Family::Records => b"Records that came.",
        Family::Octets => b"Octets that came.",
        Family::Refused => b"Frames that were refused, by what is wrong with them.",
        Family::NotAllowed => b"Datagrams and connections of peers that may not send.",
        Family::Dropped => b"Datagrams that were dropped, above the rates of their peers.",
    }
}

// Appends a sample of a listener.
#[tactic(auto, unfolding(crate::specs::Listeners::listener_sample))]
fn put_sample(out: &mut Vec<u8>, name: &[u8], listener: &[u8], value: u64) -> Result<(), AllocError>
    ensures { OnOk result (out.new.items
        ≡ out.old.items ++ listener_sample name.now listener.now value) }
{
    put(out, name)?;
    put(out, b"{")?;
    put_label(out, b"listener", listener)?;
    put(out, b"}")?;
    put_value(out, value)
}

// Appends the sample of a fault of a listener.
#[tactic(auto, unfolding(crate::specs::Listeners::fault_sample))]
fn put_fault(out: &mut Vec<u8>, listener: &[u8], fault: &[u8], value: u64) -> Result<(), AllocError>
    ensures { OnOk result (out.new.items
        ≡ out.old.items ++ fault_sample listener.now fault.now value) }
{
    put(out, family_name(Family::Refused))?;
    put(out, b"{")?;
    put_label(out, b"listener", listener)?;
    put(out, b",")?;
    put_label(out, b"fault", fault)?;
    put(out, b"}")?;
    put_value(out, value)
}

fn put_faults(out: &mut Vec<u8>, listener: &[u8], counts: ListenerCounts) -> Result<(), AllocError>
    ensures { OnOk result (out.new.items ≡ out.old.items ++ faults_text listener.now counts) }
{
    put_fault(out, listener, b"record", counts.not_records)?;
    put_fault(out, listener, b"too-long", counts.too_long)?;
    put_fault(out, listener, b"broken", counts.broken)
}

// Appends the samples that a family has of a listener.
fn put_row(out: &mut Vec<u8>, family: Family, row: &ListenerRow) -> Result<(), AllocError>
    ensures { OnOk result (out.new.items ≡ out.old.items ++ row_text family row.now) }
{
    let listener = row.name.as_bytes();
    let counts = row.counts;
    let name = family_name(family);
    match family {
        Family::Records => put_sample(out, name, listener, counts.records),
        Family::Octets => put_sample(out, name, listener, counts.octets),
        Family::Refused => put_faults(out, listener, counts),
        Family::NotAllowed => put_sample(out, name, listener, counts.not_allowed),
        Family::Dropped => put_sample(out, name, listener, counts.dropped),
    }
}

fn put_rows(out: &mut Vec<u8>, family: Family, rows: &[ListenerRow]) -> Result<(), AllocError>
    ensures { OnOk result (out.new.items ≡ out.old.items ++ flat_map (row_text family) rows.now) }
{
    for row in rows {
        put_row(out, family, row)?;
    }
    Ok(())
}

#[tactic(auto, unfolding(crate::specs::Listeners::family_text))]
fn put_family(out: &mut Vec<u8>, family: Family, rows: &[ListenerRow]) -> Result<(), AllocError>
    ensures { OnOk result (out.new.items ≡ out.old.items ++ family_text family rows.now) }
{
    put_head(out, family_name(family), family_help(family), Kind::Counter)?;
    put_rows(out, family, rows)
}

/// Appends the families that have samples of each listener.
#[tactic(auto, unfolding(crate::specs::Listeners::listeners_text))]
pub(crate) fn put_listeners(out: &mut Vec<u8>, rows: &[ListenerRow]) -> Result<(), AllocError>
    ensures { OnOk result (out.new.items ≡ out.old.items ++ listeners_text rows.now) }
{
    put_family(out, Family::Records, rows)?;
    put_family(out, Family::Octets, rows)?;
    put_family(out, Family::Refused, rows)?;
    put_family(out, Family::NotAllowed, rows)?;
    put_family(out, Family::Dropped, rows)
}
