//! The lines of a server.
ghost use Rattle.std.specs.Prelude.{◌≡◌, ◌++◌, OnOk, codes, decimal};
ghost use Rattle.std.specs.Net.Text.{socket_text};
ghost use Rattle.serve_engine.specs.Lines.{at_text, batches_text, counted_text, counts_text, happening_text};
ghost use Rattle.serve_engine.specs.Lines.{is_bad_count, not_allowed_text, over_rate_text, peer_text, records_text};
ghost use Rattle.serve_engine.specs.Lines.{refusals_text};
ghost use Rattle.serve_engine.specs.Lines.{refused_text, way_text};

use crate::counts::ServeCounts;
use crate::peers::Way;
use frame_engine::{Line, put_line};
use itoa::Buffer;
use std::alloc::{AllocError, Global};
use std::net::SocketAddr;
use syslog_collect::Outcome;
use syslog_frame::Framing;

/// What happened to a connection or a datagram, other than that a frame was refused.
#[derive(Clone, Copy, Debug, PartialEq, Eq)]
pub(crate) enum Happening {
    /// It ended inside the frame that begins at this position.
    Unterminated(u64),
    /// No MSG-LEN can continue with the octet at this position.
    BadCount(u64),
    /// It was reset.
    Reset,
    /// Nothing came on it for too long.
    Idle,
    /// There was no room for it.
    TurnedAway,
    /// Its peer may not send.
    NotAllowed,
    /// It was a datagram above the rate of its peer.
    OverRate,
    /// There was no memory for it, or for what came on it.
    NoMemory,
    /// It was a datagram, for whose record there was no memory.
    Dropped,
}

fn put(out: &mut Vec<u8>, text: &[u8]) -> Result<(), AllocError>
    ensures { OnOk result (out.new.items ≡ out.old.items ++ text.now) }
{
    out.extend_from_slice(text)
}

fn put_number(out: &mut Vec<u8>, number: u64) -> Result<(), AllocError>
    ensures { OnOk result (out.new.items ≡ out.old.items ++ decimal number) }
{
    put(out, Buffer::new().format(number).as_bytes())
}

fn put_address(alloc: Global, out: &mut Vec<u8>, peer: SocketAddr) -> Result<(), AllocError>
    ensures { OnOk result (out.new.items ≡ out.old.items ++ socket_text peer) }
{
    let text = format!(in alloc; "{peer}")?;
    put(out, text.as_bytes())
}

/// Appends the way by which octets came, and a space.
pub(crate) fn put_way(alloc: Global, out: &mut Vec<u8>, way: Way) -> Result<(), AllocError>
    ensures { OnOk result (out.new.items ≡ out.old.items ++ way_text way) }
{
    match way {
        Way::Udp(peer) => {
            put(out, b"udp ")?;
            put_address(alloc, out, peer)?;
        }
        Way::Unix => put(out, b"unix -")?,
        Way::Stream(framing, peer) => {
            match framing {
                Framing::Counted => put(out, b"counted ")?,
                Framing::Lf => put(out, b"lf ")?,
            }
            put_address(alloc, out, peer)?;
        }
    }
    put(out, b" ")
}

/// Whether an outcome is a bad count.
pub(crate) fn is_bad_count(outcome: Outcome) -> bool
    ensures { result ≡ is_bad_count outcome }
{
    matches!(outcome, Outcome::BadCount { .. })
}

/// Appends the line on the refused frame with this number.
pub(crate) fn put_refused(
    alloc: Global,
    out: &mut Vec<u8>,
    way: Way,
    number: u64,
    outcome: Outcome,
) -> Result<(), AllocError>
    ensures { OnOk result (out.new.items ≡ out.old.items ++ refused_text way number outcome) }
{
    put_way(alloc, out, way)?;
    match outcome {
        Outcome::Refused(fault) => put_line(out, Line::Refused { number, fault }),
        Outcome::RefusedLegacy { offset } => put_line(out, Line::LegacyNotUtf8 { number, offset }),
        Outcome::TooLong => put_line(out, Line::TooLong { number }),
        Outcome::New | Outcome::Held | Outcome::BadCount { .. } => Ok(()),
    }
}

fn put_at(
    alloc: Global,
    out: &mut Vec<u8>,
    way: Way,
    words: &[u8],
    at: u64,
) -> Result<(), AllocError>
    ensures { OnOk result (out.new.items ≡ out.old.items ++ at_text way words.now at) }
{
    put_way(alloc, out, way)?;
    put(out, words)?;
    put_number(out, at)?;
    put(out, b"\n")
}

fn put_peer(alloc: Global, out: &mut Vec<u8>, way: Way, words: &[u8]) -> Result<(), AllocError>
    ensures { OnOk result (out.new.items ≡ out.old.items ++ (peer_text way ++ words.now)) }
{
    match way {
        Way::Udp(peer) | Way::Stream(_, peer) => put_address(alloc, out, peer)?,
        Way::Unix => put(out, b"-")?,
    }
    put(out, words)
}

/// Appends the line on what happened to a connection.
pub(crate) fn put_happening(
    alloc: Global,
    out: &mut Vec<u8>,
    way: Way,
    happening: Happening,
) -> Result<(), AllocError>
    ensures { OnOk result (out.new.items ≡ out.old.items ++ happening_text way happening) }
{
    match happening {
        Happening::Unterminated(start) => put_at(alloc, out, way, b"unterminated ", start),
        Happening::BadCount(at) => put_at(alloc, out, way, b"bad-count ", at),
        Happening::Reset => put_peer(alloc, out, way, b" reset\n"),
        Happening::Idle => put_peer(alloc, out, way, b" idle\n"),
        Happening::TurnedAway => put_peer(alloc, out, way, b" closed: too many connections\n"),
        Happening::NotAllowed => put_peer(alloc, out, way, b" not allowed\n"),
        Happening::OverRate => put_peer(alloc, out, way, b" over-rate\n"),
        Happening::NoMemory => put_peer(alloc, out, way, b" closed: want of memory\n"),
        Happening::Dropped => put_peer(alloc, out, way, b" dropped: want of memory\n"),
    }
}

fn put_count(out: &mut Vec<u8>, words: &[u8], count: u64) -> Result<(), AllocError>
    ensures { OnOk result (out.new.items ≡ out.old.items ++ (words.now ++ decimal count)) }
{
    put(out, words)?;
    put_number(out, count)
}

// Appends the counts of records.
fn put_records(out: &mut Vec<u8>, counts: &ServeCounts) -> Result<(), AllocError>
    ensures { OnOk result (out.new.items ≡ out.old.items ++ records_text counts.now) }
{
    put_count(out, b"received ", counts.received)?;
    put_count(out, b" new ", counts.new)?;
    put_count(out, b" held ", counts.held)
}

// Appends the counts of what was refused, and of connections.
fn put_refusals(out: &mut Vec<u8>, counts: &ServeCounts) -> Result<(), AllocError>
    ensures { OnOk result (out.new.items ≡ out.old.items ++ refusals_text counts.now) }
{
    put_count(out, b" refused ", counts.refused)?;
    put_count(out, b" too-long ", counts.too_long)?;
    put_count(out, b" connections ", counts.connections)
}

// Appends the counts of commits, of octets and of lines that were left out.
fn put_batches(out: &mut Vec<u8>, counts: &ServeCounts) -> Result<(), AllocError>
    ensures { OnOk result (out.new.items ≡ out.old.items ++ batches_text counts.now) }
{
    put_count(out, b" batches ", counts.batches)?;
    put_count(out, b" octets ", counts.octets)?;
    put_count(out, b" quiet ", counts.quiet)
}

// Appends all counts but those that are told only where they are asked for.
fn put_counted(out: &mut Vec<u8>, counts: &ServeCounts) -> Result<(), AllocError>
    ensures { OnOk result (out.new.items ≡ out.old.items ++ counted_text counts.now) }
{
    put_records(out, counts)?;
    put_refusals(out, counts)?;
    put_batches(out, counts)
}

// Appends the count of peers that may not send, if somebody asks for it.
fn put_not_allowed(out: &mut Vec<u8>, counts: &ServeCounts, asked: bool) -> Result<(), AllocError>
    ensures { OnOk result (out.new.items ≡ out.old.items ++ not_allowed_text asked counts.now) }
{
    if asked {
        put_count(out, b" not-allowed ", counts.not_allowed)?;
    }
    Ok(())
}

// Appends the count of datagrams above the rates of their peers, if somebody asks for it.
fn put_over_rate(out: &mut Vec<u8>, counts: &ServeCounts, asked: bool) -> Result<(), AllocError>
    ensures { OnOk result (out.new.items ≡ out.old.items ++ over_rate_text asked counts.now) }
{
    if asked {
        put_count(out, b" over-rate ", counts.over_rate)?;
    }
    Ok(())
}

/// Appends the line of counts, with the peers that may not send, and the datagrams above the rates of
/// theirs, if somebody asks for them.
pub(crate) fn put_counts(
    out: &mut Vec<u8>,
    counts: &ServeCounts,
    with_not_allowed: bool,
    with_over_rate: bool,
) -> Result<(), AllocError>
    ensures { OnOk result (out.new.items
        ≡ out.old.items ++ counts_text counts.now with_not_allowed with_over_rate) }
{
    put_counted(out, counts)?;
    put_not_allowed(out, counts, with_not_allowed)?;
    put_over_rate(out, counts, with_over_rate)?;
    put(out, b"\n")
}
