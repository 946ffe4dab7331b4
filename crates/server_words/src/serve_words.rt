//! The words of `serve`.

ghost use Rattle.std.specs.Prelude.{◌≡◌, IfOk, option_map};
ghost use Rattle.std.specs.Result.{result_ok};
ghost use Rattle.clap.specs.Words.{found_of, rows_of};
ghost use Rattle.server_words.specs.Serves.{metrics_in, options_in, per_peer_of, serve_asked, serve_in};

use crate::address::address;
use crate::listeners::{ListenerWords, listeners};
use crate::networks::networks;
use clap::ArgMatches;
use option_values::options::{
    CHECKPOINT, COMMIT, CONNECTIONS, IDLE, METRICS, NEW_DIR, PER_PEER, RATE, UNTIL_EOF,
};
use option_values::{Refusal, is_given, number, optional_number, reading_of_matches, value};
use peer_rules::Network;
use std::alloc::{AllocError, Global};
use std::net::SocketAddr;
use syslog_legacy::FrameReading;

/// What a server is to do.
#[derive(Clone, Copy, Debug, PartialEq, Eq)]
pub struct ServeOptions {
    /// How many connections may be open at once, 1 to 16,384.
    pub connections: u32,
    /// How many connections of one address may be open at once, 1 to `connections`.
    pub per_peer: u32,
    /// After how many seconds without an octet a connection is closed, 1 to 31,536,000; None means
    /// never.
    pub idle_seconds: Option<u32>,
    /// How many milliseconds after a record was read its batch is committed at the latest, 0 to
    /// 3,600,000; 0 means before the next read.
    pub commit_millis: u32,
    /// At how many MiB of a journal a checkpoint is made, 1 to 2,048.
    pub checkpoint_mib: u32,
    /// Where its metrics and its health are shown over HTTP; None means nowhere.
    pub metrics: Option<SocketAddr>,
    /// How many records a second one address may send, 1 to 1,000,000, with a burst of ten times as many;
    /// None means any number.
    pub rate: Option<u32>,
    /// Whether the server ends with standard input.
    pub until_eof: bool,
    /// How frames are read.
    pub reading: FrameReading,
}

/// What the words of `serve` ask for. Texts are lent by the words.
#[derive(Debug, Drop)]
pub struct ServeWords<'a> {
    /// The folder of the store.
    pub dir: &'a str,
    /// What is listened on, at least one socket: all of `--udp`, then `--counted`, `--lf`, `--unix`
    /// and `--inherited`, each kind in the order of the words.
    pub listeners: Vec<ListenerWords<'a>>,
    /// The networks of `--allow`, whose addresses may send, in the order of the words; with none of them
    /// everybody may.
    pub allowed: Vec<Network>,
    /// What the server is to do.
    pub options: ServeOptions,
}

// How many connections of one address may be open at once: a quarter of all, and at least one,
// unless it is given; it may not be more than all.
fn per_peer(given: Option<u32>, connections: u32) -> Result<u32, Refusal<'static>>
    ensures { result_ok result ≡ per_peer_of given connections }
{
    match given {
        Some(number) if number > connections => Err(Refusal::Above {
            option: PER_PEER,
            bound: CONNECTIONS,
        }),
        Some(number) => Ok(number),
        None => Ok((connections / 4).max(1)),
    }
}

// Where metrics are shown, if that is asked for.
fn metrics<'a>(matches: &ArgMatches<'a>) -> Result<Option<SocketAddr>, Refusal<'a>>
    ensures { result_ok result ≡ metrics_in (rows_of (found_of matches.now)) }
{
    let Some(text) = value(matches, METRICS.name) else {
        return Ok(None);
    };
    match address(text) {
        Some(address) => Ok(Some(address)),
        None => Err(METRICS.refuses(METRICS.kind, text)),
    }
}

// What a server is to do, by the options.
fn options<'a>(matches: &ArgMatches<'a>) -> Result<ServeOptions, Refusal<'a>>
    ensures { result_ok result ≡ options_in (rows_of (found_of matches.now)) }
{
    let connections = number(matches, &CONNECTIONS)?;
    let given = optional_number(matches, &PER_PEER)?;
    let per_peer = per_peer(given, connections)?;
    let idle_seconds = optional_number(matches, &IDLE)?;
    let commit_millis = number(matches, &COMMIT)?;
    let checkpoint_mib = number(matches, &CHECKPOINT)?;
    let metrics = metrics(matches)?;
    let rate = optional_number(matches, &RATE)?;
    let reading = reading_of_matches(matches)?;
    Ok(ServeOptions {
        connections,
        per_peer,
        idle_seconds,
        commit_millis,
        checkpoint_mib,
        metrics,
        rate,
        until_eof: is_given(matches, UNTIL_EOF.name),
        reading,
    })
}

/// What the words of `serve` ask for: something is listened on. It fails only when out of memory.
pub fn read_serve_words<'a>(
    alloc: Global,
    matches: &ArgMatches<'a>,
) -> Result<Result<ServeWords<'a>, Refusal<'a>>, AllocError>
    ensures { IfOk result (λ r.
        option_map serve_asked (result_ok r) ≡ serve_in (rows_of (found_of matches.now))) }
{
    let Some(dir) = value(matches, NEW_DIR.name) else {
        return Ok(Err(Refusal::Missing));
    };
    let listeners = match listeners(alloc, matches)? {
        Ok(listeners) => listeners,
        Err(refusal) => return Ok(Err(refusal)),
    };
    let allowed = match networks(alloc, matches)? {
        Ok(allowed) => allowed,
        Err(refusal) => return Ok(Err(refusal)),
    };
    let options = match options(matches) {
        Ok(options) => options,
        Err(refusal) => return Ok(Err(refusal)),
    };
    if listeners.is_empty() {
        return Ok(Err(Refusal::NoListener));
    }
    Ok(Ok(ServeWords {
        dir,
        listeners,
        allowed,
        options,
    }))
}
