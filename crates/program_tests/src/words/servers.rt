//! What `serve` takes.

use crate::words::{asked, refuses_all};
use command_line::Request;
use server_words::{InheritedKind, ListenerWords, ServeOptions};
use std::net::SocketAddr;
use std::str::FromStr;
use std::test::Fail;
use syslog_legacy::{FrameReading, LegacyClock};

// the listeners of `serve`
fn listens(rt: &HostRuntime, words: &[&str], listeners: &[ListenerWords<'_>]) -> bool {
    match &asked(rt, words) {
        Ok(Request::Serve { words: found }) => {
            found.dir == "d" && found.listeners.as_slice() == listeners
        }
        _ => false,
    }
}

#[test]
fn serve_listens_on_sockets_kind_by_kind(rt: HostRuntime) -> Result<(), Fail> {
    let loopback = SocketAddr::from_str("127.0.0.1:514").or_else(|_| Err("no address"))?;
    let six = SocketAddr::from_str("[::1]:0").or_else(|_| Err("no address"))?;
    let words = ["serve", "d", "--udp", "127.0.0.1:514"];
    assert!(rt; listens(&rt, &words, &[ListenerWords::Udp(loopback)]));
    let words = [
        "serve",
        "--lf=[::1]:0",
        "--inherited",
        "lf",
        "--unix",
        "/dev/log",
        "--counted",
        "127.0.0.1:514",
        "--udp=[::1]:0",
        "d",
        "--inherited=udp",
        "--udp=127.0.0.1:514",
        "--inherited=counted",
    ];
    let listeners = [
        ListenerWords::Udp(six),
        ListenerWords::Udp(loopback),
        ListenerWords::Counted(loopback),
        ListenerWords::Lf(six),
        ListenerWords::Unix("/dev/log"),
        ListenerWords::Inherited(InheritedKind::Lf),
        ListenerWords::Inherited(InheritedKind::Udp),
        ListenerWords::Inherited(InheritedKind::Counted),
    ];
    assert!(rt; listens(&rt, &words, &listeners));
    Ok(())
}

#[test]
fn what_is_no_address_is_refused(rt: HostRuntime) -> Result<(), Fail> {
    for address in [
        "",
        "514",
        "localhost:514",
        "127.0.0.1",
        "127.0.0.1:",
        "127.0.0.1:65536",
        "127.0.0.01:514",
        "127.0.0.1:514 ",
        "::1:514",
        "[::1]",
        "[127.0.0.1]:514",
    ] {
        refuses_all(
            &rt,
            &[
                &["serve", "d", "--udp", address],
                &["serve", "d", "--counted", address],
                &["serve", "d", "--lf", address],
            ],
        )?;
    }
    refuses_all(
        &rt,
        &[
            &["serve", "d", "--inherited", ""],
            &["serve", "d", "--inherited", "unix"],
            &["serve", "d", "--inherited", "UDP"],
            &["serve", "d", "--inherited", "3"],
            &["serve", "d", "--unix", ""],
            &["serve", "d"],
            &["serve", "--unix", "p"],
            &["serve", "d", "e", "--unix", "p"],
        ],
    )
}

// what the server is to do
fn serves(rt: &HostRuntime, words: &[&str]) -> Option<ServeOptions> {
    match &asked(rt, words) {
        Ok(Request::Serve { words: found }) => Some(found.options),
        _ => None,
    }
}

#[test]
fn serve_has_limits(rt: HostRuntime) -> Result<(), Fail> {
    let mut options = ServeOptions {
        connections: 1024,
        per_peer: 256,
        idle_seconds: None,
        commit_millis: 1000,
        checkpoint_mib: 64,
        metrics: None,
        rate: None,
        until_eof: false,
        reading: FrameReading::from(None),
    };
    assert!(rt; serves(&rt, &["serve", "d", "--unix", "p"]) == Some(options));
    options.connections = 16_384;
    options.per_peer = 16_384;
    options.idle_seconds = Some(1);
    options.commit_millis = 0;
    options.checkpoint_mib = 1;
    options.metrics = SocketAddr::from_str("[::1]:9514").ok();
    options.rate = Some(1_000_000);
    options.until_eof = true;
    options.reading.trim = true;
    options.reading.clock = LegacyClock::new(2001, 0);
    let words = [
        "serve",
        "d",
        "--unix=p",
        "--connections=16384",
        "--per-peer=16384",
        "--idle=1",
        "--commit=0",
        "--checkpoint=1",
        "--metrics=[::1]:9514",
        "--rate=1000000",
        "--until-eof",
        "--trim",
        "--legacy=2001",
    ];
    assert!(rt; serves(&rt, &words) == Some(options));
    for word in [
        "--connections=0",
        "--connections=16385",
        "--per-peer=1025",
        "--idle=0",
        "--idle=31536001",
        "--idle=",
        "--commit=-1",
        "--commit=3600001",
        "--checkpoint=0",
        "--checkpoint=2049",
        "--metrics=9514",
        "--metrics=",
        "--rate=0",
        "--rate=1000001",
        "--until-eof=true",
        "--dialect=x",
        "--summary",
    ] {
        refuses_all(&rt, &[&["serve", "d", "--unix", "p", word]])?;
    }
    Ok(())
}

// how many networks may send
fn allows(rt: &HostRuntime, words: &[&str]) -> Option<usize> {
    match &asked(rt, words) {
        Ok(Request::Serve { words: found }) => Some(found.allowed.len()),
        _ => None,
    }
}

#[test]
fn serve_takes_networks_that_may_send(rt: HostRuntime) -> Result<(), Fail> {
    let words = [
        "serve",
        "d",
        "--unix=p",
        "--allow",
        "192.0.2.1",
        "--allow=192.0.2.0/24",
        "--allow=2001:db8::/32",
    ];
    assert_eq!(rt; allows(&rt, &words), Some(3));
    assert_eq!(rt; allows(&rt, &words[..3]), Some(0));
    for network in [
        "",
        "localhost",
        "192.0.2.0/33",
        "192.0.2.1/24",
        "::/129",
        "::1/0",
    ] {
        refuses_all(&rt, &[&["serve", "d", "--unix", "p", "--allow", network]])?;
    }
    Ok(())
}
