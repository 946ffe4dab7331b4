//! `collect`, over the sockets of the system.

ghost use Rattle.std.specs.Prelude.{◌≤◌};

use collect_engine::{CollectWords, TcpSource, Transport, UdpSource, run_collect};
use driver::{FAULT, report};
use octet_devices::Output;
use std::alloc::Global;
use std::net::{TcpListener, UdpSocket};
use syslog_frame::Framing;

// the one address that is bound
const LOOPBACK: &str = "127.0.0.1";

// Collects what comes over connections.
fn collect_streams<W: Output, N: Output>(
    rt: &HostRuntime,
    alloc: Global,
    words: &CollectWords,
    framing: Framing,
    output: &mut W,
    diagnostics: &mut N,
) -> u8
    ensures known { result ≤ 3 }
{
    let Ok(listener) = TcpListener::bind(rt, (LOOPBACK, words.port)) else {
        return report(diagnostics, b"socket fault\n", FAULT);
    };
    let mut source = TcpSource::new(listener, framing, words.count);
    run_collect(alloc, words, &mut source, output, diagnostics)
}

// Collects datagrams.
fn collect_datagrams<W: Output, N: Output>(
    rt: &HostRuntime,
    alloc: Global,
    words: &CollectWords,
    output: &mut W,
    diagnostics: &mut N,
) -> u8
    ensures known { result ≤ 3 }
{
    let Ok(socket) = UdpSocket::bind(rt, (LOOPBACK, words.port)) else {
        return report(diagnostics, b"socket fault\n", FAULT);
    };
    let mut source = UdpSource::new(socket, words.count);
    run_collect(alloc, words, &mut source, output, diagnostics)
}

/// Binds a socket and writes what comes to it as an archive. Returns the exit status; if the socket
/// cannot be bound, that of a fault.
pub fn collect<W: Output, N: Output>(
    rt: &HostRuntime,
    alloc: Global,
    words: &CollectWords,
    output: &mut W,
    diagnostics: &mut N,
) -> u8
    ensures known { result ≤ 3 }
{
    match words.transport {
        Transport::Udp => collect_datagrams(rt, alloc, words, output, diagnostics),
        Transport::Counted => collect_streams(
            rt,
            alloc,
            words,
            Framing::Counted,
            output,
            diagnostics,
        ),
        Transport::Lf => collect_streams(rt, alloc, words, Framing::Lf, output, diagnostics),
    }
}
