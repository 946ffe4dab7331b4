//! What `collect` takes.

use collect_engine::{CollectWords, Transport};
use command_line::collect_words;
use syslog_legacy::{FrameReading, LegacyClock};

// what `collect` takes
fn collected(rt: &HostRuntime, words: &[&str]) -> Result<Option<CollectWords>, u8> {
    collect_words(rt.alloc(), words)
}

#[test]
fn collect_takes_a_transport_a_port_and_a_count(rt: HostRuntime) {
    let udp = CollectWords {
        transport: Transport::Udp,
        port: 514,
        count: 2,
        reading: FrameReading::from(None),
    };
    let counted = CollectWords {
        transport: Transport::Counted,
        port: 65_535,
        count: 100_000,
        reading: FrameReading::from(None),
    };
    let mut many = udp;
    many.count = 1_000_000;
    let mut lines = counted;
    lines.transport = Transport::Lf;
    lines.reading.clock = LegacyClock::new(2001, -300);
    let mut trimmed = counted;
    trimmed.reading.trim = true;
    let rows: [(&[&str], CollectWords); 5] = [
        (&["collect", "udp", "514", "2"], udp),
        (&["collect", "udp", "514", "1000000"], many),
        (
            &[
                "collect", "lf", "65535", "100000", "--legacy", "2001", "--zone", "W0500",
            ],
            lines,
        ),
        (&["collect", "counted", "65535", "100000"], counted),
        (
            &["collect", "counted", "65535", "100000", "--trim"],
            trimmed,
        ),
    ];
    for (words, taken) in rows {
        assert!(rt; collected(&rt, words) == Ok(Some(taken)), "{words:?}");
    }
}

#[test]
fn other_values_of_collect_are_refused(rt: HostRuntime) {
    let rows: [(&[&str], Result<Option<CollectWords>, u8>); 11] = [
        (&["collect", "udp", "0", "2"], Err(2)),
        (&["collect", "udp", "65536", "2"], Err(2)),
        (&["collect", "udp", "514", "0"], Err(2)),
        (&["collect", "udp", "514", "1000001"], Err(2)),
        (&["collect", "lf", "514", "100001"], Err(2)),
        (&["collect", "tcp", "514", "2"], Err(2)),
        (&["collect", "udp", "514", "2", "--zone", "E1"], Err(2)),
        (&["collect", "udp", "514"], Err(2)),
        (&["--version"], Err(2)),
        (&["archive"], Ok(None)),
        (&["check", "--legacy", "0"], Ok(None)),
    ];
    for (words, answer) in rows {
        assert!(rt; collected(&rt, words) == answer, "{words:?}");
    }
}
