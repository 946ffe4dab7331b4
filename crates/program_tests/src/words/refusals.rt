//! What is told in place of a request.

use crate::words::{asked, refuses};
use command_line::WordsFault;

// whether this text is told in place of a request
fn tells(rt: &HostRuntime, words: &[&str], text: &str) -> bool {
    match &asked(rt, words) {
        Err(WordsFault::Usage(told)) => told.as_str() == text,
        _ => false,
    }
}

#[test]
fn the_version_is_a_text(rt: HostRuntime) {
    assert!(rt; tells(&rt, &["--version"], "syslogbox 0.13.0\n"));
    assert!(rt; tells(&rt, &["-V"], "syslogbox 0.13.0\n"));
}

// whether a text that holds this is told, since the words ask for it
fn helps(rt: &HostRuntime, words: &[&str], part: &str) -> bool {
    match &asked(rt, words) {
        Err(WordsFault::Help(told)) => told.as_str().contains(part),
        _ => false,
    }
}

#[test]
fn a_command_has_help_and_the_version(rt: HostRuntime) {
    assert!(rt; helps(&rt, &["check", "--help"], "--summary"));
    assert!(rt; helps(&rt, &["check", "--summary", "-h"], "--summary"));
    assert!(rt; helps(&rt, &["serve", "--version"], "0.13.0\n"));
    assert!(rt; helps(&rt, &["root", "-V"], "0.13.0\n"));
    let rows: [&[&str]; 5] = [
        &["--help"],
        &["-h"],
        &["help"],
        &["help", "check"],
        &["no-command", "--help"],
    ];
    for words in rows {
        assert!(rt; refuses(&rt, words), "{words:?}");
    }
}

const REFUSED_COUNTS: [(&[&str], &str); 5] = [
    (
        &["count", "--by", "host,x", "--top=0"],
        "error: invalid value 'host,x' for --by: expected one or more of host, app, proc, msgid, \
        facility, severity, day, hour and minute, with commas between them\n",
    ),
    (
        &["count", "--top=0", "--json", "--bars"],
        "error: invalid value '0' for --top: expected a number from 1 to 4294967295\n",
    ),
    (
        &["count", "--json", "--bars"],
        "error: --bars cannot be used with --json\n",
    ),
    (
        &["confirm", "x", "y", "f"],
        "error: invalid value 'x' for COUNT: expected a number from 0 to 18446744073709551615\n",
    ),
    (
        &["confirm", "1", "y", "f"],
        "error: invalid value 'y' for ROOT: expected 64 hexadecimal digits\n",
    ),
];

// words whose values are not all taken, and the text that names the first such option
const REFUSED_FRAMES: [(&[&str], &str); 9] = [
    (
        &["check", "--framing", "xx"],
        "error: invalid value 'xx' for --framing: expected datagram, counted or lf\n",
    ),
    (
        &["show", "--zone", "E1", "--framing", ""],
        "error: invalid value '' for --framing: expected datagram, counted or lf\n",
    ),
    (
        &["check", "--dialect=x", "--legacy=9999", "--zone=0"],
        "error: invalid value '9999' for --legacy: expected a year from 1 to 9998\n",
    ),
    (
        &["check", "--dialect=x", "--zone=E2400"],
        "error: invalid value 'E2400' for --zone: expected E or W, then hours and minutes in two \
        digits each, such as E0130\n",
    ),
    (
        &["archive", "--memory=0", "--dialect=Wide"],
        "error: invalid value 'Wide' for --dialect: expected bsd or wide\n",
    ),
    (
        &["archive", "--memory", "1048577"],
        "error: invalid value '1048577' for --memory: expected a number from 1 to 1048576\n",
    ),
    (
        &["convert", "--to", "datagram"],
        "error: invalid value 'datagram' for --to: expected counted or lf\n",
    ),
    (
        &["convert", "--to=x", "--legacy=0"],
        "error: invalid value '0' for --legacy: expected a year from 1 to 9998\n",
    ),
    (
        &["digest", "--by", "week"],
        "error: invalid value 'week' for --by: expected month, day or hour\n",
    ),
];

const REFUSED_TIMES: [(&[&str], &str); 11] = [
    (&["seal", "d"], "error: seal needs a time: --before\n"),
    (
        &["expire", "d", "--undated"],
        "error: expire needs one of --before, --keep and --room\n",
    ),
    (
        &["expire", "d", "--room=1", "--keep=2"],
        "error: --room cannot be used with --keep\n",
    ),
    (
        &["expire", "d", "--keep=2", "--room=0"],
        "error: invalid value '0' for --room: expected a number from 1 to 16777216\n",
    ),
    (
        &["select", "--to=-", "--facility=x"],
        "error: invalid value '-' for --to: expected a time in the years 0 to 9999 of UTC, such \
        as 2026-11-25T10:00:00Z, 2026-11-25T10:00 or 2026-11-25\n",
    ),
    (
        &["read", "d", "--to=now", "--from=then"],
        "error: invalid value 'then' for --from: expected a time in the years 0 to 9999 of UTC, such \
        as 2026-11-25T10:00:00Z, 2026-11-25T10:00 or 2026-11-25\n",
    ),
    (
        &["select", "--severity", "error", "--facility", "x"],
        "error: invalid value 'error' for --severity: expected emerg, alert, crit, err, warning, \
        notice, info or debug\n",
    ),
    (
        &["select", "--severity=err", "--facility=LOCAL7"],
        "error: invalid value 'LOCAL7' for --facility: expected kern, user, mail, daemon, auth, \
        syslog, lpr, news, uucp, cron, authpriv, ftp, ntp, audit, alert, clock or local0 to \
        local7\n",
    ),
    (
        &["select", "--only-undated", "--from=2026-11-25T10:00:00Z"],
        "error: --only-undated cannot be used with --from\n",
    ),
    (
        &["select", "--only-undated", "--to=2026-11-25T10:00:00Z"],
        "error: --only-undated cannot be used with --to\n",
    ),
    (
        &[
            "select",
            "--only-undated",
            "--to=",
            "--from=2026-11-25T10:00:00Z",
        ],
        "error: invalid value '' for --to: expected a time in the years 0 to 9999 of UTC, such \
        as 2026-11-25T10:00:00Z, 2026-11-25T10:00 or 2026-11-25\n",
    ),
];

const REFUSED_CONDITIONS: [(&[&str], &str); 7] = [
    (
        &["select", "--app=c", "--host", "a b"],
        "error: invalid value 'a b' for --host: expected 1 to 255 printable ASCII characters \
        without spaces, or - for none\n",
    ),
    (
        &["select", "--not-app", ""],
        "error: invalid value '' for --not-app: expected 1 to 48 printable ASCII characters \
        without spaces, or - for none\n",
    ),
    (
        &["select", "--id=a", "--id=a=b"],
        "error: invalid value 'a=b' for --id: expected 1 to 32 printable ASCII characters without \
        spaces, =, ] and \"\n",
    ),
    (
        &["select", "--message="],
        "error: invalid value '' for --message: expected a text that is not empty\n",
    ),
    (
        &["select", "--host-like="],
        "error: invalid value '' for --host-like: expected 1 to 1024 octets, of which * stands for \
        any number of others and ? for one\n",
    ),
    (
        &["select", "--facility=kern", "--facility=x"],
        "error: invalid value 'x' for --facility: expected kern, user, mail, daemon, auth, syslog, \
        lpr, news, uucp, cron, authpriv, ftp, ntp, audit, alert, clock or local0 to local7\n",
    ),
    (
        &["select", "--not-message=", "--host=", "--only-undated"],
        "error: invalid value '' for --host: expected 1 to 255 printable ASCII characters without \
        spaces, or - for none\n",
    ),
];

const REFUSED_SOCKETS: [(&[&str], &str); 17] = [
    (
        &["collect", "tcp", "0", "0"],
        "error: invalid value 'tcp' for TRANSPORT: expected udp, counted or lf\n",
    ),
    (
        &["collect", "udp", "65536", "0"],
        "error: invalid value '65536' for PORT: expected a number from 1 to 65535\n",
    ),
    (
        &["collect", "udp", "514", "1000001"],
        "error: invalid value '1000001' for COUNT: expected a number from 1 to 1000000\n",
    ),
    (
        &["collect", "lf", "514", "100001", "--legacy=x"],
        "error: invalid value '100001' for COUNT: expected a number from 1 to 100000\n",
    ),
    (
        &["collect", "lf", "514", "1", "--legacy=x"],
        "error: invalid value 'x' for --legacy: expected a year from 1 to 9998\n",
    ),
    (
        &["serve", "d"],
        "error: serve needs a listener: --udp, --counted, --lf, --unix or --inherited\n",
    ),
    (
        &["serve", "d", "--idle=0", "--udp=[::1]:514", "--udp=514"],
        "error: invalid value '514' for --udp: expected an address and a port, such as 127.0.0.1:514 \
        or [::1]:514\n",
    ),
    (
        &["serve", "d", "--lf=::1:514", "--counted=localhost:514"],
        "error: invalid value 'localhost:514' for --counted: expected an address and a port, such as \
        127.0.0.1:514 or [::1]:514\n",
    ),
    (
        &["serve", "d", "--lf", ""],
        "error: invalid value '' for --lf: expected an address and a port, such as 127.0.0.1:514 or \
        [::1]:514\n",
    ),
    (
        &["serve", "d", "--inherited=lf", "--inherited=unix"],
        "error: invalid value 'unix' for --inherited: expected udp, counted or lf\n",
    ),
    (
        &["serve", "d", "--connections=16385"],
        "error: invalid value '16385' for --connections: expected a number from 1 to 16384\n",
    ),
    (
        &[
            "serve",
            "d",
            "--unix=p",
            "--commit=3600001",
            "--idle=31536001",
        ],
        "error: invalid value '31536001' for --idle: expected a number from 1 to 31536000\n",
    ),
    (
        &[
            "serve",
            "d",
            "--unix=p",
            "--commit=3600001",
            "--checkpoint=0",
        ],
        "error: invalid value '3600001' for --commit: expected a number from 0 to 3600000\n",
    ),
    (
        &["serve", "d", "--unix=p", "--dialect=x", "--checkpoint=2049"],
        "error: invalid value '2049' for --checkpoint: expected a number from 1 to 2048\n",
    ),
    (
        &["serve", "d", "--unix=p", "--metrics=localhost:9514"],
        "error: invalid value 'localhost:9514' for --metrics: expected an address and a port, such as \
        127.0.0.1:514 or [::1]:514\n",
    ),
    (
        &["serve", "d", "--per-peer=20", "--connections=10"],
        "error: the value of --per-peer is greater than that of --connections\n",
    ),
    (
        &["serve", "d", "--unix="],
        "error: invalid value '' for --unix: expected the name of a file\n",
    ),
];

const REFUSED_SITES: [(&[&str], &str); 4] = [
    (
        &["reconcile", "d", "--room=0", "--to=x", "--from=-1h"],
        "error: invalid value '-1h' for --from: expected a time in the years 0 to 9999 of UTC, such \
        as 2026-11-25T10:00:00Z, 2026-11-25T10:00 or 2026-11-25\n",
    ),
    (
        &["reconcile", "d", "--timeout=0", "--room=1048577"],
        "error: invalid value '1048577' for --room: expected a number from 1 to 1048576\n",
    ),
    (
        &["reconcile", "d", "--timeout=86401"],
        "error: invalid value '86401' for --timeout: expected a number from 1 to 86400\n",
    ),
    (
        &["answer", "d", "--timeout=0", "--room=-1"],
        "error: invalid value '-1' for --room: expected a number from 1 to 1048576\n",
    ),
];

const UNKNOWN_OPTIONS: [(&[&str], &str); 3] = [
    (
        &["serve", "d", "--tcp", "127.0.0.1:514"],
        "error: unexpected argument '--tcp' found\n\nUsage: syslogbox serve <DIR>\n\nFor more \
        information, try '--help'.\n",
    ),
    (
        &["verify", "--lf"],
        "error: unexpected argument '--lf' found\n\nUsage: syslogbox verify [OPTIONS] <DIR>\n\nFor \
        more information, try '--help'.\n",
    ),
    (
        &["verify", "-d"],
        "error: unexpected argument '-d' found\n\nUsage: syslogbox verify [OPTIONS] <DIR>\n\nFor \
        more information, try '--help'.\n",
    ),
];

#[test]
fn no_tip_takes_an_option_for_a_value(rt: HostRuntime) {
    for (words, text) in UNKNOWN_OPTIONS {
        assert!(rt; tells(&rt, words, text));
    }
}

#[test]
fn the_first_option_that_is_refused_is_named(rt: HostRuntime) {
    for (words, text) in REFUSED_FRAMES {
        assert!(rt; tells(&rt, words, text));
    }
    for (words, text) in REFUSED_COUNTS {
        assert!(rt; tells(&rt, words, text));
    }
    for (words, text) in REFUSED_TIMES {
        assert!(rt; tells(&rt, words, text));
    }
    for (words, text) in REFUSED_CONDITIONS {
        assert!(rt; tells(&rt, words, text));
    }
    for (words, text) in REFUSED_SOCKETS {
        assert!(rt; tells(&rt, words, text));
    }
    for (words, text) in REFUSED_SITES {
        assert!(rt; tells(&rt, words, text));
    }
}
