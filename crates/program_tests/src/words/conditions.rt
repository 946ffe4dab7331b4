//! Conditions on records.

use crate::words::{asked, refuses, refuses_all};
use archive_sets::{FieldTest, InRange, Times, WordField};
use command_line::Request;
use std::test::Fail;
use syslog_value::{Facility, Instant, Severity};

// whether these are the tests that `select` is given: one of each of the lists, and none of the others
fn selects(
    rt: &HostRuntime,
    words: &[&str],
    any: &[&[FieldTest<'_>]],
    none: &[FieldTest<'_>],
) -> bool {
    let Ok(Request::Select { conditions }) = &asked(rt, words) else {
        return false;
    };
    let mut same = conditions.any.len() == any.len() && conditions.none.as_slice() == none;
    for (found, asked) in conditions.any.iter().zip(any) {
        same = same && found.as_slice() == *asked;
    }
    same
}

// whether `select` is given these times
fn selects_times(rt: &HostRuntime, words: &[&str], times: Times) -> bool {
    match &asked(rt, words) {
        Ok(Request::Select { conditions }) => conditions.times == times,
        _ => false,
    }
}

// a range of microseconds
fn range(from: Option<i64>, to: Option<i64>, undated: bool) -> Times {
    Times::Range(InRange {
        from: from.and_then(Instant::from_micros),
        to: to.and_then(Instant::from_micros),
        undated,
    })
}

// whether `select` with these words takes this range of times
fn selects_range(
    rt: &HostRuntime,
    words: &[&str],
    from: Option<i64>,
    to: Option<i64>,
    undated: bool,
) -> bool {
    selects_times(rt, words, range(from, to, undated))
}

#[test]
fn select_takes_times(rt: HostRuntime) {
    let midnight = Some(1_795_564_800_000_000);
    let then = Some(1_795_600_800_000_000);
    let last = Some(253_402_300_799_999_999);
    let rows: [(&[&str], Option<i64>, Option<i64>, bool); 7] = [
        (&["select"], None, None, false),
        (
            &["select", "--from", "2026-11-25T10:00:00Z"],
            then,
            None,
            false,
        ),
        (
            &[
                "select",
                "--to=9999-12-31T23:59:59.999999Z",
                "--from=2026-11-25T07:00:00.000000-03:00",
                "--undated",
            ],
            then,
            last,
            true,
        ),
        (&["select", "--from", "2026-11-25T10:00"], then, None, false),
        (
            &["select", "--from", "2026-11-25T10:00:00"],
            then,
            None,
            false,
        ),
        (
            &["select", "--from", "2026-11-25T10:00:00.000000"],
            then,
            None,
            false,
        ),
        (&["select", "--from", "2026-11-25"], midnight, None, false),
    ];
    for (words, from, to, undated) in rows {
        assert!(rt; selects_range(&rt, words, from, to, undated), "{words:?}");
    }
}

#[test]
fn select_takes_records_without_a_time(rt: HostRuntime) {
    let rows: [&[&str]; 2] = [
        &["select", "--only-undated"],
        &["select", "--undated", "--only-undated"],
    ];
    for words in rows {
        assert!(rt; selects_times(&rt, words, Times::Undated), "{words:?}");
    }
}

#[test]
fn other_times_are_refused(rt: HostRuntime) -> Result<(), Fail> {
    for time in [
        "-",
        "",
        "2026-11",
        "2026-11-25T10",
        "2026-11-25T10:00Z",
        "2026-11-25T10:00:00+03",
        "2026-11-25 10:00",
        "2026-11-25T24:00",
        "2026-02-29",
        "2026-11-25T10:00:00z",
        "2026-11-25T10:00:00Z ",
        "2026-11-25T10:00:00.1234567Z",
        "2026-11-25T10:00:00.000000+03:00Z",
        "2026-11-31T10:00:00Z",
        "0000-01-01T00:00:00+00:01",
        "9999-12-31T23:59:59-00:01",
    ] {
        refuses_all(
            &rt,
            &[&["select", "--from", time], &["select", "--to", time]],
        )?;
    }
    let time = "2026-11-25T10:00:00Z";
    refuses_all(
        &rt,
        &[
            &["select", "--only-undated", "--from", time],
            &["select", "--to", time, "--only-undated"],
            &["select", "--to", time, "--to", time],
            &["select", "--undated", "--undated"],
        ],
    )
}

#[test]
fn select_takes_fields(rt: HostRuntime) -> Result<(), Fail> {
    assert!(rt; selects(&rt, &["select"], &[], &[]));
    let words = [
        "select",
        "--id=a@1",
        "--host",
        "-",
        "--app=-x",
        "--proc",
        "7",
        "--severity",
        "err",
        "--msgid",
        "m",
        "--facility=local7",
    ];
    let any: [&[FieldTest<'_>]; 7] = [
        &[FieldTest::AsSevereAs(Severity::Error)],
        &[FieldTest::OfFacility(Facility::Local7)],
        &[FieldTest::Word(WordField::Hostname, None)],
        &[FieldTest::Word(WordField::AppName, Some(b"-x"))],
        &[FieldTest::Word(WordField::ProcId, Some(b"7"))],
        &[FieldTest::Word(WordField::MsgId, Some(b"m"))],
        &[FieldTest::Element(b"a@1")],
    ];
    assert!(rt; selects(&rt, &words, &any, &[]));
    refuses_all(
        &rt,
        &[
            &["select", "--severity", "error"],
            &["select", "--facility", "LOCAL7"],
            &["select", "--trim", "--id=a"],
            &["select", "--id=a", "b"],
            &["select", "--severity=err", "--severity=err"],
        ],
    )
}

#[test]
fn values_of_an_option_mean_any_of_them_or_none(rt: HostRuntime) {
    let words = [
        "select",
        "--not-app",
        "c",
        "--host=a",
        "--not-host=h",
        "--message",
        "x y",
        "--host=b",
        "--not-message=\u{e4}",
        "--host-like",
        "fw-*",
        "--not-host",
        "-",
        "--host-like=??",
        "--app-like=*d",
    ];
    let any: [&[FieldTest<'_>]; 4] = [
        &[
            FieldTest::Word(WordField::Hostname, Some(b"a")),
            FieldTest::Word(WordField::Hostname, Some(b"b")),
        ],
        &[FieldTest::Message(b"x y")],
        &[
            FieldTest::WordLike(WordField::Hostname, b"fw-*"),
            FieldTest::WordLike(WordField::Hostname, b"??"),
        ],
        &[FieldTest::WordLike(WordField::AppName, b"*d")],
    ];
    let none = [
        FieldTest::Word(WordField::Hostname, Some(b"h")),
        FieldTest::Word(WordField::Hostname, None),
        FieldTest::Word(WordField::AppName, Some(b"c")),
        FieldTest::Message(b"\xc3\xa4"),
    ];
    assert!(rt; selects(&rt, &words, &any, &none));
}

// A text of 1,025 octets.
const LONG: [u8; 1_025] = [b'w'; 1_025];

// whether an option takes a text of so many octets, and none that is longer
fn takes_up_to(rt: &HostRuntime, option: &str, most: usize) -> bool {
    let (Ok(longest), Ok(longer)) = (
        str::from_utf8(&LONG[..most.min(LONG.len())]),
        str::from_utf8(&LONG[..most.saturating_add(1).min(LONG.len())]),
    ) else {
        return false;
    };
    !refuses(rt, &["select", option, longest]) && refuses(rt, &["select", option, longer])
}

#[test]
fn words_that_no_record_can_have_are_refused(rt: HostRuntime) -> Result<(), Fail> {
    for (option, most) in [
        ("--host", 255),
        ("--app", 48),
        ("--proc", 128),
        ("--msgid", 32),
        ("--id", 32),
        ("--host-like", 1_024),
        ("--app-like", 1_024),
        ("--not-host", 255),
        ("--not-app", 48),
    ] {
        assert!(rt; takes_up_to(&rt, option, most), "{option}");
        refuses_all(&rt, &[&["select", option, ""]])?;
    }
    for option in [
        "--host",
        "--app",
        "--proc",
        "--msgid",
        "--id",
        "--not-host",
        "--not-app",
    ] {
        refuses_all(
            &rt,
            &[
                &["select", option, "a b"],
                &["select", option, "\u{7f}"],
                &["select", option, "\u{e4}"],
                &["select", option, "a\n"],
            ],
        )?;
    }
    refuses_all(
        &rt,
        &[
            &["select", "--id", "a=b"],
            &["select", "--id", "a]"],
            &["select", "--id", "\"a\""],
            &["select", "--message", ""],
            &["select", "--host=a", "--not-message", ""],
        ],
    )?;
    assert!(rt; !refuses(&rt, &["select", "--message", "a b", "--host-like", "a b"]));
    Ok(())
}
