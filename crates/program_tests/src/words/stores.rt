//! Commands on stores.

use crate::words::{asked, refuses_all};
use command_line::{ExpireBound, ExpireWords, Request};
use std::test::Fail;
use syslog_value::Instant;

#[test]
fn a_store_is_compacted(rt: HostRuntime) -> Result<(), Fail> {
    let asked = asked(&rt, &["compact", "d"]);
    assert!(rt; matches!(asked, Ok(Request::Compact { dir: "d" })));
    refuses_all(&rt, &[&["compact"], &["compact", "d", "e"]])
}

#[test]
fn the_files_of_a_store_are_listed(rt: HostRuntime) -> Result<(), Fail> {
    let asked = asked(&rt, &["stat", "d"]);
    assert!(rt; matches!(asked, Ok(Request::Stat { dir: "d" })));
    refuses_all(
        &rt,
        &[&["stat"], &["stat", "d", "e"], &["stat", "d", "--json"]],
    )
}

#[test]
fn a_store_is_verified(rt: HostRuntime) -> Result<(), Fail> {
    let plain = asked(&rt, &["verify", "--", "-d"]);
    assert!(rt;
        matches!(
            plain,
            Ok(Request::Verify {
                dir: "-d",
                against: None
            })
        )
    );
    let against = asked(&rt, &["verify", "d", "--against", "1 a line"]);
    assert!(rt;
        matches!(
            against,
            Ok(Request::Verify {
                dir: "d",
                against: Some("1 a line")
            })
        )
    );
    refuses_all(
        &rt,
        &[
            &["verify"],
            &["verify", "d", "e"],
            &["verify", "d", "--undated"],
            &["verify", "d", "--against"],
            &["verify", "d", "--against", "a", "--against", "b"],
        ],
    )
}

// whether `seal` with these words takes the folder `d` and this time
fn seals(rt: &HostRuntime, words: &[&str], time: Instant) -> bool {
    match &asked(rt, words) {
        Ok(Request::Seal { dir, before }) => *dir == "d" && *before == time,
        _ => false,
    }
}

#[test]
fn days_are_sealed(rt: HostRuntime) -> Result<(), Fail> {
    let Some(then) = Instant::from_micros(1_795_600_800_000_000) else {
        return Ok(());
    };
    let words = ["seal", "d", "--before", "2026-11-25T10:00:00Z"];
    assert!(rt; seals(&rt, &words, then));
    refuses_all(
        &rt,
        &[
            &["seal"],
            &["seal", "d"],
            &["seal", "d", "--before", "-"],
            &["seal", "d", "--keep", "90"],
            &["seal", "d", "--before", "2026-11-25", "--undated"],
        ],
    )
}

#[test]
fn records_are_added(rt: HostRuntime) -> Result<(), Fail> {
    let asked = asked(&rt, &["add", "d"]);
    assert!(rt; matches!(asked, Ok(Request::Add { dir: "d" })));
    refuses_all(
        &rt,
        &[&["add"], &["add", "d", "e"], &["add", "d", "--undated"]],
    )
}

// whether `expire` with these words takes the folder `d` and this
fn expires(rt: &HostRuntime, words: &[&str], asked_for: &ExpireWords) -> bool {
    match &asked(rt, words) {
        Ok(Request::Expire { dir, words }) => *dir == "d" && words == asked_for,
        _ => false,
    }
}

#[test]
fn old_records_are_removed(rt: HostRuntime) -> Result<(), Fail> {
    let Some(then) = Instant::from_micros(1_795_600_800_000_000) else {
        return Ok(());
    };
    let before = ExpireWords {
        bound: ExpireBound::Before(then),
        undated: false,
        dry_run: false,
    };
    let keep = ExpireWords {
        bound: ExpireBound::Keep { days: 90 },
        undated: true,
        dry_run: true,
    };
    let room = ExpireWords {
        bound: ExpireBound::Room { mib: 16_777_216 },
        undated: false,
        dry_run: true,
    };
    let rows: [(&[&str], ExpireWords); 3] = [
        (&["expire", "d", "--before", "2026-11-25T10:00:00Z"], before),
        (
            &["expire", "--undated", "--keep=90", "--dry-run", "d"],
            keep,
        ),
        (&["expire", "d", "--room", "16777216", "--dry-run"], room),
    ];
    for (words, asked_for) in rows {
        assert!(rt; expires(&rt, words, &asked_for), "{words:?}");
    }
    refuses_all(
        &rt,
        &[
            &["expire"],
            &["expire", "d"],
            &["expire", "d", "--keep", "0"],
            &["expire", "d", "--keep", "36501"],
            &["expire", "d", "--before", "-"],
            &["expire", "d", "--before", "2026-11-25", "--keep", "90"],
            &["expire", "d", "--keep", "90", "--keep", "91"],
            &["expire", "d", "--room", "0"],
            &["expire", "d", "--room", "16777217"],
            &["expire", "d", "--room", "1", "--keep", "90"],
            &["expire", "d", "--room", "1", "--before", "2026-11-25"],
            &[
                "expire",
                "d",
                "--room",
                "1",
                "--keep",
                "90",
                "--before",
                "2026-11-25",
            ],
        ],
    )
}
