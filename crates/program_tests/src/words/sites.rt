//! Commands on two stores.

use crate::words::{asked, refuses_all};
use archive_sets::InRange;
use command_line::{AnswerWords, ReconcileWay, ReconcileWords, Request};
use std::test::Fail;
use syslog_value::Instant;

// what `reconcile` does where no option says it
const PLAIN: ReconcileWords = ReconcileWords {
    range: InRange {
        from: None,
        to: None,
        undated: false,
    },
    way: ReconcileWay::Both,
    dry_run: false,
    room_mib: 1_024,
    timeout_seconds: 60,
};

// whether `reconcile` with these words takes the folder `d` and this
fn reconciles(rt: &HostRuntime, words: &[&str], asked_for: &ReconcileWords) -> bool {
    match &asked(rt, words) {
        Ok(Request::Reconcile { dir, words }) => *dir == "d" && words == asked_for,
        _ => false,
    }
}

#[test]
fn a_store_is_reconciled(rt: HostRuntime) -> Result<(), Fail> {
    let mut ranged = PLAIN;
    ranged.range.from = Instant::from_micros(1_795_564_800_000_000);
    ranged.range.to = Instant::from_micros(1_795_600_800_000_000);
    let mut undated = ranged;
    undated.range.undated = true;
    let mut compared = PLAIN;
    compared.dry_run = true;
    let mut bounded = PLAIN;
    bounded.room_mib = 1_048_576;
    bounded.timeout_seconds = 86_400;
    let mut least = PLAIN;
    least.room_mib = 1;
    least.timeout_seconds = 1;
    let rows: [(&[&str], ReconcileWords); 6] = [
        (&["reconcile", "d"], PLAIN),
        (
            &[
                "reconcile",
                "d",
                "--from=2026-11-25",
                "--to",
                "2026-11-25T10:00",
            ],
            ranged,
        ),
        (
            &[
                "reconcile",
                "--undated",
                "--to=2026-11-25T10:00:00Z",
                "--from",
                "2026-11-25",
                "d",
            ],
            undated,
        ),
        (&["reconcile", "d", "--dry-run"], compared),
        (
            &["reconcile", "d", "--room=1048576", "--timeout", "86400"],
            bounded,
        ),
        (&["reconcile", "d", "--room", "1", "--timeout=1"], least),
    ];
    for (words, asked_for) in rows {
        assert!(rt; reconciles(&rt, words, &asked_for), "{words:?}");
    }
    refuses_all(
        &rt,
        &[
            &["reconcile"],
            &["reconcile", "d", "e"],
            &["reconcile", "d", "--from", "-"],
            &["reconcile", "d", "--from=2026-11-25", "--from=2026-11-25"],
            &["reconcile", "d", "--only-undated"],
            &["reconcile", "d", "--sealed"],
            &["reconcile", "d", "--read-only"],
            &["reconcile", "d", "--room=0"],
            &["reconcile", "d", "--timeout=86401"],
            &["reconcile", "d", "--dry-run=yes"],
        ],
    )
}

// which way `reconcile` with these words goes, and whether it pulls and pushes
fn way(rt: &HostRuntime, words: &[&str]) -> Option<(ReconcileWay, bool, bool)> {
    match &asked(rt, words) {
        Ok(Request::Reconcile { dir: _, words }) => {
            Some((words.way, words.way.pulls(), words.way.pushes()))
        }
        _ => None,
    }
}

#[test]
fn records_cross_one_way_or_both(rt: HostRuntime) {
    let both = (ReconcileWay::Both, true, true);
    let pull = (ReconcileWay::Pull, true, false);
    let push = (ReconcileWay::Push, false, true);
    let rows: [(&[&str], (ReconcileWay, bool, bool)); 4] = [
        (&["reconcile", "d"], both),
        (&["reconcile", "--pull", "d", "--push"], both),
        (&["reconcile", "d", "--pull"], pull),
        (&["reconcile", "d", "--push"], push),
    ];
    for (words, expected) in rows {
        assert_eq!(rt; way(&rt, words), Some(expected), "{words:?}");
    }
}

// whether `answer` with these words takes the folder `d` and this
fn answers(rt: &HostRuntime, words: &[&str], asked_for: &AnswerWords) -> bool {
    match &asked(rt, words) {
        Ok(Request::Answer { dir, words }) => *dir == "d" && words == asked_for,
        _ => false,
    }
}

#[test]
fn another_site_is_answered(rt: HostRuntime) -> Result<(), Fail> {
    let plain = AnswerWords {
        read_only: false,
        room_mib: 1_024,
        timeout_seconds: 60,
    };
    let mut closed = plain;
    closed.read_only = true;
    let mut bounded = plain;
    bounded.room_mib = 16;
    bounded.timeout_seconds = 3_600;
    let rows: [(&[&str], AnswerWords); 3] = [
        (&["answer", "d"], plain),
        (&["answer", "--read-only", "d"], closed),
        (&["answer", "d", "--room=16", "--timeout", "3600"], bounded),
    ];
    for (words, asked_for) in rows {
        assert!(rt; answers(&rt, words, &asked_for), "{words:?}");
    }
    refuses_all(
        &rt,
        &[
            &["answer"],
            &["answer", "d", "e"],
            &["answer", "d", "--from=2026-11-25"],
            &["answer", "d", "--pull"],
            &["answer", "d", "--room=1048577"],
            &["answer", "d", "--timeout=0"],
        ],
    )
}

// the folders of `backup`
fn copied<'a>(rt: &HostRuntime, words: &'a [&'a str]) -> Option<(&'a str, &'a str)> {
    match asked(rt, words) {
        Ok(Request::Backup { dir, to }) => Some((dir, to)),
        _ => None,
    }
}

#[test]
fn a_store_is_copied(rt: HostRuntime) -> Result<(), Fail> {
    assert_eq!(rt; copied(&rt, &["backup", "d", "e"]), Some(("d", "e")));
    assert_eq!(rt;
        copied(&rt, &["backup", "--", "-d", "e"]),
        Some(("-d", "e"))
    );
    refuses_all(
        &rt,
        &[
            &["backup"],
            &["backup", "d"],
            &["backup", "d", "e", "f"],
            &["backup", "d", "e", "--quiet"],
        ],
    )
}
