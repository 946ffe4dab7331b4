//! `read` and `follow`, and when records are colored.

use crate::words::{asked, refuses_all};
use archive_sets::{InRange, Times};
use command_line::{ColorWhen, FollowWords, FrameCommand, ReadForm, ReadWords, Request};
use std::test::Fail;
use syslog_value::Instant;

// what `read` writes where no option says it
const PLAIN: ReadWords = ReadWords {
    last: None,
    form: ReadForm::Archive,
    color: ColorWhen::Auto,
    partial: false,
};

// whether `read` with these words takes the folder `d`, this range and this many tests
fn reads(
    rt: &HostRuntime,
    words: &[&str],
    from: Option<i64>,
    to: Option<i64>,
    undated: bool,
    tests: usize,
) -> bool {
    let asked_for = InRange {
        from: from.and_then(Instant::from_micros),
        to: to.and_then(Instant::from_micros),
        undated,
    };
    match &asked(rt, words) {
        Ok(
            Request::Read {
                dir,
                conditions,
                words,
            },
        ) => {
            *dir == "d"
                && conditions.times == Times::Range(asked_for)
                && conditions.any.len().saturating_add(conditions.none.len()) == tests
                && *words == PLAIN
        }
        _ => false,
    }
}

// whether `read` with these words takes records without a time alone
fn reads_undated(rt: &HostRuntime, words: &[&str]) -> bool {
    match &asked(rt, words) {
        Ok(Request::Read { conditions, .. }) => conditions.times == Times::Undated,
        _ => false,
    }
}

#[test]
fn read_takes_a_folder_and_conditions(rt: HostRuntime) -> Result<(), Fail> {
    let then = Some(1_795_600_800_000_000);
    let rows: [(&[&str], Option<i64>, Option<i64>, bool, usize); 4] = [
        (&["read", "d"], None, None, false, 0),
        (
            &["read", "--undated", "--from", "2026-11-25T10:00:00Z", "d"],
            then,
            None,
            true,
            0,
        ),
        (
            &["read", "d", "--to=2026-11-25T10:00:00Z"],
            None,
            then,
            false,
            0,
        ),
        (
            &["read", "d", "--host=a", "--host=b", "--not-app", "c"],
            None,
            None,
            false,
            2,
        ),
    ];
    for (words, from, to, undated, tests) in rows {
        assert!(rt; reads(&rt, words, from, to, undated, tests), "{words:?}");
    }
    assert!(rt; reads_undated(&rt, &["read", "d", "--only-undated"]));
    refuses_all(
        &rt,
        &[
            &["read"],
            &["read", "d", "e"],
            &["read", "d", "--to", "-"],
            &["read", "d", "--only-undated", "--to=2026-11-25"],
            &["read", "d", "--host="],
        ],
    )
}

// what `read` writes
fn read_as(rt: &HostRuntime, words: &[&str]) -> Option<ReadWords> {
    match asked(rt, words) {
        Ok(Request::Read { words, .. }) => Some(words),
        _ => None,
    }
}

#[test]
fn read_writes_the_last_records_in_a_form(rt: HostRuntime) -> Result<(), Fail> {
    let rows: [(&[&str], ReadWords); 3] = [
        (
            &["read", "d", "--last", "1000000", "--as=lines"],
            ReadWords {
                last: Some(1_000_000),
                form: ReadForm::Lines,
                color: ColorWhen::Auto,
                partial: false,
            },
        ),
        (
            &["read", "d", "--last=1", "--as", "show", "--color=never"],
            ReadWords {
                last: Some(1),
                form: ReadForm::Show,
                color: ColorWhen::Never,
                partial: false,
            },
        ),
        (
            &["read", "d", "--as=json", "--partial", "--color", "always"],
            ReadWords {
                last: None,
                form: ReadForm::Json,
                color: ColorWhen::Always,
                partial: true,
            },
        ),
    ];
    for (words, expected) in rows {
        assert_eq!(rt; read_as(&rt, words), Some(expected), "{words:?}");
    }
    refuses_all(
        &rt,
        &[
            &["read", "d", "--last=0"],
            &["read", "d", "--last=1000001"],
            &["read", "d", "--last=1", "--last=1"],
            &["read", "d", "--as=xml"],
            &["read", "d", "--color=red"],
            &["read", "d", "--quiet"],
        ],
    )
}

// what `follow` begins with and ends with, where it has a folder `d` and this many tests
fn follows(rt: &HostRuntime, words: &[&str], tests: usize) -> Option<FollowWords> {
    match &asked(rt, words) {
        Ok(
            Request::Follow {
                dir,
                conditions,
                words,
            },
        ) if *dir == "d" && conditions.any.len() == tests => Some(*words),
        _ => None,
    }
}

#[test]
fn follow_takes_a_folder_and_conditions(rt: HostRuntime) -> Result<(), Fail> {
    let rows: [(&[&str], usize, bool, bool); 4] = [
        (&["follow", "d"], 0, false, false),
        (&["follow", "d", "--from-start"], 0, true, false),
        (&["follow", "--until-eof", "d", "--host=a"], 1, false, true),
        (
            &[
                "follow",
                "d",
                "--until-eof",
                "--from-start",
                "--severity=err",
            ],
            1,
            true,
            true,
        ),
    ];
    for (words, tests, from_start, until_eof) in rows {
        let expected = FollowWords {
            from_start,
            until_eof,
        };
        assert_eq!(rt; follows(&rt, words, tests), Some(expected), "{words:?}");
    }
    refuses_all(
        &rt,
        &[
            &["follow"],
            &["follow", "d", "e"],
            &["follow", "d", "--last=1"],
            &["follow", "d", "--host="],
        ],
    )
}

// when `show` colors
fn color(rt: &HostRuntime, words: &[&str]) -> Option<ColorWhen> {
    match asked(rt, words) {
        Ok(Request::Frames(frames)) => match frames.command {
            FrameCommand::Show { color, .. } => Some(color),
            _ => None,
        },
        _ => None,
    }
}

#[test]
fn show_is_colored_when_it_is_asked_for(rt: HostRuntime) -> Result<(), Fail> {
    let rows: [(&[&str], ColorWhen); 4] = [
        (&["show"], ColorWhen::Auto),
        (&["show", "--color=auto"], ColorWhen::Auto),
        (&["show", "--color", "always"], ColorWhen::Always),
        (&["show", "--color=never", "--json"], ColorWhen::Never),
    ];
    for (words, expected) in rows {
        assert_eq!(rt; color(&rt, words), Some(expected), "{words:?}");
    }
    refuses_all(
        &rt,
        &[
            &["show", "--color"],
            &["show", "--color="],
            &["check", "--color=auto"],
        ],
    )
}
