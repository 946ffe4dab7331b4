//! What is asked of archives.

use crate::words::{asked, refuses_all};
use archive_counts::{CountForm, CountKey};
use archive_digest::Period;
use archive_tree::TreeHead;
use command_line::{FileRequest, Request};
use std::test::Fail;

// the command, the left file and the right one
fn sides<'a>(rt: &HostRuntime, words: &'a [&'a str]) -> Option<(u8, &'a str, &'a str)> {
    match asked(rt, words) {
        Ok(Request::Files(files)) => match files {
            FileRequest::Merge { left, right } => Some((b'+', left, right)),
            FileRequest::Common { left, right } => Some((b'&', left, right)),
            FileRequest::Minus { left, right } => Some((b'-', left, right)),
            FileRequest::Diff { left, right } => Some((b'/', left, right)),
            _ => None,
        },
        _ => None,
    }
}

#[test]
fn two_files_have_their_sides(rt: HostRuntime) -> Result<(), Fail> {
    for (name, sign) in [
        ("merge", b'+'),
        ("common", b'&'),
        ("minus", b'-'),
        ("diff", b'/'),
    ] {
        assert_eq!(rt; sides(&rt, &[name, "a", "b"]), Some((sign, "a", "b")));
        assert_eq!(rt;
            sides(&rt, &[name, "--", "-b", "-"]),
            Some((sign, "-b", "-"))
        );
        refuses_all(
            &rt,
            &[
                &[name, "a"],
                &[name, "a", "b", "c"],
                &[name, "a", "b", "--trim"],
            ],
        )?;
    }
    Ok(())
}

// whether a union is made of these files
fn unites(rt: &HostRuntime, words: &[&str], files: &[&str]) -> bool {
    match asked(rt, words) {
        Ok(Request::Files(FileRequest::Union { files: found })) => found.as_slice() == files,
        _ => false,
    }
}

#[test]
fn a_union_is_made_of_up_to_512_files(rt: HostRuntime) -> Result<(), Fail> {
    let mut words = ["a"; 514];
    words[0] = "union";
    let rows: [(&[&str], &[&str]); 4] = [
        (&words[..2], &["a"]),
        (&["union", "b", "a", "b"], &["b", "a", "b"]),
        (&["union", "b", "--", "-a"], &["b", "-a"]),
        (&words[..513], &words[1..513]),
    ];
    for (words, files) in rows {
        assert!(rt; unites(&rt, words, files), "{words:?}");
    }
    refuses_all(&rt, &[&words, &["union"], &["union", "a", "--trim"]])
}

// the period of `digest`, and whether it has roots
fn period(rt: &HostRuntime, words: &[&str]) -> Option<(Period, bool)> {
    match asked(rt, words) {
        Ok(Request::Digest { period, has_roots }) => Some((period, has_roots)),
        _ => None,
    }
}

#[test]
fn digest_takes_a_period(rt: HostRuntime) -> Result<(), Fail> {
    let rows: [(&[&str], Period, bool); 5] = [
        (&["digest"], Period::Day, false),
        (&["digest", "--by", "day"], Period::Day, false),
        (&["digest", "--by=month"], Period::Month, false),
        (&["digest", "--by", "hour"], Period::Hour, false),
        (&["digest", "--root", "--by", "hour"], Period::Hour, true),
    ];
    for (words, expected, has_roots) in rows {
        assert!(rt;
            period(&rt, words) == Some((expected, has_roots)),
            "{words:?}"
        );
    }
    refuses_all(
        &rt,
        &[
            &["digest", "--by", ""],
            &["digest", "--by", "Day"],
            &["digest", "--by", "days"],
            &["digest", "--by", "week"],
            &["digest", "--by", "year"],
            &["digest", "--by=day", "--by=day"],
            &["digest", "day"],
            &["digest", "--root", "--root"],
        ],
    )
}

// whether `count` takes these keys, so many lines and this form
fn counts(
    rt: &HostRuntime,
    words: &[&str],
    keys: &[CountKey],
    top: Option<u64>,
    form: CountForm,
) -> bool {
    match &asked(rt, words) {
        Ok(Request::Count { options }) => {
            options.keys.as_slice() == keys && options.top == top && options.form == form
        }
        _ => false,
    }
}

#[test]
fn count_takes_keys_and_a_form(rt: HostRuntime) -> Result<(), Fail> {
    let names = "host,app,proc,msgid,facility,severity,day,hour,minute";
    let keys = [
        CountKey::Host,
        CountKey::App,
        CountKey::Proc,
        CountKey::Msgid,
        CountKey::Facility,
        CountKey::Severity,
        CountKey::Day,
        CountKey::Hour,
        CountKey::Minute,
    ];
    let bars = CountForm::Bars { columns: 80 };
    let rows: [(&[&str], &[CountKey], Option<u64>, CountForm); 4] = [
        (&["count"], &[], None, CountForm::Lines),
        (&["count", "--by", names], &keys, None, CountForm::Lines),
        (
            &["count", "--json", "--by=hour", "--top", "10"],
            &[CountKey::Hour],
            Some(10),
            CountForm::Json,
        ),
        (
            &["count", "--bars", "--top=4294967295"],
            &[],
            Some(4_294_967_295),
            bars,
        ),
    ];
    for (words, keys, top, form) in rows {
        assert!(rt; counts(&rt, words, keys, top, form), "{words:?}");
    }
    for keys in [
        "",
        "hosts",
        "host,",
        ",host",
        "host, app",
        "host,,app",
        "Host",
    ] {
        refuses_all(&rt, &[&["count", "--by", keys]])?;
    }
    refuses_all(
        &rt,
        &[
            &["count", "--top", "0"],
            &["count", "--top", "4294967296"],
            &["count", "--by=host", "--by=app"],
            &["count", "--json", "--bars"],
            &["count", "day"],
        ],
    )
}

// the head and the file that `confirm` takes
fn confirms<'a>(rt: &HostRuntime, words: &'a [&'a str]) -> Option<(TreeHead, &'a str)> {
    match asked(rt, words) {
        Ok(Request::Confirm { head, records }) => Some((head, records)),
        _ => None,
    }
}

#[test]
fn proofs_are_of_the_records_of_a_file(rt: HostRuntime) -> Result<(), Fail> {
    let proves = matches!(
        asked(&rt, &["prove", "f"]),
        Ok(Request::Prove { records: "f" })
    );
    assert!(rt; proves);
    let low = "00ff00000000000000000000000000000000000000000000000000000000001a";
    let high = "00FF00000000000000000000000000000000000000000000000000000000001A";
    let mut hash = [0; 32];
    hash[1] = 0xff;
    hash[31] = 0x1a;
    for (count, digits, size) in [
        ("0", low, 0),
        ("0012", high, 12),
        ("18446744073709551615", low, u64::MAX),
    ] {
        let head = TreeHead { size, hash };
        assert_eq!(rt;
            confirms(&rt, &["confirm", count, digits, "f"]),
            Some((head, "f"))
        );
    }
    for count in ["", "-1", "+1", "x", "1 ", "18446744073709551616"] {
        refuses_all(&rt, &[&["confirm", "--", count, low, "f"]])?;
    }
    for digits in ["", "0", &low[..62], &low[1..], "x"] {
        refuses_all(&rt, &[&["confirm", "1", digits, "f"]])?;
    }
    refuses_all(
        &rt,
        &[
            &["prove"],
            &["prove", "f", "g"],
            &["confirm", "1", low],
            &["confirm", "1", low, "f", "g"],
        ],
    )
}
