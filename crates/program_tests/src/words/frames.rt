//! How frames are read, and what is done with them.

use crate::words::{asked, refuses_all};
use command_line::{FrameCommand, Request};
use driver::ReadLimit;
use std::test::Fail;
use syslog_legacy::{Dialect, FrameReading, LegacyClock};

// forty zeros and a year
const PADDED: &str = "00000000000000000000000000000000000000002001";

// how `check` reads frames
fn checks(rt: &HostRuntime, words: &[&str]) -> Option<FrameReading> {
    match asked(rt, words) {
        Ok(Request::Frames(found)) => Some(found.reading),
        _ => None,
    }
}

#[test]
fn a_clock_has_a_year_and_a_zone(rt: HostRuntime) {
    let utc = LegacyClock::new(2001, 0);
    let first = LegacyClock::new(1, 90);
    let last = LegacyClock::new(9998, -1439);
    let rows: [(&[&str], Option<LegacyClock>); 6] = [
        (&["check"], None),
        (&["check", "--zone", "W0130"], None),
        (&["check", "--legacy", "2001"], utc),
        (&["check", "--legacy", PADDED], utc),
        (&["check", "--legacy", "1", "--zone", "E0130"], first),
        (&["check", "--legacy=9998", "--zone=W2359"], last),
    ];
    for (words, clock) in rows {
        assert_eq!(rt;
            checks(&rt, words),
            Some(FrameReading::from(clock)),
            "{words:?}"
        );
    }
}

#[test]
fn a_clock_has_a_dialect(rt: HostRuntime) -> Result<(), Fail> {
    let bsd = LegacyClock::new(2001, 0);
    let wide = bsd.map(|clock| clock.with_dialect(Dialect::Wide));
    let rows: [(&[&str], Option<LegacyClock>); 3] = [
        (&["check", "--dialect", "wide"], None),
        (&["check", "--legacy", "2001", "--dialect", "bsd"], bsd),
        (&["check", "--legacy", "2001", "--dialect", "wide"], wide),
    ];
    for (words, clock) in rows {
        assert_eq!(rt;
            checks(&rt, words),
            Some(FrameReading::from(clock)),
            "{words:?}"
        );
    }
    for dialect in ["", "Wide", "bsd ", "rfc3164"] {
        refuses_all(
            &rt,
            &[
                &["check", "--legacy", "2001", "--dialect", dialect],
                &["archive", "--dialect", dialect],
            ],
        )?;
    }
    Ok(())
}

#[test]
fn frames_are_trimmed_where_it_is_said(rt: HostRuntime) -> Result<(), Fail> {
    let rows: [(&[&str], Option<LegacyClock>); 2] = [
        (&["check", "--trim"], None),
        (
            &["check", "--legacy", "2001", "--trim"],
            LegacyClock::new(2001, 0),
        ),
    ];
    for (words, clock) in rows {
        let trimmed = FrameReading { trim: true, clock };
        assert_eq!(rt; checks(&rt, words), Some(trimmed), "{words:?}");
    }
    refuses_all(
        &rt,
        &[
            &["check", "--trim=true"],
            &["check", "--trim", "--trim"],
            &["send", "--trim", "x"],
        ],
    )
}

#[test]
fn other_years_and_zones_are_refused(rt: HostRuntime) -> Result<(), Fail> {
    for year in [
        "0", "9999", "10000", "+5", "-5", "", "2001 ", "0x7d1", "\u{662}",
    ] {
        refuses_all(&rt, &[&["convert", "--legacy", year]])?;
    }
    for zone in [
        "E2400", "E0060", "E100", "E00000", "e0000", "0000", "E+100", "", "E", "Z0000",
    ] {
        refuses_all(
            &rt,
            &[
                &["convert", "--legacy", "2001", "--zone", zone],
                &["archive", "--zone", zone],
            ],
        )?;
    }
    Ok(())
}

// a flag of `check`, or one of `show`
fn flag(rt: &HostRuntime, words: &[&str]) -> Option<bool> {
    let Ok(Request::Frames(found)) = asked(rt, words) else {
        return None;
    };
    match found.command {
        FrameCommand::Check { summary } => Some(summary),
        FrameCommand::Show { json, .. } => Some(json),
        _ => None,
    }
}

#[test]
fn check_has_a_summary_and_show_writes_json(rt: HostRuntime) -> Result<(), Fail> {
    let rows: [(&[&str], bool); 4] = [
        (&["check"], false),
        (&["check", "--trim", "--summary"], true),
        (&["show", "--trim"], false),
        (&["show", "--json", "--framing", "lf"], true),
    ];
    for (words, expected) in rows {
        assert_eq!(rt; flag(&rt, words), Some(expected), "{words:?}");
    }
    refuses_all(
        &rt,
        &[
            &["check", "--json"],
            &["check", "--summary", "--summary"],
            &["show", "--summary"],
            &["show", "--json=true"],
        ],
    )
}

// how much a command reads of its input
fn limit(rt: &HostRuntime, words: &[&str]) -> Option<ReadLimit> {
    match asked(rt, words) {
        Ok(Request::Frames(found)) => Some(found.limit),
        _ => None,
    }
}

#[test]
fn an_input_may_have_any_length(rt: HostRuntime) -> Result<(), Fail> {
    let rows: [(&[&str], ReadLimit); 4] = [
        (&["check"], ReadLimit::Standard),
        (&["check", "--endless"], ReadLimit::Unlimited),
        (&["show", "--endless", "--json"], ReadLimit::Unlimited),
        (
            &["convert", "--to", "lf", "--endless"],
            ReadLimit::Unlimited,
        ),
    ];
    for (words, expected) in rows {
        assert_eq!(rt; limit(&rt, words), Some(expected), "{words:?}");
    }
    refuses_all(
        &rt,
        &[
            &["archive", "--endless"],
            &["check", "--endless=true"],
            &["show", "--endless", "--endless"],
        ],
    )
}

// the folder that `archive` spills into, and the MiB of memory
fn spills<'a>(rt: &HostRuntime, words: &'a [&'a str]) -> Option<(&'a str, u32)> {
    match &asked(rt, words) {
        Ok(
            Request::SpillArchive {
                dir,
                memory_mib,
                ..
            },
        ) => Some((*dir, *memory_mib)),
        _ => None,
    }
}

// whether `archive` keeps all in memory
fn archives(rt: &HostRuntime, words: &[&str]) -> bool {
    match asked(rt, words) {
        Ok(Request::Frames(found)) => found.command == FrameCommand::Archive,
        _ => false,
    }
}

#[test]
fn an_archive_may_spill(rt: HostRuntime) -> Result<(), Fail> {
    let rows: [(&[&str], &str, u32); 3] = [
        (&["archive", "--spill", "d"], "d", 256),
        (&["archive", "--spill=d", "--memory=1", "--trim"], "d", 1),
        (
            &["archive", "--memory", "1048576", "--spill", ""],
            "",
            1_048_576,
        ),
    ];
    for (words, dir, memory_mib) in rows {
        assert_eq!(rt; spills(&rt, words), Some((dir, memory_mib)), "{words:?}");
    }
    assert!(rt; archives(&rt, &["archive"]));
    assert!(rt; archives(&rt, &["archive", "--memory", "7"]));
    for memory in ["0", "1048577", "", "+1", "-1", "1k"] {
        refuses_all(
            &rt,
            &[
                &["archive", "--spill", "d", "--memory", memory],
                &["archive", "--memory", memory],
            ],
        )?;
    }
    refuses_all(
        &rt,
        &[
            &["archive", "--spill", "d", "--spill", "d"],
            &["check", "--memory", "7"],
            &["collect", "udp", "514", "1", "--spill", "d"],
        ],
    )
}
