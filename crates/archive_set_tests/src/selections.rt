//! Records of an archive that meet a condition, and an archive read entry by entry.

use crate::support::{A, AB, ALL, B, C, Limits, WORKS, reader, see, taken, writer};
use archive_sets::{
    AsSevereAs, Both, Condition, Conditions, FieldTest, HasElement, HasWord, InRange, OfFacility,
    OnlyUndated, SelectFault, Times, WordField, select_stream,
};
use archive_streams::{ArchiveEntries, EntriesFault};
use archive_text::ArchiveFault;
use octet_devices::FromRead;
use std::alloc::Global;
use std::test::Fail;
use syslog_value::{Civil, Facility, Instant, Severity};

// the instant of a minute behind 23:00 of 2024-02-29
fn at(minute: Option<u8>) -> Option<Instant> {
    let civil = Civil {
        year: 2024,
        month: 2,
        day: 29,
        hour: 23,
        minute: minute?,
        second: 0,
        micros: 0,
    };
    Instant::from_civil(civil, 0).ok()
}

// the range between two of these minutes
fn range(from: Option<u8>, to: Option<u8>) -> InRange {
    InRange {
        from: at(from),
        to: at(to),
        undated: false,
    }
}

// up to 23:30, and without a time
fn early() -> InRange {
    InRange {
        from: None,
        to: at(Some(30)),
        undated: true,
    }
}

// what is answered for a text, and what is written then
fn selected_within<Q: Condition>(
    alloc: Global,
    condition: &Q,
    text: &[u8],
    of_reader: Limits,
    of_writer: Limits,
) -> (Result<u64, SelectFault>, Vec<u8>) {
    let mut reader = reader(text, of_reader);
    let mut writer = writer(alloc, of_writer);
    let answer = select_stream(alloc, condition, &mut reader, &mut writer);
    (answer, taken(writer))
}

fn selected<Q: Condition>(
    alloc: Global,
    condition: &Q,
    text: &[u8],
) -> (Result<u64, SelectFault>, Vec<u8>) {
    selected_within(alloc, condition, text, WORKS, WORKS)
}

#[test]
fn a_range_has_its_first_instant_and_not_its_end(rt: HostRuntime) {
    let rows = [
        (Some(0), Some(30), 1, C),
        (Some(30), None, 1, B),
        (Some(30), Some(0), 0, b""),
        (None, None, 3, ALL),
    ];
    for (n, (from, to, count, octets)) in rows.iter().enumerate() {
        let found = selected(rt.alloc(), &range(*from, *to), ALL);
        see(&rt, n, &found, &Ok(*count), octets);
    }
}

#[test]
fn records_without_a_time_are_selected_where_that_is_asked_for(rt: HostRuntime) {
    let both = Both {
        first: early(),
        second: OnlyUndated,
    };
    see(&rt, 0, &selected(rt.alloc(), &OnlyUndated, ALL), &Ok(1), A);
    see(
        &rt,
        1,
        &selected(rt.alloc(), &early(), ALL),
        &Ok(2),
        &ALL[..70],
    );
    see(&rt, 2, &selected(rt.alloc(), &both, ALL), &Ok(1), A);
}

#[test]
fn records_are_selected_by_their_severity_and_facility(rt: HostRuntime) {
    let notice = AsSevereAs {
        severity: Severity::Notice,
    };
    let user = OfFacility {
        facility: Facility::User,
    };
    see(
        &rt,
        0,
        &selected(rt.alloc(), &notice, ALL),
        &Ok(2),
        &ALL[..70],
    );
    see(&rt, 1, &selected(rt.alloc(), &user, ALL), &Ok(3), ALL);
}

#[test]
fn records_are_selected_by_their_words(rt: HostRuntime) {
    let rows = [
        (WordField::Hostname, Some(b"h".as_slice()), 3, ALL),
        (WordField::ProcId, Some(b"1"), 0, b""),
        (WordField::MsgId, None, 3, ALL),
    ];
    for (n, (field, word, count, octets)) in rows.iter().enumerate() {
        let condition = HasWord {
            field: *field,
            word: *word,
        };
        see(
            &rt,
            n,
            &selected(rt.alloc(), &condition, ALL),
            &Ok(*count),
            octets,
        );
    }
}

#[test]
fn records_are_selected_by_their_elements(rt: HostRuntime) {
    let text = b"27 <0>1 - - - - - [a][b c=\"x\"]24 <0>1 - - - - - [b c=\"a\"]".as_slice();
    let rows = [
        (b"a".as_slice(), 1, &text[..30]),
        (b"b", 2, text),
        (b"c", 0, b""),
    ];
    for (n, (id, count, octets)) in rows.iter().enumerate() {
        let found = selected(rt.alloc(), &HasElement { id: *id }, text);
        see(&rt, n, &found, &Ok(*count), octets);
    }
}

// a list with these tests
fn listed<'a>(alloc: Global, tests: &[FieldTest<'a>]) -> Result<Vec<FieldTest<'a>>, Fail> {
    let mut list = Vec::new(alloc);
    for test in tests {
        list.push(*test)?;
    }
    Ok(list)
}

// the conditions that one test of each of these lists is passed, and none of those
fn conditions<'a>(
    alloc: Global,
    any: &[&[FieldTest<'a>]],
    none: &[FieldTest<'a>],
) -> Result<Conditions<'a>, Fail> {
    let mut asked = Conditions::all(alloc);
    for tests in any {
        asked.any.push(listed(alloc, tests)?)?;
    }
    asked.none = listed(alloc, none)?;
    Ok(asked)
}

const NOTICE: FieldTest<'static> = FieldTest::AsSevereAs(Severity::Notice);

const USER: FieldTest<'static> = FieldTest::OfFacility(Facility::User);

const HOST: FieldTest<'static> = FieldTest::Word(WordField::Hostname, Some(b"h"));

const NO_PROCESS: FieldTest<'static> = FieldTest::Word(WordField::ProcId, None);

#[test]
fn conditions_that_are_given_together_are_each_met(rt: HostRuntime) -> Result<(), Fail> {
    let each = [
        [NOTICE].as_slice(),
        &[USER],
        &[HOST],
        &[NO_PROCESS],
        &[FieldTest::Element(b"-")],
    ];
    let rows = [
        (0, false, 3, ALL),
        (4, false, 2, &ALL[..70]),
        (4, true, 1, A),
        (5, true, 0, b""),
    ];
    for (n, (tests, is_undated, count, octets)) in rows.iter().enumerate() {
        let mut asked = conditions(rt.alloc(), &each[..*tests], &[])?;
        if *is_undated {
            asked.times = Times::Undated;
        }
        see(
            &rt,
            n,
            &selected(rt.alloc(), &asked, ALL),
            &Ok(*count),
            octets,
        );
    }
    Ok(())
}

#[test]
fn several_tests_mean_any_or_none_of_them(rt: HostRuntime) -> Result<(), Fail> {
    let x_or_y = [FieldTest::Message(b"x"), FieldTest::Message(b"y")];
    let y_or_z = [FieldTest::Message(b"y"), FieldTest::Message(b"z")];
    let rows = [([].as_slice(), 2, AB), (y_or_z.as_slice(), 1, A)];
    for (n, (none, count, octets)) in rows.iter().enumerate() {
        let asked = conditions(rt.alloc(), &[x_or_y.as_slice()], none)?;
        see(
            &rt,
            n,
            &selected(rt.alloc(), &asked, ALL),
            &Ok(*count),
            octets,
        );
    }
    Ok(())
}

// the condition that a test is passed, or that it is not
fn condition_of<'a>(
    alloc: Global,
    test: FieldTest<'a>,
    is_passed: bool,
) -> Result<Conditions<'a>, Fail> {
    let mut asked = Conditions::all(alloc);
    let tests = listed(alloc, &[test])?;
    if is_passed {
        asked.any.push(tests)?;
    } else {
        asked.none = tests;
    }
    Ok(asked)
}

// how many records pass a test, and how many do not
fn passing(
    alloc: Global,
    test: FieldTest<'_>,
    text: &[u8],
) -> Result<[Result<u64, SelectFault>; 2], Fail> {
    let with = condition_of(alloc, test, true)?;
    let without = condition_of(alloc, test, false)?;
    Ok([
        selected(alloc, &with, text).0,
        selected(alloc, &without, text).0,
    ])
}

#[test]
fn a_missing_word_is_like_no_pattern(rt: HostRuntime) -> Result<(), Fail> {
    let text = b"16 <0>1 - - - - - -20 <0>1 - web-1 - - - -20 <0>1 - web-2 - - - -";
    let host = WordField::Hostname;
    for (test, with) in [
        (FieldTest::WordLike(host, b"*"), 2),
        (FieldTest::WordLike(host, b"web-?"), 2),
        (FieldTest::WordLike(host, b"*1"), 1),
        (FieldTest::WordLike(host, b"web"), 0),
        (FieldTest::WordLike(host, b"-"), 0),
        (FieldTest::Word(host, None), 1),
    ] {
        assert_eq!(rt; passing(rt.alloc(), test, text)?, [Ok(with), Ok(3 - with)]);
    }
    Ok(())
}

#[test]
fn a_message_has_its_octets_and_no_others(rt: HostRuntime) -> Result<(), Fail> {
    let text = b"19 <0>1 - h - - - - ab22 <0>1 - h - - - - \xef\xbb\xbfab";
    for (octets, with) in [
        (b"".as_slice(), 2),
        (b"ab", 2),
        (b"b", 2),
        (b"abc", 0),
        (b"ab2", 0),
        (b"- ab", 0),
        (b"\xbfab", 0),
    ] {
        let test = FieldTest::Message(octets);
        assert_eq!(rt; passing(rt.alloc(), test, text)?, [Ok(with), Ok(2 - with)]);
    }
    Ok(())
}

#[test]
fn what_is_selected_before_a_fault_is_written(rt: HostRuntime) {
    let condition = range(None, Some(30));
    let cut = SelectFault::Archive(ArchiveFault::BadFrame { at: 75 });
    let rows = [
        (&ALL[..75], WORKS, WORKS, cut, C),
        (ALL, WORKS, (5, 9), SelectFault::Write { sent: 5 }, &C[..5]),
        (ALL, (75, 9), WORKS, SelectFault::Read, C),
    ];
    for (n, (text, of_reader, of_writer, fault, octets)) in rows.iter().enumerate() {
        let found = selected_within(rt.alloc(), &condition, text, *of_reader, *of_writer);
        see(&rt, n, &found, &Err(*fault), octets);
    }
}

// what an archive answers to three calls, of which the last reads another text, and the octets of
// its entry before and after them
fn read_thrice(
    alloc: Global,
    text: &[u8],
) -> Result<(Vec<u8>, [Result<bool, EntriesFault>; 3], Vec<u8>), Fail> {
    let mut entries = ArchiveEntries::new(alloc)?;
    let before = entries.entry().octets.to_vec(alloc)?;
    let mut reader = FromRead::new(text);
    let answers = [
        entries.next(&mut reader),
        entries.next(&mut reader),
        entries.next(&mut FromRead::new(B)),
    ];
    Ok((before, answers, entries.entry().octets.to_vec(alloc)?))
}

#[test]
fn after_the_end_or_a_fault_the_same_is_answered(rt: HostRuntime) -> Result<(), Fail> {
    let fault = Err(EntriesFault::Archive(ArchiveFault::BadFrame { at: 22 }));
    for (text, again) in [(A, Ok(false)), (b"19 <13>1 - h a - - - xx", fault)] {
        let (before, answers, after) = read_thrice(rt.alloc(), text)?;
        assert!(rt; before.is_empty());
        assert_eq!(rt; answers, [Ok(true), again, again]);
        assert_eq!(rt; after.as_slice(), &A[3..]);
    }
    Ok(())
}
