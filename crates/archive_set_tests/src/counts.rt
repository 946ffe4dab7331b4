//! Counts of the records of archives.

use crate::support::{Limits, WORKS, reader, taken, writer};
use archive_counts::{CountFault, CountForm, CountKey, CountOptions, count_stream};
use archive_text::ArchiveFault;
use std::alloc::Global;
use std::process::Abort;

const ALL: &[u8] = b"19 <13>1 - h a - - - x\
    45 <12>1 2024-02-29T23:00:00.000000Z h a - - - z\
    45 <14>1 2024-02-29T23:30:00.000000Z g a - - - y\
    45 <14>1 2024-03-01T00:00:00.000000Z h - - - - y";

const TOGETHER: &[u8] = b"4 166 2024-02-29T23:00:00.000000Z 2024-03-01T00:00:00.000000Z\n";

const HOSTS: &[u8] = b"3 118 2024-02-29T23:00:00.000000Z 2024-03-01T00:00:00.000000Z h
1 48 2024-02-29T23:30:00.000000Z 2024-02-29T23:30:00.000000Z g
";

const DAYS: &[u8] = b"2 96 2024-02-29T23:00:00.000000Z 2024-02-29T23:30:00.000000Z 2024-02-29
1 48 2024-03-01T00:00:00.000000Z 2024-03-01T00:00:00.000000Z 2024-03-01
1 22 - - undated
";

const SEVERITIES: &[u8] =
    b"1 48 2024-03-01T00:00:00.000000Z 2024-03-01T00:00:00.000000Z user info - 2024-03-01T00:00
1 48 2024-02-29T23:30:00.000000Z 2024-02-29T23:30:00.000000Z user info a 2024-02-29T23:30
1 22 - - user notice a undated
";

const OBJECTS: &[u8] =
    br#"{"count":1,"octets":25,"first":null,"last":null,"host":"\"","app":null,"proc":"\\"}
{"count":1,"octets":48,"first":"2024-02-29T23:00:00.000000Z","last":"2024-02-29T23:00:00.000000Z","host":"h","app":"a","proc":null}
"#;

const HOST_BARS: &[u8] = b"3 ################ h
1 ######           g
";

const HOUR_BARS: &[u8] = b"2 ## 2024-02-29T23
1 #  2024-03-01T00
1 #  undated
";

// keys, the most lines and the form; a text, the limits of its reader and of the writer; and what
// comes of it
type Row<'a> = (
    &'a [CountKey],
    Option<u64>,
    CountForm,
    &'a [u8],
    (Limits, Limits),
    Result<(), CountFault>,
    &'a [u8],
);

fn options(alloc: Global, keys: &[CountKey], top: Option<u64>, form: CountForm) -> CountOptions {
    let mut chosen = Vec::new(alloc);
    let _ = chosen.extend_from_slice(keys);
    CountOptions {
        keys: chosen,
        top,
        form,
    }
}

// what is answered for a text, and what is written then
fn counted(
    alloc: Global,
    options: &CountOptions,
    text: &[u8],
    limits: (Limits, Limits),
) -> (Result<(), CountFault>, Vec<u8>) {
    let mut reader = reader(text, limits.0);
    let mut writer = writer(alloc, limits.1);
    let answer = count_stream(alloc, options, &mut reader, &mut writer);
    (answer, taken(writer))
}

fn see_counts(rt: &(impl Abort + AllocGlobal), rows: &[Row<'_>]) {
    for (n, (keys, top, form, text, limits, answer, lines)) in rows.iter().enumerate() {
        let options = options(rt.alloc(), keys, *top, *form);
        let (found, written) = counted(rt.alloc(), &options, text, *limits);
        assert_eq!(rt; found, *answer, "row {n}");
        assert_eq!(rt; written.as_slice(), *lines, "row {n}");
    }
}

const MANY: [CountKey; 4] = [
    CountKey::Facility,
    CountKey::Severity,
    CountKey::App,
    CountKey::Minute,
];

// a quotation mark and a backslash in fields
const ODD: &[u8] = b"22 <13>1 - \" - \\ - - text45 <12>1 2024-02-29T23:00:00.000000Z h a - - - z";

const FINE: (Limits, Limits) = (WORKS, WORKS);

#[test]
fn each_key_has_a_line(rt: HostRuntime) {
    see_counts(
        &rt,
        &[
            (&[], None, CountForm::Lines, ALL, FINE, Ok(()), TOGETHER),
            (&[], None, CountForm::Lines, b"", FINE, Ok(()), b"0 0 - -\n"),
            (
                &[CountKey::Host],
                None,
                CountForm::Lines,
                ALL,
                FINE,
                Ok(()),
                HOSTS,
            ),
            (
                &[CountKey::Host],
                None,
                CountForm::Lines,
                b"",
                FINE,
                Ok(()),
                b"",
            ),
            (
                &[CountKey::Day],
                None,
                CountForm::Lines,
                ALL,
                FINE,
                Ok(()),
                DAYS,
            ),
            (
                &[CountKey::Host],
                Some(1),
                CountForm::Lines,
                ALL,
                FINE,
                Ok(()),
                &HOSTS[..64],
            ),
            (
                &MANY,
                Some(3),
                CountForm::Lines,
                ALL,
                FINE,
                Ok(()),
                SEVERITIES,
            ),
        ],
    );
}

#[test]
fn each_key_has_an_object(rt: HostRuntime) {
    let keys = [CountKey::Host, CountKey::App, CountKey::Proc];
    see_counts(
        &rt,
        &[(&keys, None, CountForm::Json, ODD, FINE, Ok(()), OBJECTS)],
    );
}

#[test]
fn each_key_has_a_bar(rt: HostRuntime) {
    let bars = CountForm::Bars { columns: 20 };
    let narrow = CountForm::Bars { columns: 18 };
    see_counts(
        &rt,
        &[
            (&[CountKey::Host], None, bars, ALL, FINE, Ok(()), HOST_BARS),
            (
                &[CountKey::Hour],
                None,
                narrow,
                ALL,
                FINE,
                Ok(()),
                HOUR_BARS,
            ),
            (&[], None, bars, b"", FINE, Ok(()), b"0 \n"),
        ],
    );
}

#[test]
fn nothing_is_written_before_the_end(rt: HostRuntime) {
    let cut = Err(CountFault::Archive(ArchiveFault::BadFrame { at: 120 }));
    let unread = Err(CountFault::Read);
    let unwritten = Err(CountFault::Write { sent: 5 });
    see_counts(
        &rt,
        &[
            (&[], None, CountForm::Lines, &ALL[..120], FINE, cut, b""),
            (
                &[],
                None,
                CountForm::Lines,
                ALL,
                ((22, 9), WORKS),
                unread,
                b"",
            ),
            (
                &[],
                None,
                CountForm::Lines,
                ALL,
                (WORKS, (5, 9)),
                unwritten,
                &TOGETHER[..5],
            ),
        ],
    );
}
