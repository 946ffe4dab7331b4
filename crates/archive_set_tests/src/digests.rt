//! Digests of archives by periods.

use crate::support::{Limits, WORKS, reader, see, taken, writer};
use archive_digest::{DigestFault, Period, digest_stream, digest_stream_with_roots};
use archive_text::ArchiveFault;
use std::alloc::Global;
use std::process::Abort;

const ALL: &[u8] = b"19 <13>1 - h a - - - x\
    45 <12>1 2024-02-29T23:00:00.000000Z h a - - - z\
    45 <14>1 2024-02-29T23:30:00.000000Z h a - - - y\
    45 <14>1 2024-03-01T00:00:00.000000Z h a - - - y";

const UNDATED: &[u8] =
    b"undated 1 22 a99ba0d49ff855ef8e2950109c57ac0e31138dbeee69bbe91a6f9abb30dffb30\n";

const DAYS: &[u8] = b"undated 1 22 a99ba0d49ff855ef8e2950109c57ac0e31138dbeee69bbe91a6f9abb30dffb30
2024-02-29 2 96 3b7f5f5ea6ffaba736858dbcd3dbdc58db65625c0e79aa6f318e353cf66244e0
2024-03-01 1 48 3fe095e91d2f7836c07c5b196d2bb43e12d54a4adde9db2114afc9ac4fc2a3cb
total 4 166 def8eb1c55412768fae259a94a0fda23e9464b52b545b95694e76ddbea6362a6
";

const HOURS: &[u8] =
    b"2024-02-29T23 2 96 3b7f5f5ea6ffaba736858dbcd3dbdc58db65625c0e79aa6f318e353cf66244e0
total 2 96 3b7f5f5ea6ffaba736858dbcd3dbdc58db65625c0e79aa6f318e353cf66244e0
";

const NOTHING: &[u8] =
    b"total 0 0 e3b0c44298fc1c149afbf4c8996fb92427ae41e4649b934ca495991b7852b855\n";

const UNDATED_WITH_ROOT: &[u8] = b"undated 1 22 \
    a99ba0d49ff855ef8e2950109c57ac0e31138dbeee69bbe91a6f9abb30dffb30 \
    a54f2a5923f10eb02db5ff1a1522f153c009b103cb733b67c7942d2fd1b5df21\n";

const DAYS_WITH_ROOTS: &[u8] = b"undated 1 22 \
    a99ba0d49ff855ef8e2950109c57ac0e31138dbeee69bbe91a6f9abb30dffb30 \
    a54f2a5923f10eb02db5ff1a1522f153c009b103cb733b67c7942d2fd1b5df21\n\
    2024-02-29 2 96 \
    3b7f5f5ea6ffaba736858dbcd3dbdc58db65625c0e79aa6f318e353cf66244e0 \
    7ca9cb0a46903cc4af8f4738d51da9127e915217bb89e8f16b24e760d9fa1f14\n\
    2024-03-01 1 48 \
    3fe095e91d2f7836c07c5b196d2bb43e12d54a4adde9db2114afc9ac4fc2a3cb \
    26ea6b6146b2921a6c2334797ad60424f78ba55bdf654a3a0550ebab538ccd04\n\
    total 4 166 \
    def8eb1c55412768fae259a94a0fda23e9464b52b545b95694e76ddbea6362a6 \
    a8bfac6bb229b97e35c919116ade8a45c44cff99dbed903c02243b7cdbd74e56\n";

const HOURS_WITH_ROOTS: &[u8] = b"2024-02-29T23 2 96 \
    3b7f5f5ea6ffaba736858dbcd3dbdc58db65625c0e79aa6f318e353cf66244e0 \
    7ca9cb0a46903cc4af8f4738d51da9127e915217bb89e8f16b24e760d9fa1f14\n\
    total 2 96 \
    3b7f5f5ea6ffaba736858dbcd3dbdc58db65625c0e79aa6f318e353cf66244e0 \
    7ca9cb0a46903cc4af8f4738d51da9127e915217bb89e8f16b24e760d9fa1f14\n";

const NOTHING_WITH_ROOT: &[u8] = b"total 0 0 \
    e3b0c44298fc1c149afbf4c8996fb92427ae41e4649b934ca495991b7852b855 \
    e3b0c44298fc1c149afbf4c8996fb92427ae41e4649b934ca495991b7852b855\n";

// whether lines end with roots
#[derive(Clone, Copy)]
enum Roots {
    Without,
    With,
}

// a text and its periods, the limits of its reader and of the writer, and what comes of it
type Row<'a> = (
    Period,
    &'a [u8],
    Limits,
    Limits,
    Result<u64, DigestFault>,
    &'a [u8],
);

// what is answered for a text, and what is written then
fn digested(
    alloc: Global,
    roots: Roots,
    period: Period,
    text: &[u8],
    of_reader: Limits,
    of_writer: Limits,
) -> (Result<u64, DigestFault>, Vec<u8>) {
    let mut reader = reader(text, of_reader);
    let mut writer = writer(alloc, of_writer);
    let answer = match roots {
        Roots::Without => digest_stream(alloc, period, &mut reader, &mut writer),
        Roots::With => digest_stream_with_roots(alloc, period, &mut reader, &mut writer),
    };
    (answer, taken(writer))
}

fn see_digests(rt: &(impl Abort + AllocGlobal), roots: Roots, rows: &[Row<'_>]) {
    for (n, (period, text, of_reader, of_writer, answer, lines)) in rows.iter().enumerate() {
        let found = digested(rt.alloc(), roots, *period, text, *of_reader, *of_writer);
        see(rt, n, &found, answer, lines);
    }
}

#[test]
fn each_period_that_has_records_has_a_line(rt: HostRuntime) {
    see_digests(
        &rt,
        Roots::Without,
        &[
            (Period::Day, ALL, WORKS, WORKS, Ok(4), DAYS),
            (Period::Hour, &ALL[22..118], WORKS, WORKS, Ok(2), HOURS),
            (Period::Month, b"", WORKS, WORKS, Ok(0), NOTHING),
        ],
    );
}

#[test]
fn periods_that_ended_before_a_fault_are_written(rt: HostRuntime) {
    let cut = Err(DigestFault::Archive(ArchiveFault::BadFrame { at: 120 }));
    let unread = Err(DigestFault::Read);
    let unwritten = Err(DigestFault::Write { sent: 5 });
    see_digests(
        &rt,
        Roots::Without,
        &[
            (Period::Month, &ALL[..120], WORKS, WORKS, cut, UNDATED),
            (Period::Day, ALL, (22, 9), WORKS, unread, b""),
            (Period::Day, ALL, WORKS, (5, 9), unwritten, &UNDATED[..5]),
        ],
    );
}

#[test]
fn each_line_ends_with_the_root_of_its_records(rt: HostRuntime) {
    see_digests(
        &rt,
        Roots::With,
        &[
            (Period::Day, ALL, WORKS, WORKS, Ok(4), DAYS_WITH_ROOTS),
            (
                Period::Hour,
                &ALL[22..118],
                WORKS,
                WORKS,
                Ok(2),
                HOURS_WITH_ROOTS,
            ),
            (Period::Month, b"", WORKS, WORKS, Ok(0), NOTHING_WITH_ROOT),
        ],
    );
}

#[test]
fn lines_with_roots_before_a_fault_are_written(rt: HostRuntime) {
    let cut = Err(DigestFault::Archive(ArchiveFault::BadFrame { at: 120 }));
    let unread = Err(DigestFault::Read);
    let unwritten = Err(DigestFault::Write { sent: 100 });
    see_digests(
        &rt,
        Roots::With,
        &[
            (
                Period::Month,
                &ALL[..120],
                WORKS,
                WORKS,
                cut,
                UNDATED_WITH_ROOT,
            ),
            (Period::Day, ALL, (22, 9), WORKS, unread, b""),
            (
                Period::Day,
                ALL,
                WORKS,
                (100, 9),
                unwritten,
                &UNDATED_WITH_ROOT[..100],
            ),
        ],
    );
}
