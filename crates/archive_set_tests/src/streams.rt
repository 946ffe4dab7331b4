//! Two archives joined as they are read.

use crate::support::{A, AB, AC, ALL, B, C, Limits, WORKS, reader, see, taken, writer};
use archive_streams::{MergeFault, Side, merge_streams};
use archive_text::ArchiveFault;
use std::alloc::Global;
use std::io::Read;
use std::process::Abort;

// the archive of A with an octet behind it
const AX: &[u8] = b"19 <13>1 - h a - - - xx";

// the archive of all three with an octet behind it
const ALL_X: &[u8] = b"19 <13>1 - h a - - - x\
    45 <12>1 2024-02-29T23:00:00.000000Z h a - - - z\
    45 <14>1 2024-02-29T23:30:00.000000Z h a - - - yx";

// B before A
const BA: &[u8] = b"45 <14>1 2024-02-29T23:30:00.000000Z h a - - - y19 <13>1 - h a - - - x";

// what is answered for two inputs, and what is written then: the limits are of left, right and
// writer
fn joined<L: Read + Drop, R: Read + Drop>(
    alloc: Global,
    left: L,
    right: R,
    limits: [Limits; 3],
) -> (Result<u64, MergeFault>, Vec<u8>) {
    let [of_left, of_right, of_writer] = limits;
    let mut left = reader(left, of_left);
    let mut right = reader(right, of_right);
    let mut writer = writer(alloc, of_writer);
    let answer = merge_streams(alloc, &mut left, &mut right, &mut writer);
    (answer, taken(writer))
}

// two archives, and what comes of them
type Row<'a> = (&'a [u8], &'a [u8], Result<u64, MergeFault>, &'a [u8]);

fn see_joins(rt: &(impl Abort + AllocGlobal), rows: &[Row<'_>]) {
    for (n, (left, right, answer, octets)) in rows.iter().enumerate() {
        let found = joined(rt.alloc(), *left, *right, [WORKS, WORKS, WORKS]);
        see(rt, n, &found, answer, octets);
    }
}

fn bad_frame(at: u64) -> ArchiveFault {
    ArchiveFault::BadFrame { at }
}

#[test]
fn the_union_is_written_both_ways_round(rt: HostRuntime) {
    see_joins(
        &rt,
        &[
            (AC, AB, Ok(3), ALL),
            (AB, AC, Ok(3), ALL),
            (ALL, ALL, Ok(3), ALL),
            (b"", b"", Ok(0), b""),
        ],
    );
}

#[test]
fn what_comes_before_a_fault_is_written(rt: HostRuntime) {
    let unsorted = MergeFault::Left(ArchiveFault::NotAscending { at: 48 });
    see_joins(
        &rt,
        &[
            (AX, b"", Err(MergeFault::Left(bad_frame(22))), A),
            (AX, b"x", Err(MergeFault::Right(bad_frame(0))), b""),
            (b"x", b"x", Err(MergeFault::Left(bad_frame(0))), b""),
            (BA, b"", Err(unsorted), B),
        ],
    );
}

// how much of all three is whole entries, if so many octets are there
fn whole_entries(octets: usize) -> usize {
    match octets {
        0..22 => 0,
        22..70 => 22,
        70..118 => 70,
        _ => 118,
    }
}

#[test]
fn a_cut_archive_is_written_up_to_its_last_whole_entry(rt: HostRuntime) {
    for n in 0..118 {
        let answer = match n {
            0 => Ok(0),
            22 => Ok(1),
            70 => Ok(2),
            _ => Err(MergeFault::Left(bad_frame(n as u64))),
        };
        let whole = whole_entries(n).min(ALL.len());
        let found = joined(rt.alloc(), &ALL[..n], b"".as_slice(), [WORKS, WORKS, WORKS]);
        see(&rt, n, &found, &answer, &ALL[..whole]);
    }
}

#[test]
fn a_failed_device_is_reported(rt: HostRuntime) {
    let unwritten = Err(MergeFault::Write { sent: 5 });
    let found = joined(rt.alloc(), A, b"".as_slice(), [WORKS, WORKS, (5, 9)]);
    see(&rt, 0, &found, &unwritten, &A[..5]);
    let unread = Err(MergeFault::Read(Side::Right));
    let found = joined(rt.alloc(), A, A, [WORKS, (99, 0), WORKS]);
    see(&rt, 1, &found, &unread, b"");
    let endless = Err(MergeFault::Left(bad_frame(10)));
    let found = joined(rt.alloc(), std::io::repeat(b'1'), A, [WORKS, WORKS, WORKS]);
    see(&rt, 2, &found, &endless, b"");
}

#[test]
fn a_text_is_cut_anywhere(rt: HostRuntime) {
    for cut in 0..118 {
        let left = (&ALL[..cut]).chain(&ALL[cut..]);
        let found = joined(rt.alloc(), left, C, [WORKS, WORKS, WORKS]);
        see(&rt, cut, &found, &Ok(3), ALL);
    }
}

#[test]
fn a_reader_that_fails_leaves_whole_entries(rt: HostRuntime) {
    for n in 0..119 {
        let whole = whole_entries(n).min(ALL.len());
        let unread = Err(MergeFault::Read(Side::Left));
        let found = joined(
            rt.alloc(),
            ALL,
            b"".as_slice(),
            [(n as u64, 999), WORKS, WORKS],
        );
        see(&rt, n, &found, &unread, &ALL[..whole]);
    }
    for n in 0..71 {
        // A is written once both sides have read it, and the rest once B is read
        let whole = match n {
            0..22 => 0,
            22..70 => 22,
            _ => 118,
        };
        let unread = Err(MergeFault::Read(Side::Right));
        let found = joined(rt.alloc(), AC, AB, [WORKS, (n as u64, 999), WORKS]);
        see(&rt, n, &found, &unread, &ALL[..whole]);
    }
}

#[test]
fn a_writer_that_fails_comes_before_a_later_fault(rt: HostRuntime) {
    for n in 0..120 {
        let sent = n as u64;
        let fault = if n < 118 {
            MergeFault::Write { sent }
        } else {
            MergeFault::Left(bad_frame(118))
        };
        let found = joined(rt.alloc(), ALL_X, AC, [WORKS, WORKS, (sent, 999)]);
        see(&rt, n, &found, &Err(fault), &ALL[..n.min(118)]);
    }
}

#[test]
fn each_call_of_a_device_may_fail(rt: HostRuntime) {
    for (left, right, whole, told) in [
        (AX, b"".as_slice(), A, Err(MergeFault::Left(bad_frame(22)))),
        (A, b"", A, Ok(1)),
        (AC, AB, ALL, Ok(3)),
    ] {
        for calls in 0..4 {
            let fails = (999, calls);
            for (limits, fault) in [
                ([fails, WORKS, WORKS], MergeFault::Read(Side::Left)),
                ([WORKS, fails, WORKS], MergeFault::Read(Side::Right)),
                ([WORKS, WORKS, fails], MergeFault::Write { sent: 0 }),
            ] {
                let (answer, octets) = joined(rt.alloc(), left, right, limits);
                assert!(rt; answer == told || answer == Err(fault));
                assert!(rt; whole.starts_with(&octets));
            }
        }
    }
}
