//! Archives are written to devices that fail.

use crate::support::{A, ARCHIVE, B, C, store_of, text_of};
use archive_pages::PagedArchive;
use archive_text::Store;
use archive_vec::{VecArchive, merge};
use octet_devices::{Fuse, ToWrite, WriteFault};
use std::alloc::Global;
use std::process::Abort;
use std::test::Fail;
use syslog_grammar::view;

/// The answer of a write, and what was taken by a device that passes so many octets and then fails,
/// and that fails at the call after the first ones.
fn written<S: Store>(
    alloc: Global,
    store: &S,
    octets: u64,
    calls: u64,
) -> (Result<(), WriteFault>, Vec<u8>) {
    let mut writer = Fuse::new(ToWrite::new(Vec::new(alloc)), octets, calls);
    let answer = store.write(&mut writer);
    (answer, writer.into_inner().into_inner())
}

/// For each number of octets after which the device fails: so many were written, as the answer
/// says.
fn each_octet_fails<S: Store>(rt: &(impl Abort + AllocGlobal), store: &S) {
    assert_eq!(rt; ARCHIVE.len(), 118);
    for sent in 0..118 {
        let (answer, taken) = written(rt.alloc(), store, sent as u64, u64::MAX);
        assert_eq!(rt; answer, Err(WriteFault { sent: sent as u64 }));
        assert_eq!(rt; taken.as_slice(), &ARCHIVE[..sent]);
        let (answer, taken) = written(rt.alloc(), store, u64::MAX, sent as u64);
        let whole = answer.is_ok();
        assert_eq!(rt; whole, sent > 0);
        assert_eq!(rt; taken.is_empty(), !whole);
    }
    let (answer, taken) = written(rt.alloc(), store, 118, u64::MAX);
    assert_eq!(rt; answer, Ok(()));
    assert_eq!(rt; taken.as_slice(), ARCHIVE);
}

#[test]
fn a_short_archive_is_written_up_to_the_failure(rt: HostRuntime) -> Result<(), Fail> {
    let alloc = rt.alloc();
    for (left, right) in [([A, C], [A, B]), ([A, B], [A, C])] {
        let left = store_of(alloc, VecArchive::new(alloc), &left)?;
        let right = store_of(alloc, VecArchive::new(alloc), &right)?;
        each_octet_fails(&rt, &merge(alloc, &left, &right)?);
    }
    let paged = store_of(alloc, PagedArchive::new(alloc), &[B, A, C])?;
    each_octet_fails(&rt, &paged);
    Ok(())
}

/// A store with 600 records of some 120 octets, whose text leaves in several writes.
fn long_store<S: Store + Drop>(alloc: Global, mut store: S) -> Result<S, Fail> {
    for number in 1000..1600 {
        let octets = format!(in alloc; "<0>1 - - - - - - {number} {number:0>96}")?;
        let seen = view(octets.as_bytes()).ok().ok_or("no record")?;
        store.add_view(alloc, &seen)?;
    }
    Ok(store)
}

/// Each write fails in turn: what was written is a prefix, and as long as the answer says. Gives
/// the number of writes.
fn each_write_fails<S: Store>(rt: &(impl Abort + AllocGlobal), store: &S) -> Result<u64, Fail> {
    let alloc = rt.alloc();
    let text = text_of(alloc, store)?;
    for call in 0..99 {
        let (answer, taken) = written(alloc, store, u64::MAX, call);
        match answer {
            Ok(()) => {
                assert!(rt; taken == text);
                return Ok(call);
            }
            Err(WriteFault { sent }) => {
                assert_eq!(rt; taken.len() as u64, sent);
                assert!(rt; text.starts_with(taken.as_slice()));
                assert!(rt; taken.len() < text.len());
            }
        }
    }
    Err("too many writes")?
}

#[test]
fn a_long_archive_is_written_up_to_the_failure(rt: HostRuntime) -> Result<(), Fail> {
    let alloc = rt.alloc();
    let store = long_store(alloc, VecArchive::new(alloc))?;
    assert_eq!(rt; each_write_fails(&rt, &store)?, 5);
    let paged = long_store(alloc, PagedArchive::new(alloc))?;
    assert_eq!(rt; each_write_fails(&rt, &paged)?, 5);
    Ok(())
}
