//! Each call of `syslog_grammar` that allocates, and the copy of a record, with its outcome on a
//! line: `ok` and its result, or `memory` and what is left.

use std::alloc::{AllocError, Global};
use std::io;
use syslog_grammar::{
    DecodeFault, RecordView, canon, decode, view, write_canonical_octets, write_canonical_view,
};
use syslog_value::Record;

/// Two elements, the one with the greater id first, values with escapes, and a message that is a
/// text.
const OCTETS: &[u8] =
    b"<34>1 2003-10-11T22:14:15.003+02:00 host su 77 ID47 [b k=\"x\\n\\\"\\]\" l=\"\"][a m=\"\xc3\xa9\"] \xef\xbb\xbfgr\xc3\xb6\xc3\x9fe";

/// Their canonical form.
const CANONICAL: &[u8] =
    b"<34>1 2003-10-11T20:14:15.003000Z host su 77 ID47 [a m=\"\xc3\xa9\"][b k=\"x\\\\n\\\"\\]\" l=\"\"] \xef\xbb\xbfgr\xc3\xb6\xc3\x9fe";

/// The octets that are in the vector already.
const BEFORE: &[u8] = b"before ";

/// `canon` and `copy` of the record.
fn whole(rt: &impl Print, alloc: Global, record: &Record) -> io::Result<()> {
    match canon(alloc, record) {
        Ok(octets) if octets.as_slice() == CANONICAL => {
            let count = octets.len();
            println!(rt; "canon: ok, {count} octets")?
        }
        Ok(_) => println!(rt; "canon: other octets")?,
        Err(AllocError) => println!(rt; "canon: memory")?,
    }
    match record.copy(alloc) {
        Ok(copy) if copy == *record => println!(rt; "copy: ok, copied"),
        Ok(_) => println!(rt; "copy: another copy"),
        Err(AllocError) => println!(rt; "copy: memory"),
    }
}

/// `write_canonical_view` behind octets that are there already.
fn put(rt: &impl Print, alloc: Global, seen: &RecordView<'_>) -> io::Result<()> {
    let Ok(mut out) = BEFORE.to_vec(alloc) else {
        return println!(rt; "write_canonical_view: memory for the octets before");
    };
    let outcome = write_canonical_view(alloc, seen, &mut out);
    let octets = out.len();
    match outcome {
        Ok(()) => println!(rt; "write_canonical_view: ok, {octets} octets"),
        Err(AllocError) if out.as_slice() == BEFORE => {
            println!(rt; "write_canonical_view: memory, unchanged at {octets} octets")
        }
        Err(AllocError) => println!(rt; "write_canonical_view: memory, changed to {octets} octets"),
    }
}

/// `write_canonical_octets` behind octets that are there already.
fn put_of(rt: &impl Print, alloc: Global) -> io::Result<()> {
    let Ok(mut out) = BEFORE.to_vec(alloc) else {
        return println!(rt; "write_canonical_octets: memory for the octets before");
    };
    let outcome = write_canonical_octets(alloc, OCTETS, &mut out);
    let octets = out.len();
    match outcome {
        Ok(None) => println!(rt; "write_canonical_octets: ok, {octets} octets"),
        Ok(Some(_)) => println!(rt; "write_canonical_octets: refused"),
        Err(AllocError) if out.as_slice() == BEFORE => {
            println!(rt; "write_canonical_octets: memory, unchanged at {octets} octets")
        }
        Err(AllocError) => println!(rt;
            "write_canonical_octets: memory, changed to {octets} octets"
        ),
    }
}

/// Every call of `syslog_grammar` that allocates.
pub fn grammar(rt: &impl Print, alloc: Global) -> io::Result<()> {
    match decode(alloc, OCTETS) {
        Ok(record) => {
            let count = record.structured().elements().len();
            println!(rt; "decode: ok, {count} elements")?
        }
        Err(DecodeFault::Memory) => println!(rt; "decode: memory")?,
        Err(fault) => println!(rt; "decode: {fault}")?,
    }
    let Ok(seen) = view(OCTETS) else {
        return println!(rt; "view: refused");
    };
    match seen.to_record(alloc) {
        Ok(record) => {
            println!(rt; "to_record: ok")?;
            whole(rt, alloc, &record)?
        }
        Err(AllocError) => println!(rt; "to_record: memory")?,
    }
    put(rt, alloc, &seen)?;
    put_of(rt, alloc)
}
