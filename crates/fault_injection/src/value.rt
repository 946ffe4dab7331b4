//! Each call of `syslog_value` that allocates, with its outcome on a line: `ok`, or `memory` and
//! what is left.

use octet_devices::{FromRead, ReadAllFault, read_all};
use std::alloc::{AllocError, Global};
use std::io;
use syslog_value::{
    Element, Message, Param, Priority, PushFault, Record, SdName, StructuredData, Word, WordFault,
};

/// An element with one parameter.
fn element(alloc: Global, id: &[u8]) -> Result<Element, AllocError> {
    let name = SdName::new(alloc, b"k").map_err(|_| AllocError)?;
    let value = String::from_str(alloc, "v")?;
    let mut params = Vec::new(alloc);
    params.push(Param::new(name, value))?;
    let id = SdName::new(alloc, id).map_err(|_| AllocError)?;
    Ok(Element::new(id, params))
}

/// Words, names, and an input that is read whole.
fn words(rt: &impl Print, alloc: Global) -> io::Result<()> {
    match Word::<48>::new(alloc, b"su") {
        Ok(word) => match word.copy(alloc) {
            Ok(copy) if copy == word => println!(rt; "word: ok, copied")?,
            Ok(_) => println!(rt; "word: another copy")?,
            Err(AllocError) => println!(rt; "word: ok, memory for its copy")?,
        },
        Err(WordFault::Memory) => println!(rt; "word: memory")?,
        Err(fault) => println!(rt; "word: {fault}")?,
    }
    match SdName::new(alloc, b"a") {
        Ok(_) => println!(rt; "name: ok")?,
        Err(WordFault::Memory) => println!(rt; "name: memory")?,
        Err(fault) => println!(rt; "name: {fault}")?,
    }
    let mut reader = FromRead::new(b"hello".as_slice());
    match read_all(alloc, &mut reader, 9) {
        Ok(kept) => {
            let count = kept.len();
            println!(rt; "read_all: ok, {count} octets")
        }
        Err(ReadAllFault::Memory) => println!(rt; "read_all: memory"),
        Err(fault) => println!(rt; "read_all: {fault}"),
    }
}

/// Adds one more element, which comes back if memory runs out.
fn push(rt: &impl Print, data: &mut StructuredData, element: Element) -> io::Result<()> {
    let before = data.elements().len();
    match data.push(element) {
        Ok(()) => println!(rt; "push: ok"),
        Err((_, PushFault::Memory)) if data.elements().len() == before => {
            println!(rt; "push: memory, unchanged")
        }
        Err((_, fault)) => println!(rt; "push: {fault}"),
    }
}

/// A record and the copies of what it holds.
fn copies(rt: &impl Print, alloc: Global, data: StructuredData) -> io::Result<()> {
    let Some(priority) = Priority::from_value(13) else {
        return println!(rt; "no priority");
    };
    let Ok(octets) = b"hello".as_slice().to_vec(alloc) else {
        return println!(rt; "record: memory for its message");
    };
    let Ok(message) = Message::any(octets) else {
        return println!(rt; "record: no message");
    };
    let host = Word::<255>::new(alloc, b"h").ok();
    let app = Word::<48>::new(alloc, b"a").ok();
    let record = Record::new(priority, None, host, app, None, None, data, message);
    match record.message().copy(alloc) {
        Ok(copy) if copy == *record.message() => println!(rt; "message: ok, copied")?,
        Ok(_) => println!(rt; "message: another copy")?,
        Err(AllocError) => println!(rt; "message: memory")?,
    }
    match record.structured().copy(alloc) {
        Ok(copy) if copy == *record.structured() => println!(rt; "structured data: ok, copied")?,
        Ok(_) => println!(rt; "structured data: another copy")?,
        Err(AllocError) => println!(rt; "structured data: memory")?,
    }
    match record.copy(alloc) {
        Ok(copy) if copy == record => println!(rt; "record: ok, copied"),
        Ok(_) => println!(rt; "record: another copy"),
        Err(AllocError) => println!(rt; "record: memory"),
    }
}

/// Every call of `syslog_value` that allocates.
pub fn value(rt: &impl Print, alloc: Global) -> io::Result<()> {
    words(rt, alloc)?;
    let mut data = StructuredData::empty(alloc);
    for id in [b"b".as_slice(), b"a", b"c", b"d", b"e", b"f"] {
        match element(alloc, id) {
            Ok(element) => push(rt, &mut data, element)?,
            Err(AllocError) => println!(rt; "push: memory for its element")?,
        }
    }
    copies(rt, alloc, data)
}
