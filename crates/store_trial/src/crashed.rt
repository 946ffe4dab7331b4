//! Folders as a crash left them.

use crate::folder::archive_of;
use crate::keeper::Keeper;
use anyhow::Result;
use std::io::{BufRead, BufReader, Write};

// a record that is committed once a folder was opened
const AFTER: &[u8] = b"<13>1 - - store_trial - - - after the crash";

// Writes a text behind a line that says what it is and how many octets it has.
fn print_text(rt: &HostRuntime, what: &str, text: &[u8]) -> Result<()> {
    let len = text.len();
    println!(rt; "{what} {len}")?;
    rt.stdout().write_all(text)?;
    Ok(())
}

// What a folder holds before it is opened, once it is open, once it has one record more, and once that
// is in a segment.
fn open_one(rt: &HostRuntime, dir: &str) -> Result<()> {
    print_text(rt, "crashed", &archive_of(rt, dir)?)?;
    let mut keeper = Keeper::open(rt, dir)?;
    print_text(rt, "opened", &archive_of(rt, dir)?)?;
    keeper.add(AFTER)?;
    keeper.commit()?;
    print_text(rt, "committed", &archive_of(rt, dir)?)?;
    keeper.checkpoint()?;
    print_text(rt, "checkpoint", &archive_of(rt, dir)?)?;
    Ok(())
}

/// Opens each folder that a line of standard input names, and writes what it holds. It fails if a
/// folder cannot be opened or read, or nothing can be written.
pub fn open_each(rt: &HostRuntime) -> Result<()> {
    let alloc = rt.alloc();
    for line in BufReader::new(alloc, rt.reader())?.lines(alloc) {
        let dir = line?;
        if let Err(error) = open_one(rt, dir.as_str()) {
            println!(rt; "fault {error:#}")?;
        }
        println!(rt; "done")?;
    }
    Ok(())
}
