//! `merge_streams`, `migrate` and `migrate_into`, with their outcomes on lines. If an allocation
//! fails, the line says so, and the call is then made again, on the same devices.

use crate::room::Room;
use crate::rows::{AB, ABC, AC};
use archive_migration::{ReadFault, migrate, migrate_into};
use archive_pages::PagedArchive;
use archive_streams::{MergeFault, merge_streams};
use archive_text::Store;
use archive_vec::VecArchive;
use octet_devices::{FromRead, ToWrite};
use std::alloc::Global;
use std::io;

/// An archive of the old form, whose elements stand in the order of the octets, and what it
/// becomes.
const OLD: &[u8] = b"21 <0>1 - - - - - [b][c]21 <0>1 - - - - - [c][a]21 <0>1 - - - - - [c][b]";

const MIGRATED: &[u8] = b"21 <0>1 - - - - - [a][c]21 <0>1 - - - - - [b][c]";

/// Two archives are joined into room that is there already. When memory is lacking, nothing is read
/// and nothing written, so the same devices are used again.
fn join(rt: &impl Print, alloc: Global) -> io::Result<()> {
    let mut left = FromRead::new(AC);
    let mut right = FromRead::new(AB);
    let mut writer = ToWrite::new(Vec::with_capacity(alloc, 200)?);
    let (note, answer) = match merge_streams(alloc, &mut left, &mut right, &mut writer) {
        Err(MergeFault::Memory) => {
            let again = merge_streams(alloc, &mut left, &mut right, &mut writer);
            ("memory; ", again)
        }
        answer => ("", answer),
    };
    let is_right = writer.into_inner().as_slice() == ABC;
    println!(rt; "merge_streams: {note}{answer:?}, the union is {is_right}")
}

/// Two archives are joined into memory that grows.
fn join_growing(rt: &impl Print, alloc: Global) -> io::Result<()> {
    let mut note = "";
    for _ in 0..2 {
        let (mut left, mut right) = (FromRead::new(AC), FromRead::new(AB));
        let mut writer = ToWrite::new(Vec::new(alloc));
        let answer = merge_streams(alloc, &mut left, &mut right, &mut writer);
        let taken = writer.into_inner();
        let is_prefix = ABC.starts_with(&taken);
        match answer {
            Ok(count) => {
                let is_union = taken.as_slice() == ABC;
                return println!(rt;
                    "merge_streams into memory: {note}{count} records, the union is {is_union}"
                );
            }
            Err(MergeFault::Memory) if taken.is_empty() => note = "memory; ",
            Err(MergeFault::Write { sent }) if is_prefix && taken.len() as u64 == sent => {
                note = "the writer failed after a prefix; "
            }
            Err(fault) => return println!(rt; "merge_streams into memory: {fault}"),
        }
    }
    println!(rt; "merge_streams into memory: {note}refused again")
}

/// Both calls that join streams. It fails if the trial itself gets no memory or cannot print.
pub fn streams(rt: &impl Print, alloc: Global) -> io::Result<()> {
    join(rt, alloc)?;
    join_growing(rt, alloc)
}

/// An archive of the old form is read into a store. When memory is lacking, the store may hold some
/// of the records.
fn into_store<S: Store + Drop>(
    rt: &impl Print,
    alloc: Global,
    name: &str,
    mut store: S,
) -> io::Result<()> {
    let mut room = Room::new(alloc)?;
    let (note, answer) = match migrate_into(alloc, OLD, &mut store) {
        Err(ReadFault::Memory) => ("memory; ", migrate_into(alloc, OLD, &mut store)),
        answer => ("", answer),
    };
    let is_right = room.is_text(&store, MIGRATED);
    println!(rt; "migrate_into {name}: {note}{answer:?}, the records are {is_right}")
}

/// Every call that migrates. It fails if the trial itself gets no memory or cannot print.
pub fn migration(rt: &impl Print, alloc: Global) -> io::Result<()> {
    let (note, answer) = match migrate(alloc, OLD) {
        Err(ReadFault::Memory) => ("memory; ", migrate(alloc, OLD)),
        answer => ("", answer),
    };
    let is_right = answer.is_ok_and(|text| text.as_slice() == MIGRATED);
    println!(rt; "migrate: {note}the records are {is_right}")?;
    into_store(rt, alloc, "sorted", VecArchive::new(alloc))?;
    into_store(rt, alloc, "paged", PagedArchive::new(alloc))
}
