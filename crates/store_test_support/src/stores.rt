//! What tests ask of a durable store, in functions without clauses.

use archive_text::{Added, Store};
use disk::Disk;
use durable_store::{CheckpointFault, DurableStore, OpenFault};
use octet_devices::{Output, ToWrite};
use record_store::StoreFault;
use std::alloc::Global;
use std::test::Fail;
use syslog_grammar::view;

/// The store of a folder.
pub fn opened<D: Disk>(alloc: Global, disk: &mut D) -> Result<DurableStore, OpenFault> {
    DurableStore::open(alloc, disk)
}

/// Adds the record of these octets.
pub fn add<S: Store>(alloc: Global, store: &mut S, octets: &[u8]) -> Result<Added, Fail> {
    let shown = view(octets).ok().ok_or("no record")?;
    Ok(store.add_view(alloc, &shown).ok().ok_or("refused")?)
}

/// Commits what waits.
pub fn commit<D: Disk>(
    alloc: Global,
    store: &mut DurableStore,
    disk: &mut D,
) -> Result<(), StoreFault> {
    store.commit(alloc, disk)
}

/// Makes a checkpoint.
pub fn checkpoint<D: Disk>(
    alloc: Global,
    store: &mut DurableStore,
    disk: &mut D,
) -> Result<(), CheckpointFault> {
    store.checkpoint(alloc, disk)
}

/// Opens a store again that is broken.
pub fn reopen<D: Disk>(
    alloc: Global,
    store: &mut DurableStore,
    disk: &mut D,
) -> Result<(), StoreFault> {
    store.reopen(alloc, disk)
}

/// How many records are in memory.
pub fn count<S: Store>(store: &S) -> usize {
    store.len()
}

fn write_to<S: Store, W: Output>(store: &S, output: &mut W) -> Result<(), Fail> {
    Ok(store.write(output).ok().ok_or("no text")?)
}

/// The archive of what is in memory.
pub fn text_of<S: Store>(alloc: Global, store: &S) -> Result<Vec<u8>, Fail> {
    let mut text = ToWrite::new(Vec::new(alloc));
    write_to(store, &mut text)?;
    Ok(text.into_inner())
}
