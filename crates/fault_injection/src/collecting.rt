//! Collectors and the texts of stores, as trials make them.

use archive_text::Store;
use octet_devices::ToWrite;
use std::alloc::{AllocError, Global};
use std::io;
use syslog_collect::Collector;

/// A collector over a store. If there is no memory for it, the store comes back.
pub fn collector<S: Store>(alloc: Global, store: S) -> Result<Collector<S>, S> {
    Collector::new(alloc, store, None)
}

/// Puts the text of a store in place of what a buffer holds. False if the buffer could not grow.
pub fn put_text<S: Store>(alloc: Global, store: &S, text: &mut Vec<u8>) -> bool {
    let mut taken = std::mem::replace(text, Vec::new(alloc));
    taken.clear();
    let mut writer = ToWrite::new(taken);
    let answer = store.write(&mut writer);
    *text = writer.into_inner();
    answer.is_ok()
}

/// The text of a store. It fails only when out of memory.
pub fn text_of<S: Store>(alloc: Global, store: &S) -> io::Result<Vec<u8>> {
    let mut text = Vec::new(alloc);
    if !put_text(alloc, store, &mut text) {
        return Err(AllocError)?;
    }
    Ok(text)
}
