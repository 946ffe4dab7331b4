//! A ledger is read from its first line on.

use crate::fault::ListFault;
use crate::segments::{has_file, is_segment};
use disk::{Disk, DiskFault, FileName};
use ledger::{LedgerFault, Standing, read_ledger};
use octet_devices::FromRead;
use std::alloc::Global;
use std::io::{self, ErrorKind, Read};

// A file of a disk, from an offset on.
#[derive(Drop)]
struct DiskFile<'a, D> {
    disk: &'a mut D,
    name: &'a FileName,
    at: u64,
}

impl<'a, D: Disk> Read for DiskFile<'a, D> {
    fn read(&mut self, buf: &mut [u8]) -> io::Result<usize> {
        match self.disk.read(self.name, self.at, buf) {
            Ok(n) => {
                self.at = self.at.saturating_add(n as u64);
                Ok(n)
            }
            Err(DiskFault::Memory) => Err(ErrorKind::OutOfMemory.into()),
            Err(_) => Err(ErrorKind::Other.into()),
        }
    }
}

/// What a ledger lists; nothing where there is none.
pub(crate) fn read_standing<D: Disk>(
    alloc: Global,
    disk: &mut D,
    ledger: &FileName,
) -> Result<Standing, ListFault> {
    if !has_file(disk, ledger)? {
        return Ok(Standing::new(alloc));
    }
    let file = DiskFile {
        disk,
        name: ledger,
        at: 0,
    };
    match read_ledger(alloc, &mut FromRead::new(file), None) {
        Ok(read) => Ok(read.standing),
        Err(LedgerFault::Broken { at }) => Err(ListFault::Broken { at }),
        Err(LedgerFault::Input(_)) => Err(ListFault::Disk(DiskFault::Failed)),
        Err(LedgerFault::Memory) => Err(ListFault::Disk(DiskFault::Memory)),
    }
}

/// Whether a server lists its segments: it has a ledger, or no segment yet. Then the ledger is made.
pub(crate) fn begins_ledger<D: Disk>(
    alloc: Global,
    disk: &mut D,
    ledger: &FileName,
) -> Result<bool, DiskFault> {
    if has_file(disk, ledger)? {
        return Ok(true);
    }
    for name in &disk.names(alloc)? {
        if is_segment(name) {
            return Ok(false);
        }
    }
    match disk.create(ledger) {
        Ok(()) | Err(DiskFault::Exists) => Ok(true),
        Err(fault) => Err(fault),
    }
}
