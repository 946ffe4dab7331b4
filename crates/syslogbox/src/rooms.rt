//! How long the segments of a store are, which `expire --room` looks at.

use folder_disk::FolderPath;
use std::alloc::Global;
use std::{fs, io};
use store_expiry::{SegmentSize, days_first};
use store_reading::{segment_day, segment_period};

/// The octets of so many MiB.
pub fn octets_in(mib: u32) -> u64 {
    u64::from(mib) << 20
}

/// The segments of a store, each once, with the lengths of their files.
pub fn segment_sizes(rt: &HostRuntime, alloc: Global, dir: &str) -> io::Result<Vec<SegmentSize>> {
    let path = FolderPath::new(alloc, dir)?;
    let names = path.names(rt, alloc)?;
    let mut sizes = Vec::new(alloc);
    for name in days_first(alloc, &names)?.iter() {
        if segment_period(name.as_octets()).is_some() {
            let file = path.of_file(name)?;
            sizes.push(SegmentSize {
                day: segment_day(name.as_octets()),
                octets: fs::symlink_metadata(rt, file.as_str())?.len(),
            })?;
        }
    }
    Ok(sizes)
}
