//! What the tests share: three entries, and devices over octets that fail where they are asked to.

use octet_devices::{FromRead, Fuse, ToWrite};
use std::alloc::Global;
use std::fmt::Debug;
use std::io::Read;
use std::process::Abort;

/// The entry of a record without a time.
pub const A: &[u8] = b"19 <13>1 - h a - - - x";

/// The entry of a record of 23:30.
pub const B: &[u8] = b"45 <14>1 2024-02-29T23:30:00.000000Z h a - - - y";

/// The entry of a record of 23:00.
pub const C: &[u8] = b"45 <12>1 2024-02-29T23:00:00.000000Z h a - - - z";

/// The archive of A and B.
pub const AB: &[u8] = b"19 <13>1 - h a - - - x\
    45 <14>1 2024-02-29T23:30:00.000000Z h a - - - y";

/// The archive of A and C.
pub const AC: &[u8] = b"19 <13>1 - h a - - - x\
    45 <12>1 2024-02-29T23:00:00.000000Z h a - - - z";

/// The archive of C and B.
pub const CB: &[u8] = b"45 <12>1 2024-02-29T23:00:00.000000Z h a - - - z\
    45 <14>1 2024-02-29T23:30:00.000000Z h a - - - y";

/// The archive of all three.
pub const ALL: &[u8] = b"19 <13>1 - h a - - - x\
    45 <12>1 2024-02-29T23:00:00.000000Z h a - - - z\
    45 <14>1 2024-02-29T23:30:00.000000Z h a - - - y";

/// How many octets a device passes in all, and the call that fails.
pub type Limits = (u64, u64);

/// The limits of a device that does not fail in these tests.
pub const WORKS: Limits = (u64::MAX, u64::MAX);

/// A device that reads within limits.
pub fn reader<R: Read>(octets: R, limits: Limits) -> Fuse<FromRead<R>> {
    Fuse::new(FromRead::new(octets), limits.0, limits.1)
}

/// A device that writes within limits.
pub fn writer(alloc: Global, limits: Limits) -> Fuse<ToWrite<Vec<u8>>> {
    Fuse::new(ToWrite::new(Vec::new(alloc)), limits.0, limits.1)
}

/// What a device was given.
pub fn taken(writer: Fuse<ToWrite<Vec<u8>>>) -> Vec<u8> {
    writer.into_inner().into_inner()
}

/// Sees that a row of a test has the answer and the octets that are expected.
pub fn see<F: PartialEq + Debug>(
    rt: &impl Abort,
    row: usize,
    found: &(Result<u64, F>, Vec<u8>),
    answer: &Result<u64, F>,
    octets: &[u8],
) {
    assert_eq!(rt; found.0, *answer, "row {row}");
    assert_eq!(rt; found.1.as_slice(), octets, "row {row}");
}
