//! Files, and octets in memory, as inputs of one type.

ghost use Rattle.store_reading.specs.Sources.{source_ends, source_state};

use octet_devices::{DeviceFault, FromRead, Input};

/// A file, or octets in memory.
#[derive(Drop)]
pub enum Source<'a, R> {
    /// A file.
    File(R),
    /// Octets in memory.
    Octets(FromRead<&'a [u8]>),
}

impl<'a, R: Input> Input for Source<'a, R> {
    ghost state = { source_state R.state };

    ghost few_ends = { source_ends R.state R.few_ends };

    fn read(&mut self, buf: &mut [u8]) -> Result<usize, DeviceFault> {
        match self {
            Source::File(file) => file.read(buf),
            Source::Octets(octets) => octets.read(buf),
        }
    }
}
