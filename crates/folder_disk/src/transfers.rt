//! What is done to a file that is open.
ghost use Rattle.std.specs.Prelude.{◌≤◌, IfOk, length};

use std::fs::OpenFile;
use std::io::{self, ErrorKind, Read, Seek, SeekFrom, Write};

// no file of the system is longer
const OFFSET_MAX: u64 = (1 << 63) - 1;

/// Reads once from an offset on. Nothing is read at the end of the file or behind it.
pub(crate) fn read_from<F: Read + Seek>(file: &mut F, at: u64, buf: &mut [u8]) -> io::Result<usize>
    ensures { IfOk result (λ n. n ≤ length buf.new) }
{
    if at > OFFSET_MAX {
        return Ok(0);
    }
    file.seek(SeekFrom::Start(at))?;
    for _ in 0..u64::MAX {
        match file.read(buf) {
            Err(error) if error.kind() == ErrorKind::Interrupted => {}
            answer => return answer,
        }
    }
    Err(ErrorKind::Interrupted.into())
}

/// Where a file ends.
pub(crate) fn end_of<F: Seek>(file: &mut F) -> io::Result<u64> {
    file.seek(SeekFrom::End(0))
}

/// Writes all octets from an offset on, over what is there.
pub(crate) fn write_from<F: Write + Seek>(file: &mut F, at: u64, octets: &[u8]) -> io::Result<()> {
    file.seek(SeekFrom::Start(at))?;
    file.write_all(octets)
}

/// Cuts a file to a length in octets, if it is longer.
pub(crate) fn cut_to<F: OpenFile + Seek>(file: &mut F, len: u64) -> io::Result<()> {
    if len < end_of(file)? {
        file.set_len(len)?;
    }
    Ok(())
}
