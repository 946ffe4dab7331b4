//! A text that is read whole, if it is not too long.

ghost use Rattle.std.specs.Prelude.{◌≤◌, ◌<◌, MatchResult};
ghost use Rattle.octet_devices.specs.Device.{ReadFailed};
ghost use Rattle.proof_engine.specs.Bounded.{GavePiece, IsNoText, IsText, TextFailures};

use octet_devices::{DeviceFault, Input, READ_MAX};
use std::alloc::Global;

/// Why a text was not read whole.
#[derive(Clone, Copy, Debug, PartialEq, Eq)]
pub enum TextFault {
    /// The reader failed.
    Read,
    /// It goes on behind the most octets that it may have.
    TooLong,
    /// An allocation failed.
    Memory,
}

// Reads at most so many octets, and at most `READ_MAX`.
fn read_piece<'a, R: Input>(
    reader: &mut R,
    piece: &'a mut [u8; READ_MAX],
    most: usize,
) -> Result<&'a [u8], DeviceFault>
    requires { 0 < most }
    ensures { MatchResult result
        (λ given. GavePiece most (R.state reader.old) (R.state reader.new) given.now)
        (λ _. ReadFailed (R.state reader.old) (R.state reader.new)) }
{
    let room = READ_MAX.min(most);
    let count = reader.read(&mut piece[..room])?;
    Ok(&piece[..count])
}

/// Reads a text of at most `limit` octets to its end. Of a longer one it reads one octet more, and
/// no further one.
pub(crate) fn read_text<R: Input>(
    alloc: Global,
    reader: &mut R,
    limit: usize,
) -> Result<Vec<u8>, TextFault>
    ensures outcome { MatchResult result
        (λ text. IsText limit (R.state reader.old) (R.state reader.new) text.items)
        (λ fault. IsNoText limit fault (R.state reader.old) (R.state reader.new)) }
    ensures told { TextFailures result (R.state reader.old).failures
        (R.state reader.new).failures }
{
    let mut text = Vec::new(alloc);
    let mut room = [0u8; READ_MAX];
    'pieces: while text.len() <= limit {
        let most = (limit - text.len()).saturating_add(1);
        let Ok(piece) = read_piece(reader, &mut room, most) else {
            return Err(TextFault::Read);
        };
        if piece.is_empty() {
            return Ok(text);
        }
        if text.extend_from_slice(piece).is_err() {
            return Err(TextFault::Memory);
        }
    }
    Err(TextFault::TooLong)
}
