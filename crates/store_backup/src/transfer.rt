//! The octets of a file are written to a draft.
ghost use Rattle.std.specs.Prelude.{◌≡◌, ◌++◌, ◌∷◌, [], IfOk, List, OnOk, Some, ℕ};
ghost use Rattle.journal.specs.Journals.{KeepsOthers};
ghost use Rattle.store_backup.specs.Drafts.{IsDrafted, IsTransfer};

use crate::draft::push;
use crate::fault::CopyFault;
use archive_streams::InputFault;
use disk::{Disk, FileName};
use octet_devices::{DeviceFault, Input};
use sha2::{Digest, Sha256};
use std::alloc::Global;
use store_reading::{HEX_LEN, ReadFault, hexadecimal};

/// How many octets of a file are in memory at most.
const PIECE: usize = 65_536;

/// How often a file is read at most.
const READS_MAX: u64 = 1 << 32;

/// What was written of a file.
#[derive(Drop)]
pub(crate) struct Transfer {
    /// Its SHA-256 in lower-case hexadecimal.
    pub(crate) hex: [u8; HEX_LEN],
    /// How many octets it has; `u64::MAX` stands for more too.
    pub(crate) octets: u64,
}

// The fault of a file that could not be read.
fn read_fault(alloc: Global, source: &FileName, fault: InputFault) -> CopyFault {
    match source.copy(alloc) {
        Ok(name) => CopyFault::Read(ReadFault::Read { name, fault }),
        Err(_) => CopyFault::Read(ReadFault::Memory),
    }
}

/// Writes all that the file of a name has left to an empty draft, a piece at a time.
pub(crate) fn transfer_octets<R: Input, D: Disk>(
    alloc: Global,
    source: &FileName,
    reader: &mut R,
    target: &mut D,
    draft: &FileName,
) -> Result<Transfer, CopyFault>
    ensures written { OnOk result (D.tells target.new → (text : List ℕ)
        → (R.state reader.old).left ≡ Some text → IsDrafted (D.state target.old) draft.now []
        → IsDrafted (D.state target.new) draft.now text) }
    ensures transfer { IfOk result (λ transfer. (text : List ℕ)
        → (R.state reader.old).left ≡ Some text → IsTransfer transfer text) }
    ensures others { D.tells target.new
        → KeepsOthers (D.state target.old) (D.state target.new) draft.now }
    ensures told { D.tells target.new → D.tells target.old }
{
    let mut piece = [0u8; PIECE];
    let mut hasher = Sha256::new();
    let mut octets: u64 = 0;
    for _turn in 0..READS_MAX {
        let n = match reader.read(&mut piece) {
            Ok(n) => n,
            Err(DeviceFault) => return Err(read_fault(alloc, source, InputFault::Device)),
        };
        if n == 0 {
            return Ok(Transfer {
                hex: hexadecimal(hasher),
                octets,
            });
        }
        push(alloc, target, draft, &piece[..n])?;
        hasher.update(&piece[..n]);
        octets = octets.saturating_add(n as u64);
    }
    Err(read_fault(alloc, source, InputFault::Endless))
}
