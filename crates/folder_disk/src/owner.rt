//! Whose folder a store may be kept in.
ghost use Rattle.std.specs.Prelude.{◌≡◌, ◌↔◌, IfErr, IsOk};
ghost use Rattle.std.specs.IoError.{error_kind};
ghost use Rattle.folder_disk.specs.Owners.{IsRefusal, MayKeep, fault_kind};

use crate::path::FolderPath;
use std::alloc::AllocError;
use std::fs;
use std::io::{self, ErrorKind};
use std::os::unix::fs::MetadataExt;
use std::rt::Files;
use thiserror::Error;

// The bit of a mode by which everybody may write.
const ANYBODY_WRITES: u32 = 0o002;

/// Why a store may not be kept in a folder.
#[derive(Debug, Drop, Error)]
pub enum FolderFault {
    /// The system refused a call on it, or memory ran out.
    #[error("{0}")]
    System(io::Error),
    /// Its owner is neither the caller nor root.
    #[error("its owner is another user")]
    OtherOwner,
    /// The caller is root, and the owner is another user, who could not open what root leaves there.
    #[error("it is the store of user {uid}; run: setpriv --reuid={uid} --regid={gid} --clear-groups syslogbox ..")]
    OwnersAlone { uid: u32, gid: u32 },
    /// Everybody may write to it, and so exchange its files.
    #[error("everybody may write to it")]
    Anybodys,
    /// It was made or is there, and its parent, which keeps its name, could not be synced.
    #[error("its parent {parent}: {error}")]
    Parent { parent: String, error: io::Error },
}

impl FolderFault {
    /// The kind of the system's error; that of a refusal is that permission is denied.
    pub fn kind(&self) -> ErrorKind
        ensures { result ≡ fault_kind self.now }
    {
        match self {
            FolderFault::System(error) | FolderFault::Parent { error, .. } => error.kind(),
            FolderFault::OtherOwner | FolderFault::OwnersAlone { .. } | FolderFault::Anybodys =>
                ErrorKind::PermissionDenied,
        }
    }
}

impl From<io::Error> for FolderFault {
    ghost use Rattle.std.specs.Prelude.{◌≡◌};
    ghost use Rattle.folder_disk.specs.declared.owner.FolderFault.TheVariants.{System};

    ghost from_gives = { λ error fault. fault ≡ System error };

    fn from(error: io::Error) -> FolderFault {
        FolderFault::System(error)
    }
}

impl From<AllocError> for FolderFault {
    ghost use Rattle.std.specs.Prelude.{◌≡◌};
    ghost use Rattle.std.specs.declared.io.ErrorKind.TheVariants.{OutOfMemory};
    ghost use Rattle.folder_disk.specs.Owners.{fault_kind};

    ghost from_gives = { λ _ fault. fault_kind fault ≡ OutOfMemory };

    fn from(error: AllocError) -> FolderFault {
        FolderFault::System(error.into())
    }
}

impl From<FolderFault> for io::Error {
    ghost use Rattle.std.specs.Prelude.{◌≡◌};
    ghost use Rattle.std.specs.IoError.{error_kind};
    ghost use Rattle.folder_disk.specs.Owners.{fault_kind};

    ghost from_gives = { λ fault error. error_kind error ≡ fault_kind fault };

    fn from(fault: FolderFault) -> io::Error {
        match fault {
            FolderFault::System(error) => error,
            FolderFault::Parent { error, .. } => error,
            FolderFault::OtherOwner => refusal("its owner is another user"),
            FolderFault::OwnersAlone { .. } => refusal("it is the store of another user"),
            FolderFault::Anybodys => refusal("everybody may write to it"),
        }
    }
}

fn refusal(words: &str) -> io::Error
    ensures { error_kind result ≡ ErrorKind.PermissionDenied }
{
    io::Error::new(ErrorKind::PermissionDenied, words)
}

// Refuses a folder of this owner and mode, in which the caller may not keep a store.
fn require_own(caller: u32, owner: u32, group: u32, mode: u32) -> Result<(), FolderFault>
    ensures ok { IsOk result ↔ MayKeep caller owner mode }
    ensures err { IfErr result (IsRefusal caller owner group) }
{
    if owner != caller && owner != 0 {
        if caller == 0 {
            return Err(FolderFault::OwnersAlone {
                uid: owner,
                gid: group,
            });
        }
        return Err(FolderFault::OtherOwner);
    }
    if mode & ANYBODY_WRITES != 0 {
        return Err(FolderFault::Anybodys);
    }
    Ok(())
}

/// Refuses a folder in which the caller may not keep a store: its owner is neither the caller nor root,
/// or everybody may write to it. A link stands for the folder that it leads to.
pub(crate) fn check_owner<R: Files>(rt: &R, path: &FolderPath) -> Result<(), FolderFault> {
    let found = match fs::metadata(rt, path.as_str()) {
        Ok(found) => found,
        Err(error) => return Err(FolderFault::System(error)),
    };
    require_own(libc::geteuid(), found.uid(), found.gid(), found.mode())
}
