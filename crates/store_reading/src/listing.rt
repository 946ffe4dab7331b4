//! Which names a folder has.
ghost use Rattle.std.specs.Prelude.{◌≡◌, IfErr, IfOk};
ghost use Rattle.store_reading.specs.Causes.{IsCause, list_causes};
ghost use Rattle.store_reading.specs.Folders.{AreNamesOf};

use crate::fault::ReadFault;
use crate::folder::Folder;
use crate::name_order::Names;
use disk::FileName;
use std::alloc::Global;

/// How often names are listed again at most, until two listings agree.
pub(crate) const LISTINGS: usize = 10_000;

// The names of a folder's files, in the order of their octets, as one listing gives them.
fn list_once<F: Folder>(alloc: Global, folder: &mut F) -> Result<Vec<FileName>, ReadFault>
    ensures names { F.tells folder.new → IfOk result (λ v. AreNamesOf (F.files folder.old) v.items) }
    ensures same { F.tells folder.new → F.files folder.new ≡ F.files folder.old }
    ensures told { F.tells folder.new → F.tells folder.old }
    ensures cause { IfErr result (IsCause (list_causes (F.has_failed folder.new))) }
{
    match folder.names(alloc) {
        Ok(mut names) => {
            names.sort_by(|one, other| one.as_octets().cmp(other.as_octets()))?;
            Ok(names)
        }
        Err(fault) => Err(ReadFault::Folder { fault }),
    }
}

// Whether two listings have the same names.
fn agree(one: &[FileName], other: &[FileName]) -> bool {
    if one.len() != other.len() {
        return false;
    }
    one.iter()
        .zip(other)
        .all(|(name, again)| name.as_octets() == again.as_octets())
}

/// The names of a folder's files, in the order of their octets. They are listed until two listings
/// agree, since one that is made while files are replaced may lack both those that go and those
/// that come.
///
/// # Errors
/// The folder's fault, lack of memory, or `Gone` if no two listings in a row agree, of `LISTINGS`
/// and one more.
pub fn list<F: Folder>(alloc: Global, folder: &mut F) -> Result<Vec<FileName>, ReadFault>
    ensures names { F.tells folder.new → IfOk result (λ v. AreNamesOf (F.files folder.old) v.items) }
    ensures same { F.tells folder.new → F.files folder.new ≡ F.files folder.old }
    ensures told { F.tells folder.new → F.tells folder.old }
    ensures cause { IfErr result (IsCause (list_causes (F.has_failed folder.new))) }
{
    let mut names = list_once(alloc, folder)?;
    'listings: for _ in 0..LISTINGS {
        let again = list_once(alloc, folder)?;
        if agree(&names, &again) {
            return Ok(again);
        }
        names = again;
    }
    Err(ReadFault::Gone)
}

/// The names of a folder's files, listed in the same way, those of the segments of a day side by
/// side.
pub(crate) fn list_in_order<F: Folder>(alloc: Global, folder: &mut F) -> Result<Names, ReadFault>
    ensures names { F.tells folder.new → IfOk result (λ names. AreNamesOf (F.files folder.old) names) }
    ensures same { F.tells folder.new → F.files folder.new ≡ F.files folder.old }
    ensures told { F.tells folder.new → F.tells folder.old }
    ensures cause { IfErr result (IsCause (list_causes (F.has_failed folder.new))) }
{
    let names = list(alloc, folder)?;
    let ordered = Names::new(names)?;
    Ok(ordered)
}
