//! The text of an old archive is migrated.

ghost use Rattle.std.specs.Prelude.{◌≡◌, [], List, IfErr, IfOk};
ghost use Rattle.archive_text.specs.Entries.{Entry};
ghost use Rattle.archive_text.specs.Text.{IsArchive, text_of};
ghost use Rattle.archive_text.specs.declared.limits.TheConstants.{ENTRY_MAX};
ghost use Rattle.archive_migration.specs.Migration.{Migrates};
ghost use Rattle.archive_migration.specs.Reading.{IsMigrateFault};

use crate::migrating::migrate_into;
use archive_vec::{ReadFault, VecArchive};
use octet_devices::ToWrite;
use std::alloc::Global;

/// The text of the archive into which an old archive is migrated.
///
/// # Errors
///
/// The fault of the text, by the rules of old archives, or that an allocation failed.
pub fn migrate(alloc: Global, text: &[u8]) -> Result<Vec<u8>, ReadFault>
    ensures ok { IfOk result (λ octets. (es : List Entry) × IsArchive ENTRY_MAX es
        × Migrates text.now [] es × (octets.items ≡ text_of es)) }
    ensures err { IfErr result (IsMigrateFault text.now) }
{
    let mut archive = VecArchive::new(alloc);
    if let Err(fault) = migrate_into(alloc, text, &mut archive) {
        return Err(fault);
    }
    let _archive = archive.len();
    let mut writer = ToWrite::new(Vec::new(alloc));
    match archive.write(&mut writer) {
        Ok(()) => Ok(writer.into_inner()),
        Err(_) => Err(ReadFault::Memory),
    }
}
