//! Archives of the old form, whose elements stand in the order of the octets.

use crate::support::ARCHIVE;
use archive_migration::{ReadFault, migrate};
use archive_text::ArchiveFault;
use std::test::Fail;

#[test]
fn an_old_archive_gives_its_records_by_id(rt: HostRuntime) -> Result<(), Fail> {
    for (old, new) in [
        (
            b"21 <0>1 - - - - - [a][b]21 <0>1 - - - - - [b][a]".as_slice(),
            b"21 <0>1 - - - - - [a][b]".as_slice(),
        ),
        (
            b"21 <0>1 - - - - - [b][c]21 <0>1 - - - - - [c][a]",
            b"21 <0>1 - - - - - [a][c]21 <0>1 - - - - - [b][c]",
        ),
        (ARCHIVE, ARCHIVE),
        (b"", b""),
    ] {
        let text = migrate(rt.alloc(), old).ok().ok_or("a fault")?;
        assert_eq!(rt; text.as_slice(), new);
    }
    Ok(())
}

#[test]
fn a_text_that_is_no_old_archive_is_refused(rt: HostRuntime) {
    for (old, fault) in [
        (
            b"21 <0>1 - - - - - [b][a]21 <0>1 - - - - - [a][b]".as_slice(),
            ArchiveFault::NotAscending { at: 24 },
        ),
        (
            b"21 <0>1 - - - - - [a][b]21 <0>1 - - - - - [a][b]",
            ArchiveFault::NotAscending { at: 24 },
        ),
        (
            b"17 <0>1 - - - - - - ",
            ArchiveFault::NotCanonical { at: 0 },
        ),
    ] {
        let refused = migrate(rt.alloc(), old).err();
        let expected = Some(ReadFault::Bad(fault));
        assert_eq!(rt; refused, expected);
    }
}
