//! Whether a text is an archive.

use archive_laws::archive_or_fault;
use archive_text::ArchiveFault;

#[test]
fn a_text_is_an_archive_or_has_a_fault(rt: HostRuntime) {
    let sorted = b"19 <13>1 - h a - - - x\
        45 <12>1 2024-02-29T23:00:00.000000Z h a - - - z\
        45 <14>1 2024-02-29T23:30:00.000000Z h a - - - y";
    let reversed = b"45 <14>1 2024-02-29T23:30:00.000000Z h a - - - y19 <13>1 - h a - - - x";
    for (text, fault) in [
        (b"".as_slice(), None),
        (sorted, None),
        (reversed, Some(ArchiveFault::NotAscending { at: 48 })),
        (
            b"19 <13>1 - h a - - - x19 <13>1 - h a - - - x",
            Some(ArchiveFault::NotAscending { at: 22 }),
        ),
        (
            b"19 <13>1 - h a - - - xx",
            Some(ArchiveFault::BadFrame { at: 22 }),
        ),
    ] {
        assert_eq!(rt; archive_or_fault(text), fault);
    }
}
