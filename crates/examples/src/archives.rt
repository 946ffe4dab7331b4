//! Two archives are merged; records are selected from one, and it is digested.

ghost use Rattle.std.specs.Prelude.{IfOk};
ghost use Rattle.archive_sets.specs.Fields.{IsAsSevere, IsOfRecord};
ghost use Rattle.archive_text.specs.declared.period.Period.TheVariants.{Day};
ghost use Rattle.examples.specs.Shown.{IsDigestText, IsSelectedText, IsUnionText};

use std::alloc::Global;
use syslog::{
    AsSevereAs, DigestFault, FromRead, MergeFault, Period, SelectFault, Severity, ToWrite,
    digest_stream, merge_streams, select_stream,
};

/// The text of the union of two archives.
///
/// # Errors
/// A text is no archive, for a reason that names its side; or out of memory.
pub fn union_of(alloc: Global, left: &[u8], right: &[u8]) -> Result<Vec<u8>, MergeFault>
    // that of the records that one of them has
    ensures { IfOk result (λ v. IsUnionText left.now right.now v.items) }
{
    let mut union = ToWrite::new(Vec::new(alloc));
    let mut left_reader = FromRead::new(left);
    let mut right_reader = FromRead::new(right);
    match merge_streams(alloc, &mut left_reader, &mut right_reader, &mut union) {
        Ok(_count) => Ok(union.into_inner()),
        Err(fault) => Err(fault),
    }
}

/// The archive of the records that are as severe as this, or more severe.
///
/// # Errors
/// The text is no archive, or out of memory.
pub fn severe(alloc: Global, archive: &[u8], severity: Severity) -> Result<Vec<u8>, SelectFault>
    // that of all of them, and of no others
    ensures { IfOk result (λ v. IsSelectedText (λ e. IsOfRecord (IsAsSevere severity) e.octets)
        archive.now v.items) }
{
    let mut selected = ToWrite::new(Vec::new(alloc));
    let mut reader = FromRead::new(archive);
    match select_stream(alloc, &AsSevereAs { severity }, &mut reader, &mut selected) {
        Ok(_count) => Ok(selected.into_inner()),
        Err(fault) => Err(fault),
    }
}

/// The digest of an archive, a line for each day that has records.
///
/// # Errors
/// The text is no archive, or out of memory.
pub fn daily(alloc: Global, archive: &[u8]) -> Result<Vec<u8>, DigestFault>
    // the lines of its days
    ensures { IfOk result (λ v. IsDigestText Day archive.now v.items) }
{
    let mut digest = ToWrite::new(Vec::new(alloc));
    let mut reader = FromRead::new(archive);
    match digest_stream(alloc, Period::Day, &mut reader, &mut digest) {
        Ok(_count) => Ok(digest.into_inner()),
        Err(fault) => Err(fault),
    }
}

#[cfg(test)]
mod tests {
    use super::*;
    use std::test::Fail;
    use syslog::{ArchiveFault, Store, VecArchive, decode};

    // The archive of some records.
    fn archive(alloc: Global, records: &[&[u8]]) -> Result<Vec<u8>, Fail> {
        let mut archive = VecArchive::new(alloc);
        for &octets in records {
            let record = decode(alloc, octets)?;
            archive.add(alloc, &record)?;
        }
        let mut text = ToWrite::new(Vec::new(alloc));
        archive.write(&mut text)?;
        Ok(text.into_inner())
    }

    const ONE: &[u8] = b"<14>1 2024-02-29T23:30:00Z h a - - - one";

    const TWO: &[u8] = b"<14>1 2024-02-29T23:31:00Z h a - - - two";

    #[test]
    fn the_union_is_that_of_the_sets(rt: HostRuntime) -> Result<(), Fail> {
        let alloc = rt.alloc();
        let left = archive(alloc, [ONE].as_slice())?;
        let right = archive(alloc, [TWO, ONE].as_slice())?;
        let both = archive(alloc, [ONE, TWO].as_slice())?;
        assert!(rt; union_of(alloc, left.as_slice(), right.as_slice())? == both);
        Ok(())
    }

    #[test]
    fn the_severe_ones_are_selected(rt: HostRuntime) -> Result<(), Fail> {
        let alloc = rt.alloc();
        let all = archive(alloc, [ONE, TWO].as_slice())?;
        assert!(rt; severe(alloc, all.as_slice(), Severity::Informational)? == all);
        assert!(rt; severe(alloc, all.as_slice(), Severity::Error)?.is_empty());
        Ok(())
    }

    #[test]
    fn a_day_has_a_line(rt: HostRuntime) -> Result<(), Fail> {
        let alloc = rt.alloc();
        let all = archive(alloc, [ONE, TWO].as_slice())?;
        let lines = daily(alloc, all.as_slice())?;
        assert!(rt; lines.as_slice().starts_with(b"2024-02-29 2 "));
        Ok(())
    }

    #[test]
    fn a_fault_tells_its_side_and_its_octet(rt: HostRuntime) {
        let found = union_of(rt.alloc(), b"".as_slice(), b"x".as_slice()).err();
        let expected = MergeFault::Right(ArchiveFault::BadFrame { at: 0 });
        assert_eq!(rt; found, Some(expected));
    }
}
