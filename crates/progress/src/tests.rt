use crate::{LINE_MICROS, Progress, ProgressUnit};
use std::test::Fail;

#[test]
fn a_line_tells_count_total_percentage_and_rate(rt: HostRuntime) -> Result<(), Fail> {
    let mut progress = Progress::new(ProgressUnit::Octets, 0);
    progress.expect_more(Some(98_765_432));
    progress.add(12_345_678);
    let mut out = Vec::new(rt.alloc());
    progress.draw(1_500_000, &mut out)?;
    let line = b"\r12,345,678 of 98,765,432 octets (12 %), 8,230,452 octets/s\x1b[K";
    assert_eq!(rt; out.as_slice(), line.as_slice());
    assert_eq!(rt; progress.clear(), b"\r\x1b[K".as_slice());
    assert_eq!(rt; progress.clear(), b"".as_slice());
    Ok(())
}

#[test]
fn a_line_without_a_total_has_no_percentage(rt: HostRuntime) -> Result<(), Fail> {
    let mut progress = Progress::new(ProgressUnit::Files, 7);
    progress.expect_more(None);
    progress.add(1_000);
    let mut out = Vec::new(rt.alloc());
    progress.draw(7, &mut out)?;
    assert_eq!(rt; out.as_slice(), b"\r1,000 files\x1b[K".as_slice());
    assert!(rt; progress.percent().is_none());
    Ok(())
}

#[test]
fn a_line_is_due_half_a_second_after_the_last(rt: HostRuntime) -> Result<(), Fail> {
    let mut progress = Progress::new(ProgressUnit::Octets, 100);
    assert!(rt; !progress.is_due(100 + LINE_MICROS - 1));
    assert!(rt; progress.is_due(100 + LINE_MICROS));
    let mut out = Vec::new(rt.alloc());
    progress.draw(1_000_000, &mut out)?;
    assert!(rt; !progress.is_due(1_000_000 + LINE_MICROS - 1));
    assert!(rt; progress.is_due(1_000_000 + LINE_MICROS));
    Ok(())
}

#[test]
fn a_line_has_at_most_79_columns(rt: HostRuntime) -> Result<(), Fail> {
    let mut progress = Progress::new(ProgressUnit::Octets, 0);
    progress.expect_more(Some(u64::MAX));
    progress.add(u64::MAX - 1);
    assert_eq!(rt; progress.percent(), Some(99));
    let mut out = Vec::new(rt.alloc());
    progress.draw(1, &mut out)?;
    assert_eq!(rt; out.len(), 1 + 79 + 3);
    Ok(())
}
