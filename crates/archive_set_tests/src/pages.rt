//! Sets in pages.

use archive_pages::PagedArchive;
use archive_text::{AddFault, Added, Store};
use octet_devices::ToWrite;
use std::alloc::Global;
use std::process::Abort;
use std::test::Fail;
use syslog_grammar::{decode, view};

// the record `<0>1 - - - - - - ` and a number
fn numbered(alloc: Global, number: usize) -> Result<String, Fail> {
    Ok(format!(in alloc; "<0>1 - - - - - - {number}")?)
}

// what is answered where the record of octets is added by its view
fn add_view(
    alloc: Global,
    set: &mut PagedArchive,
    octets: &[u8],
) -> Result<Result<Added, AddFault>, Fail> {
    match view(octets) {
        Ok(seen) => Ok(set.add_view(alloc, &seen)),
        Err(_) => Err(Fail::from("a fault")),
    }
}

// adds the record of a text by its view
fn add_text(alloc: Global, set: &mut PagedArchive, text: &str) -> Result<Added, Fail> {
    Ok(
        add_view(alloc, set, text.as_bytes())?
            .ok()
            .ok_or("not added")?,
    )
}

// adds a record itself; and whether it was held before, and is held then
fn add_record(
    alloc: Global,
    set: &mut PagedArchive,
    text: &str,
) -> Result<(bool, Added, bool), Fail> {
    let record = decode(alloc, text.as_bytes()).ok().ok_or("a fault")?;
    let before = set.holds(alloc, &record)?;
    let added = set.add(alloc, &record)?;
    Ok((before, added, set.holds(alloc, &record)?))
}

// how many records a set has, and its text
fn written(alloc: Global, set: &PagedArchive) -> Result<(usize, Vec<u8>), Fail> {
    let mut writer = ToWrite::new(Vec::new(alloc));
    set.write(&mut writer).ok().ok_or("not written")?;
    Ok((set.len(), writer.into_inner()))
}

// sees that a set has the records of 1000 to 1599, each of 21 octets
fn see_all_numbered(rt: &(impl Abort + AllocGlobal), set: &PagedArchive) -> Result<(), Fail> {
    let alloc = rt.alloc();
    let mut text = Vec::new(alloc);
    for number in 1000..1600 {
        text.extend_from_slice(b"21 ")?;
        text.extend_from_slice(numbered(alloc, number)?.as_bytes())?;
    }
    let (len, found) = written(alloc, set)?;
    assert_eq!(rt; len, 600);
    assert!(rt; found == text);
    Ok(())
}

#[test]
fn an_empty_set_has_no_text(rt: HostRuntime) -> Result<(), Fail> {
    let (len, text) = written(rt.alloc(), &PagedArchive::new(rt.alloc()))?;
    assert_eq!(rt; len, 0);
    assert!(rt; text.is_empty());
    Ok(())
}

// a set to which the records of 1000 to 1599 are added twice, up or down
fn set_of(rt: &(impl Abort + AllocGlobal), is_up: bool) -> Result<PagedArchive, Fail> {
    let alloc = rt.alloc();
    let mut set = PagedArchive::new(alloc);
    for place in 0..1200 {
        let steps = place % 600;
        let number = if is_up { 1000 + steps } else { 1599 - steps };
        let expected = if place < 600 { Added::New } else { Added::Held };
        let added = add_text(alloc, &mut set, &numbered(alloc, number)?)?;
        assert_eq!(rt; added, expected);
    }
    Ok(set)
}

#[test]
fn records_are_written_in_order_however_they_are_added(rt: HostRuntime) -> Result<(), Fail> {
    for is_up in [true, false] {
        see_all_numbered(&rt, &set_of(&rt, is_up)?)?;
    }
    Ok(())
}

#[test]
fn records_in_a_mixed_order_are_written_in_order(rt: HostRuntime) -> Result<(), Fail> {
    let alloc = rt.alloc();
    let mut set = PagedArchive::new(alloc);
    for number in 0..600 {
        let text = numbered(alloc, 1000 + number * 7 % 600)?;
        let first = add_record(alloc, &mut set, &text)?;
        assert_eq!(rt; first, (false, Added::New, true));
        let again = add_record(alloc, &mut set, &text)?;
        assert_eq!(rt; again, (true, Added::Held, true));
    }
    see_all_numbered(&rt, &set)
}

#[test]
fn entries_are_ordered_by_instant_then_by_octets(rt: HostRuntime) -> Result<(), Fail> {
    let alloc = rt.alloc();
    let mut set = PagedArchive::new(alloc);
    for (text, expected) in [
        ("<13>1 2024-03-01T00:30:00.000001Z a b - - - m", Added::New),
        ("<13>1 2024-03-01T00:30:00Z a b - - - mm", Added::New),
        ("<13>1 2024-03-01T00:30:00Z a b - - - m", Added::New),
        ("<13>1 2024-02-29T23:30:00Z a b - - - z", Added::New),
        ("<14>1 - a b - - - m", Added::New),
        ("<13>1 2024-03-01T01:30:00+01:00 a b - - - m", Added::Held),
    ] {
        assert_eq!(rt; add_text(alloc, &mut set, text)?, expected);
    }
    let text = b"19 <14>1 - a b - - - m\
        45 <13>1 2024-02-29T23:30:00.000000Z a b - - - z\
        45 <13>1 2024-03-01T00:30:00.000000Z a b - - - m\
        46 <13>1 2024-03-01T00:30:00.000000Z a b - - - mm\
        45 <13>1 2024-03-01T00:30:00.000001Z a b - - - m";
    assert!(rt; written(alloc, &set)?.1.as_slice() == text.as_slice());
    Ok(())
}

#[test]
fn a_record_above_the_limit_is_refused(rt: HostRuntime) -> Result<(), Fail> {
    let alloc = rt.alloc();
    let mut set = PagedArchive::new(alloc);
    let mut text = Vec::from_slice(alloc, b"<0>1 - - - - - - ")?;
    text.extend_from_slice(vec![in alloc; b'x'; 524_278]?.as_slice())?;
    for expected in [Ok(Added::New), Err(AddFault::TooLong)] {
        assert!(rt; add_view(alloc, &mut set, &text)? == expected);
        text.push(b'x')?;
    }
    assert_eq!(rt; written(alloc, &set)?.0, 1);
    Ok(())
}
