//! The canonical octets of records.

use crate::calls::{
    canonical_octets, decoded, fault, is_canonical, is_canonical_unsorted, record_of, seen,
};
use std::alloc::Global;
use std::test::Fail;
use syslog_grammar::{
    DecodeFault, Fault, view_and_form, write_canonical_octets, write_canonical_view,
};

/// What is in the room of an output before a call.
const OLD: &[u8] = b"old ";

/// Other octets, and the canonical octets of a record behind them, from its view.
fn behind_by_view(alloc: Global, octets: &[u8]) -> Result<Vec<u8>, Fail> {
    let seen = seen(octets).ok().ok_or("a fault")?;
    let mut out = OLD.to_vec(alloc)?;
    write_canonical_view(alloc, &seen, &mut out)?;
    Ok(out)
}

/// The same from the octets alone, and their fault.
fn behind_by_octets(alloc: Global, octets: &[u8]) -> Result<(Vec<u8>, Option<Fault>), Fail> {
    let mut out = OLD.to_vec(alloc)?;
    let fault = write_canonical_octets(alloc, octets, &mut out)?;
    Ok((out, fault))
}

/// The canonical octets from the record. They are those from the view too, put behind other octets,
/// and no other octets of the record are taken for canonical.
fn canonical(alloc: Global, octets: &[u8]) -> Result<Vec<u8>, Fail> {
    let by_record = canonical_octets(alloc, &record_of(alloc, octets)?)?;
    let mut expected = OLD.to_vec(alloc)?;
    expected.extend_from_slice(by_record.as_slice())?;
    if behind_by_view(alloc, octets)? != expected {
        return Err(Fail::from("the view and the record differ"));
    }
    if !is_canonical(by_record.as_slice()) || !is_canonical_unsorted(by_record.as_slice()) {
        return Err(Fail::from("canonical octets are not known as such"));
    }
    let (direct, refused) = behind_by_octets(alloc, octets)?;
    if refused.is_some() || fault(octets).is_some() || direct != expected {
        return Err(Fail::from("the octets and the record differ"));
    }
    if is_canonical(octets) != (octets == by_record.as_slice()) {
        return Err(Fail::from("other octets are taken for canonical ones"));
    }
    Ok(by_record)
}

/// Octets and their canonical form: an instant is written in UTC with six digits, elements are
/// sorted by id, three octets are escaped, an empty message is left out and the BOM is kept.
const FORMS: [(&[u8], &[u8]); 27] = [
    (
        b"<7>1 - - - - - [b-name-of-twenty-oct k-name-of-twenty-oct=\"twenty octets of text, \\n then \\\" \
          and \xc3\xa9 \\] end\"][a]",
        b"<7>1 - - - - - [a][b-name-of-twenty-oct k-name-of-twenty-oct=\"twenty octets of text, \\\\n then \
          \\\" and \xc3\xa9 \\] end\"]",
    ),
    (
        b"<165>1 2003-08-24T05:14:15.000003-07:00 192.0.2.1 myproc 8710 - - %% It's time to make the do-nuts.",
        b"<165>1 2003-08-24T12:14:15.000003Z 192.0.2.1 myproc 8710 - - %% It's time to make the do-nuts.",
    ),
    (
        b"<14>1 2024-03-01T00:30:00+01:00 h a - - -",
        b"<14>1 2024-02-29T23:30:00.000000Z h a - - -",
    ),
    (
        b"<14>1 2024-02-29T23:30:00.0Z h a - - -",
        b"<14>1 2024-02-29T23:30:00.000000Z h a - - -",
    ),
    (
        b"<14>1 2024-02-29T23:30:00.00000Z h a - - -",
        b"<14>1 2024-02-29T23:30:00.000000Z h a - - -",
    ),
    (
        b"<14>1 2024-02-29T23:30:00.000000+00:00 h a - - -",
        b"<14>1 2024-02-29T23:30:00.000000Z h a - - -",
    ),
    (
        b"<0>1 0000-01-01T00:00:00Z - - - - -",
        b"<0>1 0000-01-01T00:00:00.000000Z - - - - -",
    ),
    (
        b"<191>1 9999-12-31T23:59:59.999999Z - - - - -",
        b"<191>1 9999-12-31T23:59:59.999999Z - - - - -",
    ),
    (
        b"<13>1 2024-02-29T23:30:00Z h a - - - text with 00Z x",
        b"<13>1 2024-02-29T23:30:00.000000Z h a - - - text with 00Z x",
    ),
    (
        b"<0>1 - - - - - [b][a x=\"\\n\\\"\\]\\\\\"][B]",
        b"<0>1 - - - - - [B][a x=\"\\\\n\\\"\\]\\\\\"][b]",
    ),
    (
        b"<0>1 - - - - - [origin@1 k=\"\\]\"][origin]",
        b"<0>1 - - - - - [origin][origin@1 k=\"\\]\"]",
    ),
    (
        b"<0>1 - - - - - [ab][a k=\"\\n\"][aB]",
        b"<0>1 - - - - - [a k=\"\\\\n\"][aB][ab]",
    ),
    (
        b"<0>1 - - - - - [h][g][f][e][d][c][b][a] x",
        b"<0>1 - - - - - [a][b][c][d][e][f][g][h] x",
    ),
    (
        b"<0>1 - - - - - [i][h][g][f][e][d][c][b][a] x",
        b"<0>1 - - - - - [a][b][c][d][e][f][g][h][i] x",
    ),
    (
        b"<0>1 - - - - - [a\\b x\\y=\"z\"]",
        b"<0>1 - - - - - [a\\b x\\y=\"z\"]",
    ),
    (
        b"<0>1 - - - - - [a k=\"x\\n\"]",
        b"<0>1 - - - - - [a k=\"x\\\\n\"]",
    ),
    (
        b"<0>1 - - - - - [a k=\"x\\\\n\"]",
        b"<0>1 - - - - - [a k=\"x\\\\n\"]",
    ),
    (
        b"<0>1 - - - - - [a k=\"1\" k=\"2\"]",
        b"<0>1 - - - - - [a k=\"1\" k=\"2\"]",
    ),
    (
        b"<0>1 - - - - - [a][b k=\"\\\"\" l=\"\\a\\\\\" m=\"\"][c] x",
        b"<0>1 - - - - - [a][b k=\"\\\"\" l=\"\\\\a\\\\\" m=\"\"][c] x",
    ),
    (
        b"<0>1 - - - - - [a k=\"\\\xc3\xa9\\\"\"]",
        b"<0>1 - - - - - [a k=\"\\\\\xc3\xa9\\\"\"]",
    ),
    (
        b"<0>1 - - - - - [a k=\"\\\xc3\xa9\\\"\" l=\"\\\\\"] \xff",
        b"<0>1 - - - - - [a k=\"\\\\\xc3\xa9\\\"\" l=\"\\\\\"] \xff",
    ),
    (b"<0>1 - - - - - -", b"<0>1 - - - - - -"),
    (b"<0>1 - - - - - - ", b"<0>1 - - - - - -"),
    (
        b"<0>1 - - - - - - \xef\xbb\xbf",
        b"<0>1 - - - - - - \xef\xbb\xbf",
    ),
    (b"<0>1 - - - - - -  ", b"<0>1 - - - - - -  "),
    (
        b"<0>1 - - - - - - \xef\xbb\xbfA",
        b"<0>1 - - - - - - \xef\xbb\xbfA",
    ),
    (b"<0>1 - - - - - - \xef\xbb", b"<0>1 - - - - - - \xef\xbb"),
];

#[test]
fn a_record_has_one_canonical_form(rt: HostRuntime) -> Result<(), Fail> {
    for (octets, expected) in FORMS {
        assert_eq!(rt; canonical(rt.alloc(), octets)?.as_slice(), expected);
    }
    Ok(())
}

#[test]
fn the_largest_record_grows_by_each_backslash(rt: HostRuntime) -> Result<(), Fail> {
    let mut octets = b"<0>1 - - - - - [a k=\"".to_vec(rt.alloc())?;
    for _ in 0..131_060 {
        octets.extend_from_slice(b"\\n")?;
    }
    octets.extend_from_slice(b"\"]")?;
    assert_eq!(rt; octets.len(), 262_143);
    assert_eq!(rt; canonical(rt.alloc(), octets.as_slice())?.len(), 393_203);
    Ok(())
}

#[test]
fn a_decoded_record_is_that_of_the_view_and_its_copy(rt: HostRuntime) -> Result<(), Fail> {
    let octets =
        b"<165>1 2003-08-24T05:14:15.000003-07:00 192.0.2.1 myproc 8710 - [b][a k=\"1\" k=\"\\\"\"] x".as_slice();
    let record = decoded(rt.alloc(), octets).ok().ok_or("refused")?;
    assert!(rt; record_of(rt.alloc(), octets)? == record);
    assert!(rt; record.copy(rt.alloc())? == record);
    let other = canonical_octets(rt.alloc(), &record)?;
    let again = decoded(rt.alloc(), other.as_slice()).ok().ok_or("refused")?;
    assert!(rt; again == record);
    Ok(())
}

const FAULTS: [(&[u8], Fault); 2] = [
    (
        b"<0>1 - - - - - [a][b][a]",
        Fault::RepeatedId { offset: 22 },
    ),
    (
        b"<0>1 9999-12-31T23:59:59-00:01 - - - - -",
        Fault::InstantRange { offset: 5 },
    ),
];

#[test]
fn octets_that_are_no_record_are_refused_with_their_fault(rt: HostRuntime) -> Result<(), Fail> {
    for (octets, expected) in FAULTS {
        let refused = decoded(rt.alloc(), octets).err();
        assert_eq!(rt; refused, Some(DecodeFault::Bad(expected)));
        let (out, refused) = behind_by_octets(rt.alloc(), octets)?;
        assert_eq!(rt; refused, Some(expected));
        assert_eq!(rt; out.as_slice(), OLD);
        assert_eq!(rt; fault(octets), Some(expected));
    }
    Ok(())
}

/// Octets, whether they are canonical, and whether they are except for the order of the elements.
const CANONICAL: [(&[u8], bool, bool); 16] = [
    (b"<0>1 - - - - - -", true, true),
    (b"<0>1 - - - - - [a][b]", true, true),
    (b"<0>1 - - - - - [a k=\"x\\\\n\"] x", true, true),
    (b"<0>1 - - - - - [b][a]", false, true),
    (
        b"<191>1 9999-12-31T23:59:59.999999Z - - - - [b k=\"\\]\"][c][a] \xef\xbb\xbf",
        false,
        true,
    ),
    (b"<0>1 - - - - - [a][a]", false, false),
    (b"<0>1 - - - - - [b][a][b]", false, false),
    (b"<0>1 - - - - - [b][a] ", false, false),
    (b"<0>1 - - - - - [b k=\"\\n\"][a]", false, false),
    (b"<0>1 2024-02-29T23:30:00.0Z - - - - [b][a]", false, false),
    (
        b"<0>1 2024-02-29T23:30:00.000000+00:00 - - - - [b][a]",
        false,
        false,
    ),
    (b"<00>1 - - - - - [b][a]", false, false),
    (b"", false, false),
    (b"<0>1 - - - - - [a k=\"]\"]", false, false),
    (b"<0>1 9999-12-31T23:59:59-00:01 - - - - -", false, false),
    (b"<0>1 - - - - - -x", false, false),
];

#[test]
fn canonical_octets_are_known_as_such(rt: HostRuntime) {
    for (octets, sorted, unsorted) in CANONICAL {
        assert!(rt; is_canonical(octets) == sorted);
        assert!(rt; is_canonical_unsorted(octets) == unsorted);
    }
}

/// Whether a single reading gives the view, or the fault, and tells whether the octets are canonical.
fn reads_both(octets: &[u8]) -> bool {
    match (view_and_form(octets), seen(octets)) {
        (Ok((view, form)), Ok(other)) => view == other && form == is_canonical(octets),
        (Err(fault), Err(other)) => fault == other,
        _ => false,
    }
}

#[test]
fn one_reading_gives_the_view_and_the_form(rt: HostRuntime) {
    for (octets, _) in FORMS {
        assert!(rt; reads_both(octets));
    }
    for (octets, _, _) in CANONICAL {
        assert!(rt; reads_both(octets));
    }
    for (octets, _) in FAULTS {
        assert!(rt; reads_both(octets));
    }
}
