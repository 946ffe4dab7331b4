//! Packets without a record, clocks that do not exist, and the form of RFC 5424.

use std::test::Fail;
use syslog_grammar::{Fault, Field, view};
use syslog_legacy::{
    LegacyClock, LegacyFault, MessageNotUtf8, has_new_form, legacy_view, read_legacy,
};

/// Packets whose message starts with the mark, and the offset at which it ceases to be UTF-8.
const FAULTS: [(&[u8], usize); 5] = [
    (b"\xef\xbb\xbfA\xff", 4),
    // The packet ends inside a character.
    (b"<13>\xef\xbb\xbf\xc3", 8),
    // E0 wants A0 to BF behind it.
    (b"<13>Feb  5 17:32:18 h t: \xef\xbb\xbf\xe0\x80", 29),
    (b"<13>Feb  5 17:32:18 h t[1]: \xef\xbb\xbf\xed\xa0\x80", 32),
    // Without a tag, behind a host.
    (b"<13>Feb  5 17:32:18 h \xef\xbb\xbft: \x80", 28),
];

#[test]
fn a_message_with_a_mark_is_utf8(rt: HostRuntime) -> Result<(), Fail> {
    let clock = LegacyClock::new(2001, 0).ok_or("no clock")?;
    for (packet, offset) in FAULTS {
        let Err(fault) = legacy_view(&clock, packet) else {
            return Err(Fail::from("a view"));
        };
        assert_eq!(rt; fault, MessageNotUtf8 { offset });
        let Err(fault) = read_legacy(rt.alloc(), &clock, packet) else {
            return Err(Fail::from("a record"));
        };
        assert_eq!(rt; fault, LegacyFault::MessageNotUtf8 { offset });
    }
    Ok(())
}

#[test]
fn a_clock_has_a_year_and_an_offset_in_range(rt: HostRuntime) {
    for (year, offset_minutes, exists) in [
        (1, -1439, true),
        (9998, 1439, true),
        (0, 0, false),
        (9999, 0, false),
        (2001, 1440, false),
        (2001, -1440, false),
    ] {
        let clock = LegacyClock::new(year, offset_minutes);
        assert_eq!(rt; clock.is_some(), exists);
    }
}

#[test]
fn the_front_tells_the_new_form(rt: HostRuntime) {
    for (octets, new) in [
        (b"<13>1 ".as_slice(), true),
        (b"<13>1 x", true),
        (b"<0>1 2003-10-11T22:14:15Z h - - - -", true),
        (b"<13>1", false),
        (b"<13>10 x", false),
        (b"<13>2 x", false),
        (b"<192>1 x", false),
        (b"<013>1 x", false),
        (b"13>1 x", false),
        (b"", false),
    ] {
        assert_eq!(rt; has_new_form(octets), new);
    }
    // With the new form a record has the faults of RFC 5424.
    let fault = Fault::Syntax {
        field: Field::Timestamp,
        offset: 6,
    };
    assert_eq!(rt; view(b"<13>1 x").err(), Some(fault));
}
