//! Legacy packets and the canonical octets of their records.

use std::alloc::Global;
use std::test::Fail;
use syslog_grammar::canon;
use syslog_legacy::{LegacyClock, has_new_form, legacy_view, put_legacy_canonical, read_legacy};

/// A clock's year and offset, a packet, and the canonical octets of its record.
type Form = (u16, i16, &'static [u8], &'static [u8]);

/// PRI, the time and its clock.
const STEPS: [Form; 21] = [
    // The RFC's first example (5.4).
    (
        2003,
        0,
        b"<34>Oct 11 22:14:15 mymachine su: 'su root' failed for lonvick on /dev/pts/8",
        b"<34>1 2003-10-11T22:14:15.000000Z mymachine su - - - 'su root' failed for lonvick on /dev/pts/8",
    ),
    // Its second: neither PRI nor time, so the priority is 13.
    (2003, 0, b"Use the BFG!", b"<13>1 - - - - - - Use the BFG!"),
    // The end follows the host, and there is no message.
    (
        2001,
        0,
        b"<13>Feb  5 17:32:18 h",
        b"<13>1 2001-02-05T17:32:18.000000Z h - - - -",
    ),
    // A day with a leading zero, a host that is nil, no tag.
    (
        2001,
        0,
        b"<13>Feb 05 17:32:18 - x y",
        b"<13>1 2001-02-05T17:32:18.000000Z - - - - - x y",
    ),
    // No space follows the time, so there is none.
    (
        2001,
        0,
        b"<13>Feb  5 17:32:18",
        b"<13>1 - - - - - - Feb  5 17:32:18",
    ),
    // 192 is no priority.
    (2001, 0, b"<192>hello", b"<13>1 - - - - - - <192>hello"),
    // Nor is a number with a leading zero.
    (
        2001,
        0,
        b"<013>Feb  5 17:32:18 h t: m",
        b"<13>1 - - - - - - <013>Feb  5 17:32:18 h t: m",
    ),
    // The least priority, and the greatest.
    (
        2001,
        0,
        b"<0>Feb  5 17:32:18 h kernel: panic",
        b"<0>1 2001-02-05T17:32:18.000000Z h kernel - - - panic",
    ),
    (2001, 0, b"<191>x", b"<191>1 - - - - - - x"),
    // No octets are the empty message.
    (2001, 0, b"", b"<13>1 - - - - - -"),
    (2001, 0, b"<13>", b"<13>1 - - - - - -"),
    // A version without a space behind it is a message, and so is another number.
    (2001, 0, b"<13>1", b"<13>1 - - - - - - 1"),
    (2001, 0, b"<13>10 x", b"<13>1 - - - - - - 10 x"),
    // The clock's offset is taken off: five hours behind UTC.
    (
        2001,
        -300,
        b"<13>Feb  5 17:32:18 10.0.0.99 cron[42]: x",
        b"<13>1 2001-02-05T22:32:18.000000Z 10.0.0.99 cron 42 - - x",
    ),
    // An hour ahead of UTC, at the year's turn.
    (
        2001,
        60,
        b"<13>Jan  1 00:30:00 h t: m",
        b"<13>1 2000-12-31T23:30:00.000000Z h t - - - m",
    ),
    // 29 February hangs on the clock's year: 2003, 1900, 2000 and 2004.
    (
        2003,
        0,
        b"<13>Feb 29 01:02:03 h t: m",
        b"<13>1 - - - - - - Feb 29 01:02:03 h t: m",
    ),
    (
        1900,
        0,
        b"<13>Feb 29 01:02:03 h t: m",
        b"<13>1 - - - - - - Feb 29 01:02:03 h t: m",
    ),
    (
        2000,
        0,
        b"<13>Feb 29 01:02:03 h t: m",
        b"<13>1 2000-02-29T01:02:03.000000Z h t - - - m",
    ),
    (
        2004,
        0,
        b"<13>Feb 29 01:02:03 h t: m",
        b"<13>1 2004-02-29T01:02:03.000000Z h t - - - m",
    ),
    // The first and the last instant of all clocks.
    (
        1,
        1439,
        b"<13>Jan  1 00:00:00 h t: m",
        b"<13>1 0000-12-31T00:01:00.000000Z h t - - - m",
    ),
    (
        9998,
        -1439,
        b"<13>Dec 31 23:59:59 h t: m",
        b"<13>1 9999-01-01T23:58:59.000000Z h t - - - m",
    ),
];

/// Faulty times and hosts, tags, and messages with a mark.
const PARTS: [Form; 20] = [
    // There is no day 0, no 31 June, no hour 24 and no second 60.
    (
        2001,
        0,
        b"<13>Feb 00 17:32:18 h t: m",
        b"<13>1 - - - - - - Feb 00 17:32:18 h t: m",
    ),
    (
        2001,
        0,
        b"<13>Jun 31 17:32:18 h t: m",
        b"<13>1 - - - - - - Jun 31 17:32:18 h t: m",
    ),
    (
        2001,
        0,
        b"<13>Jun 30 24:00:00 h t: m",
        b"<13>1 - - - - - - Jun 30 24:00:00 h t: m",
    ),
    (
        2001,
        0,
        b"<13>Jun 30 23:59:60 h t: m",
        b"<13>1 - - - - - - Jun 30 23:59:60 h t: m",
    ),
    // Months are written as in the RFC.
    (
        2001,
        0,
        b"<13>jun 30 17:32:18 h t: m",
        b"<13>1 - - - - - - jun 30 17:32:18 h t: m",
    ),
    // A bad host keeps the time, and the message begins behind it: a tab, another octet, two spaces.
    (
        2001,
        0,
        b"<13>Feb  5 17:32:18 a\tb",
        b"<13>1 2001-02-05T17:32:18.000000Z - - - - - a\tb",
    ),
    (
        2001,
        0,
        b"<13>Feb  5 17:32:18 \xff t: m",
        b"<13>1 2001-02-05T17:32:18.000000Z - - - - - \xff t: m",
    ),
    (
        2001,
        0,
        b"<13>Feb  5 17:32:18  h t: m",
        b"<13>1 2001-02-05T17:32:18.000000Z - - - - -  h t: m",
    ),
    // The space behind the host is dropped, also where nothing follows.
    (
        2001,
        0,
        b"<13>Feb  5 17:32:18 h ",
        b"<13>1 2001-02-05T17:32:18.000000Z h - - - -",
    ),
    // Nil as the name and as the process id.
    (
        2001,
        0,
        b"<13>Feb  5 17:32:18 h -[-]: m",
        b"<13>1 2001-02-05T17:32:18.000000Z h - - - - m",
    ),
    // A tag without a message.
    (
        2001,
        0,
        b"<13>Feb  5 17:32:18 h t:",
        b"<13>1 2001-02-05T17:32:18.000000Z h t - - -",
    ),
    // No process id in the brackets, a space in them, none that closes, no colon: no tag.
    (
        2001,
        0,
        b"<13>Feb  5 17:32:18 h t[]: m",
        b"<13>1 2001-02-05T17:32:18.000000Z h - - - - t[]: m",
    ),
    (
        2001,
        0,
        b"<13>Feb  5 17:32:18 h t[1 2]: m",
        b"<13>1 2001-02-05T17:32:18.000000Z h - - - - t[1 2]: m",
    ),
    (
        2001,
        0,
        b"<13>Feb  5 17:32:18 h t[12: m",
        b"<13>1 2001-02-05T17:32:18.000000Z h - - - - t[12: m",
    ),
    (
        2001,
        0,
        b"<13>Feb  5 17:32:18 h t[12] m",
        b"<13>1 2001-02-05T17:32:18.000000Z h - - - - t[12] m",
    ),
    // A mark makes a text, with PRI and a tag before it, or with neither.
    (
        2001,
        0,
        b"<13>Feb  5 17:32:18 h t: \xef\xbb\xbfgr\xc3\xbcn",
        b"<13>1 2001-02-05T17:32:18.000000Z h t - - - \xef\xbb\xbfgr\xc3\xbcn",
    ),
    (
        2001,
        0,
        b"\xef\xbb\xbfA",
        b"<13>1 - - - - - - \xef\xbb\xbfA",
    ),
    // A mark before the tag begins the message.
    (
        2001,
        0,
        b"<13>Feb  5 17:32:18 h \xef\xbb\xbft: m",
        b"<13>1 2001-02-05T17:32:18.000000Z h - - - - \xef\xbb\xbft: m",
    ),
    // The mark alone is no empty message; two octets of it are no mark.
    (
        2001,
        0,
        b"<13>\xef\xbb\xbf",
        b"<13>1 - - - - - - \xef\xbb\xbf",
    ),
    (2001, 0, b"<13>\xef\xbb", b"<13>1 - - - - - - \xef\xbb"),
];

/// What devices and programs send.
const DEVICES: [Form; 40] = [
    // A switch: "%" is not in a name, so there is no tag.
    (
        2001,
        0,
        b"<189>Jan 10 00:00:01 sw1 %LINK-3-UPDOWN: Interface Gi0/1, changed state to up",
        b"<189>1 2001-01-10T00:00:01.000000Z sw1 - - - - %LINK-3-UPDOWN: Interface Gi0/1, changed state to up",
    ),
    // A switch that counts its messages: no time in its place.
    (
        2001,
        0,
        b"<187>45: *Jan 10 00:00:01.123: %SYS-5-CONFIG_I: Configured",
        b"<187>1 - - - - - - 45: *Jan 10 00:00:01.123: %SYS-5-CONFIG_I: Configured",
    ),
    // A router that ends its name with a colon: the colon belongs to the host.
    (
        2001,
        0,
        b"<189>Jan 10 00:00:01 r1: %SYS-5-RESTART: System restarted",
        b"<189>1 2001-01-10T00:00:01.000000Z r1: - - - - %SYS-5-RESTART: System restarted",
    ),
    // A firewall with a year in the time, and one with a year before the month.
    (
        2001,
        0,
        b"<166>Jan 10 2001 00:00:01 fw1 : %ASA-6-302013: Built",
        b"<166>1 - - - - - - Jan 10 2001 00:00:01 fw1 : %ASA-6-302013: Built",
    ),
    (
        2001,
        0,
        b"<134>2001 Jan 10 00:00:01 fw1 id=firewall",
        b"<134>1 - - - - - - 2001 Jan 10 00:00:01 fw1 id=firewall",
    ),
    // A firewall that writes pairs: "=" is not in a name.
    (
        2001,
        0,
        b"<134>Jan 10 00:00:01 fw1 id=firewall sn=0006",
        b"<134>1 2001-01-10T00:00:01.000000Z fw1 - - - - id=firewall sn=0006",
    ),
    // CEF: "CEF" stands as a tag.
    (
        2001,
        0,
        b"<14>Jan 10 00:00:01 ids1 CEF:0|Vendor|Product|1.0|100|scan|5|src=10.0.0.1",
        b"<14>1 2001-01-10T00:00:01.000000Z ids1 CEF - - - 0|Vendor|Product|1.0|100|scan|5|src=10.0.0.1",
    ),
    // sshd.
    (
        2001,
        0,
        b"<86>Jan 10 00:00:01 host1 sshd[1234]: Accepted publickey for root from 10.1.2.3 port 50022 ssh2",
        b"<86>1 2001-01-10T00:00:01.000000Z host1 sshd 1234 - - Accepted publickey for root from 10.1.2.3 \
          port 50022 ssh2",
    ),
    // cron.
    (
        2001,
        0,
        b"<78>Jan 10 00:00:01 host1 CRON[555]: (root) CMD (run-parts /etc/cron.hourly)",
        b"<78>1 2001-01-10T00:00:01.000000Z host1 CRON 555 - - (root) CMD (run-parts /etc/cron.hourly)",
    ),
    // The kernel, with its own clock in brackets; without a space behind the colon.
    (
        2001,
        0,
        b"<4>Jan 10 00:00:01 host1 kernel: [   12.345678] usb 1-1: new device",
        b"<4>1 2001-01-10T00:00:01.000000Z host1 kernel - - - [   12.345678] usb 1-1: new device",
    ),
    (
        2001,
        0,
        b"<4>Jan 10 00:00:01 host1 kernel:[12.345] usb 1-1: new device",
        b"<4>1 2001-01-10T00:00:01.000000Z host1 kernel - - - [12.345] usb 1-1: new device",
    ),
    // Without a host, as programs write to the local socket: the tag is read as the host.
    (
        2001,
        0,
        b"<30>Jan 10 00:00:01 systemd[1]: Started foo.",
        b"<30>1 2001-01-10T00:00:01.000000Z systemd[1]: - - - - Started foo.",
    ),
    // A host that is an address of IPv6, of IPv4, a name with a zone.
    (
        2001,
        0,
        b"<13>Jan 10 00:00:01 2001:db8::1 app: m",
        b"<13>1 2001-01-10T00:00:01.000000Z 2001:db8::1 app - - - m",
    ),
    (
        2001,
        0,
        b"<13>Jan 10 00:00:01 192.0.2.7 app: m",
        b"<13>1 2001-01-10T00:00:01.000000Z 192.0.2.7 app - - - m",
    ),
    (
        2001,
        0,
        b"<13>Jan 10 00:00:01 fe80::1%eth0 app: m",
        b"<13>1 2001-01-10T00:00:01.000000Z fe80::1%eth0 app - - - m",
    ),
    // A daemon of a mail server, a desktop's service, a script with its ending.
    (
        2001,
        0,
        b"<22>Jan 10 00:00:01 mx postfix/smtpd[99]: connect from unknown",
        b"<22>1 2001-01-10T00:00:01.000000Z mx postfix/smtpd 99 - - connect from unknown",
    ),
    (
        2001,
        0,
        b"<14>Jan 10 00:00:01 pc org.gnome.Shell.desktop[2000]: Window manager warning",
        b"<14>1 2001-01-10T00:00:01.000000Z pc org.gnome.Shell.desktop 2000 - - Window manager warning",
    ),
    (
        2001,
        0,
        b"<13>Jan 10 00:00:01 h backup_all.sh: done",
        b"<13>1 2001-01-10T00:00:01.000000Z h backup_all.sh - - - done",
    ),
    // A process id that is no number.
    (
        2001,
        0,
        b"<13>Jan 10 00:00:01 h app[main-1.2]: m",
        b"<13>1 2001-01-10T00:00:01.000000Z h app main-1.2 - - m",
    ),
    // A name with a space, a tag without a colon, a repeated message.
    (
        2001,
        0,
        b"<13>Jan 10 00:00:01 h My App: m",
        b"<13>1 2001-01-10T00:00:01.000000Z h - - - - My App: m",
    ),
    (
        2001,
        0,
        b"<13>Jan 10 00:00:01 h app m",
        b"<13>1 2001-01-10T00:00:01.000000Z h - - - - app m",
    ),
    (
        2001,
        0,
        b"<6>Jan 10 00:00:01 h last message repeated 3 times",
        b"<6>1 2001-01-10T00:00:01.000000Z h - - - - last message repeated 3 times",
    ),
    // One space behind the colon is dropped, and no tab.
    (
        2001,
        0,
        b"<13>Jan 10 00:00:01 h app:  m",
        b"<13>1 2001-01-10T00:00:01.000000Z h app - - -  m",
    ),
    (
        2001,
        0,
        b"<13>Jan 10 00:00:01 h app:\tm",
        b"<13>1 2001-01-10T00:00:01.000000Z h app - - - \tm",
    ),
    // CR, LF and NUL at the end belong to the message.
    (
        2001,
        0,
        b"<13>Jan 10 00:00:01 h app: m\r",
        b"<13>1 2001-01-10T00:00:01.000000Z h app - - - m\r",
    ),
    (
        2001,
        0,
        b"<13>Jan 10 00:00:01 h app: m\n",
        b"<13>1 2001-01-10T00:00:01.000000Z h app - - - m\n",
    ),
    (
        2001,
        0,
        b"<13>Jan 10 00:00:01 h app: m\0",
        b"<13>1 2001-01-10T00:00:01.000000Z h app - - - m\0",
    ),
    // Latin-1, and UTF-8 without a mark: any octets.
    (
        2001,
        0,
        b"<13>Jan 10 00:00:01 h app: caf\xe9",
        b"<13>1 2001-01-10T00:00:01.000000Z h app - - - caf\xe9",
    ),
    (
        2001,
        0,
        b"<13>Jan 10 00:00:01 h app: caf\xc3\xa9",
        b"<13>1 2001-01-10T00:00:01.000000Z h app - - - caf\xc3\xa9",
    ),
    // The time of RFC 3339 in a legacy frame: no time.
    (
        2001,
        0,
        b"<13>2001-01-10T00:00:01Z h app: m",
        b"<13>1 - - - - - - 2001-01-10T00:00:01Z h app: m",
    ),
    // A time with a fraction: none.
    (
        2001,
        0,
        b"<13>Jan 10 00:00:01.123 h app: m",
        b"<13>1 - - - - - - Jan 10 00:00:01.123 h app: m",
    ),
    // A zone behind the time is read as the host.
    (
        2001,
        0,
        b"<13>Jan 10 00:00:01 UTC h app: m",
        b"<13>1 2001-01-10T00:00:01.000000Z UTC - - - - h app: m",
    ),
    // A day of one octet without a space before it: no time.
    (
        2001,
        0,
        b"<13>Jan 1 00:00:01 h app: m",
        b"<13>1 - - - - - - Jan 1 00:00:01 h app: m",
    ),
    // A line of a log file, without PRI.
    (
        2001,
        0,
        b"Jan 10 00:00:01 h app: m",
        b"<13>1 - - - - - - Jan 10 00:00:01 h app: m",
    ),
    // JSON, as some agents send it with a tag, and without one.
    (
        2001,
        0,
        b"<14>Jan 10 00:00:01 h agent[7]: {\"a\":1}",
        b"<14>1 2001-01-10T00:00:01.000000Z h agent 7 - - {\"a\":1}",
    ),
    (2001, 0, b"<14>{\"a\":1}", b"<14>1 - - - - - - {\"a\":1}"),
    // A space before PRI's text, and a message of spaces.
    (
        2001,
        0,
        b"<13> Jan 10 00:00:01 h app: m",
        b"<13>1 - - - - - -  Jan 10 00:00:01 h app: m",
    ),
    (
        2001,
        0,
        b"<13>Jan 10 00:00:01 h app:   ",
        b"<13>1 2001-01-10T00:00:01.000000Z h app - - -   ",
    ),
    // An access point that sends the name twice.
    (
        2001,
        0,
        b"<13>Jan 10 00:00:01 ap1 ap1: hostapd: wlan0: STA connected",
        b"<13>1 2001-01-10T00:00:01.000000Z ap1 ap1 - - - hostapd: wlan0: STA connected",
    ),
    // A printer without a host or a tag.
    (
        2001,
        0,
        b"<14>Jan 10 00:00:01 printer: offline or intervention needed",
        b"<14>1 2001-01-10T00:00:01.000000Z printer: - - - - offline or intervention needed",
    ),
];

/// The canonical octets from the record, which are those from the view too, put behind other
/// octets.
pub fn canonical(alloc: Global, clock: &LegacyClock, packet: &[u8]) -> Result<Vec<u8>, Fail> {
    let Ok(seen) = legacy_view(clock, packet) else {
        return Err(Fail::from("a fault"));
    };
    let Ok(read) = read_legacy(alloc, clock, packet) else {
        return Err(Fail::from("a fault of the record"));
    };
    let by_record = canon(alloc, &read)?;
    let mut appended = b"old ".to_vec(alloc)?;
    put_legacy_canonical(&seen, &mut appended)?;
    let mut expected = b"old ".to_vec(alloc)?;
    expected.extend_from_slice(by_record.as_slice())?;
    if appended.as_slice() != expected.as_slice() {
        return Err(Fail::from("the view and the record differ"));
    }
    Ok(by_record)
}

#[test]
fn a_packet_has_its_canonical_form(rt: HostRuntime) -> Result<(), Fail> {
    for forms in [STEPS.as_slice(), PARTS.as_slice(), DEVICES.as_slice()] {
        for (year, offset_minutes, packet, form) in forms {
            let clock = LegacyClock::new(*year, *offset_minutes).ok_or("no clock")?;
            assert_eq!(rt; canonical(rt.alloc(), &clock, packet)?.as_slice(), *form);
            assert!(rt; !has_new_form(packet));
        }
    }
    Ok(())
}

/// The octets of a packet between `<13>Feb  5 17:32:18 ` and ` m`, with parts of so many octets
/// each.
fn long_packet(alloc: Global, host: usize, name: usize, id: usize) -> Result<Vec<u8>, Fail> {
    let mut packet = b"<13>Feb  5 17:32:18 ".to_vec(alloc)?;
    for _ in 0..host {
        packet.push(b'h')?;
    }
    packet.push(b' ')?;
    for _ in 0..name {
        packet.push(b'a')?;
    }
    packet.push(b'[')?;
    for _ in 0..id {
        packet.push(b'1')?;
    }
    packet.extend_from_slice(b"]: m")?;
    Ok(packet)
}

/// The lengths of the host, the name, the process id and the message as a packet is read.
fn lengths(packet: &[u8]) -> Result<(usize, usize, usize, usize), Fail> {
    let clock = LegacyClock::new(2001, 0).ok_or("no clock")?;
    let Ok(seen) = legacy_view(&clock, packet) else {
        return Err(Fail::from("a fault"));
    };
    Ok((
        seen.hostname().unwrap_or(b"").len(),
        seen.app_name().unwrap_or(b"").len(),
        seen.proc_id().unwrap_or(b"").len(),
        seen.message().len(),
    ))
}

#[test]
fn hosts_and_tags_have_limits(rt: HostRuntime) -> Result<(), Fail> {
    for (host, name, id, expected) in [
        (255, 48, 128, (255, 48, 128, 1)),
        (256, 48, 128, (0, 0, 0, 438)),
        (255, 49, 128, (255, 0, 0, 182)),
        (255, 48, 129, (255, 0, 0, 182)),
    ] {
        let packet = long_packet(rt.alloc(), host, name, id)?;
        assert_eq!(rt; lengths(packet.as_slice())?, expected);
    }
    Ok(())
}
