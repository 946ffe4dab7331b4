//! Packets as devices and programs send them, and what becomes of them in both dialects.

use crate::forms::canonical;
use std::test::Fail;
use syslog_legacy::{Dialect, LegacyClock, has_new_form};

/// A packet, and the canonical octets of its record in the dialects `Bsd` and `Wide`.
type Row = (&'static [u8], &'static [u8], &'static [u8]);

/// Under a clock of 2024 that is an hour ahead of UTC.
const ROWS: [Row; 58] = [
    // The form of RFC 3164, as `logger --rfc3164`, rsyslog's traditional format and Juniper's send
    // it.
    (
        b"<34>Oct 11 22:14:15 mymachine su: 'su root' failed for lonvick on /dev/pts/8",
        b"<34>1 2024-10-11T21:14:15.000000Z mymachine su - - - 'su root' failed for lonvick on /dev/pts/8",
        b"<34>1 2024-10-11T21:14:15.000000Z mymachine su - - - 'su root' failed for lonvick on /dev/pts/8",
    ),
    (
        b"<13>Jan 10 10:00:01 host1 root: hello",
        b"<13>1 2024-01-10T09:00:01.000000Z host1 root - - - hello",
        b"<13>1 2024-01-10T09:00:01.000000Z host1 root - - - hello",
    ),
    (
        b"<30>Jan 10 10:00:01 host1 sshd[1234]: Server listening on 0.0.0.0 port 22.",
        b"<30>1 2024-01-10T09:00:01.000000Z host1 sshd 1234 - - Server listening on 0.0.0.0 port 22.",
        b"<30>1 2024-01-10T09:00:01.000000Z host1 sshd 1234 - - Server listening on 0.0.0.0 port 22.",
    ),
    (
        b"<29>Jan 10 10:00:01 mx480 rpd[1234]: RPD_BGP_NEIGHBOR_STATE_CHANGED: BGP peer 192.0.2.1",
        b"<29>1 2024-01-10T09:00:01.000000Z mx480 rpd 1234 - - RPD_BGP_NEIGHBOR_STATE_CHANGED: BGP peer 192.0.2.1",
        b"<29>1 2024-01-10T09:00:01.000000Z mx480 rpd 1234 - - RPD_BGP_NEIGHBOR_STATE_CHANGED: BGP peer 192.0.2.1",
    ),
    // syslog(3) of glibc, to /dev/log: no host.
    (
        b"<38>Jan 10 10:00:01 sshd[1234]: Accepted publickey for root",
        b"<38>1 2024-01-10T09:00:01.000000Z sshd[1234]: - - - - Accepted publickey for root",
        b"<38>1 2024-01-10T09:00:01.000000Z - sshd 1234 - - Accepted publickey for root",
    ),
    (
        b"<30>Jan 10 10:00:01 systemd: Started foo.",
        b"<30>1 2024-01-10T09:00:01.000000Z systemd: - - - - Started foo.",
        b"<30>1 2024-01-10T09:00:01.000000Z - systemd - - - Started foo.",
    ),
    // logger and syslogd of busybox: as to /dev/log, which `syslogd -R` sends on; a line of its
    // file, with a host and no PRI.
    (
        b"<13>Jan 10 10:00:01 root: hello",
        b"<13>1 2024-01-10T09:00:01.000000Z root: - - - - hello",
        b"<13>1 2024-01-10T09:00:01.000000Z - root - - - hello",
    ),
    (
        b"Jan 10 10:00:01 host1 user.notice root: hello",
        b"<13>1 - - - - - - Jan 10 10:00:01 host1 user.notice root: hello",
        b"<13>1 - - - - - - Jan 10 10:00:01 host1 user.notice root: hello",
    ),
    // haproxy, with its format for a log server.
    (
        b"<134>Jan 10 10:00:01 haproxy[4321]: 10.0.0.1:33317 [10/Jan/2024:10:00:01.123] in b/s1 0/0/1 200",
        b"<134>1 2024-01-10T09:00:01.000000Z haproxy[4321]: 10.0.0.1 - - - 33317 [10/Jan/2024:10:00:01.123] \
          in b/s1 0/0/1 200",
        b"<134>1 2024-01-10T09:00:01.000000Z - haproxy 4321 - - 10.0.0.1:33317 [10/Jan/2024:10:00:01.123] \
          in b/s1 0/0/1 200",
    ),
    // nginx, and with `nohostname`.
    (
        b"<190>Jan 10 10:00:01 host1 nginx: 10.0.0.1 - - \"GET / HTTP/1.1\" 200 612",
        b"<190>1 2024-01-10T09:00:01.000000Z host1 nginx - - - 10.0.0.1 - - \"GET / HTTP/1.1\" 200 612",
        b"<190>1 2024-01-10T09:00:01.000000Z host1 nginx - - - 10.0.0.1 - - \"GET / HTTP/1.1\" 200 612",
    ),
    (
        b"<190>Jan 10 10:00:01 nginx: 10.0.0.1 - - \"GET / HTTP/1.1\" 200 612",
        b"<190>1 2024-01-10T09:00:01.000000Z nginx: - - - - 10.0.0.1 - - \"GET / HTTP/1.1\" 200 612",
        b"<190>1 2024-01-10T09:00:01.000000Z - nginx - - - 10.0.0.1 - - \"GET / HTTP/1.1\" 200 612",
    ),
    // Sys::Syslog of Perl, over UDP: a line feed and a NUL at the end.
    (
        b"<14>Jan 10 10:00:01 prog[77]: hello\n\0",
        b"<14>1 2024-01-10T09:00:01.000000Z prog[77]: - - - - hello\n\0",
        b"<14>1 2024-01-10T09:00:01.000000Z - prog 77 - - hello\n\0",
    ),
    // log/syslog of Go: over the network, and to /dev/log.
    (
        b"<14>2024-01-10T10:00:01+02:00 host1 app[99]: hello\n",
        b"<14>1 - - - - - - 2024-01-10T10:00:01+02:00 host1 app[99]: hello\n",
        b"<14>1 2024-01-10T08:00:01.000000Z host1 app 99 - - hello\n",
    ),
    (
        b"<14>Jan 10 10:00:01 app[99]: hello\n",
        b"<14>1 2024-01-10T09:00:01.000000Z app[99]: - - - - hello\n",
        b"<14>1 2024-01-10T09:00:01.000000Z - app 99 - - hello\n",
    ),
    // rsyslog with RSYSLOG_ForwardFormat.
    (
        b"<13>2024-01-10T10:00:01.123456+01:00 host1 app[99]: hello",
        b"<13>1 - - - - - - 2024-01-10T10:00:01.123456+01:00 host1 app[99]: hello",
        b"<13>1 2024-01-10T09:00:01.123456Z host1 app 99 - - hello",
    ),
    (
        b"<13>2023-12-31T23:59:59.5Z host1 app: hello",
        b"<13>1 - - - - - - 2023-12-31T23:59:59.5Z host1 app: hello",
        b"<13>1 2023-12-31T23:59:59.500000Z host1 app - - - hello",
    ),
    // Cisco IOS: a mark, a fraction, a colon; a year; a point for a clock that is not set; a zone,
    // which stands as a tag.
    (
        b"<189>*Mar  1 18:46:11.123: %SYS-5-CONFIG_I: Configured from console",
        b"<189>1 - - - - - - *Mar  1 18:46:11.123: %SYS-5-CONFIG_I: Configured from console",
        b"<189>1 2024-03-01T17:46:11.123000Z - - - - - %SYS-5-CONFIG_I: Configured from console",
    ),
    (
        b"<189>Mar  1 2023 18:46:11.123: %SYS-5-CONFIG_I: Configured from console",
        b"<189>1 - - - - - - Mar  1 2023 18:46:11.123: %SYS-5-CONFIG_I: Configured from console",
        b"<189>1 2023-03-01T17:46:11.123000Z - - - - - %SYS-5-CONFIG_I: Configured from console",
    ),
    (
        b"<189>.Mar  1 18:46:11: %LINK-3-UPDOWN: Interface Gi0/1, changed state to up",
        b"<189>1 - - - - - - .Mar  1 18:46:11: %LINK-3-UPDOWN: Interface Gi0/1, changed state to up",
        b"<189>1 2024-03-01T17:46:11.000000Z - - - - - %LINK-3-UPDOWN: Interface Gi0/1, changed state to up",
    ),
    (
        b"<189>*Mar  1 18:46:11.123 UTC: %SYS-5-CONFIG_I: Configured",
        b"<189>1 - - - - - - *Mar  1 18:46:11.123 UTC: %SYS-5-CONFIG_I: Configured",
        b"<189>1 2024-03-01T17:46:11.123000Z - UTC - - - %SYS-5-CONFIG_I: Configured",
    ),
    // Cisco IOS, with a sequence number before the time.
    (
        b"<189>45: *Mar  1 18:46:11.123: %SYS-5-CONFIG_I: Configured",
        b"<189>1 - - - - - - 45: *Mar  1 18:46:11.123: %SYS-5-CONFIG_I: Configured",
        b"<189>1 - - - - - - 45: *Mar  1 18:46:11.123: %SYS-5-CONFIG_I: Configured",
    ),
    // Cisco ASA, without a host and with one.
    (
        b"<166>Jul 14 2013 13:10:31: %ASA-6-302013: Built outbound TCP connection",
        b"<166>1 - - - - - - Jul 14 2013 13:10:31: %ASA-6-302013: Built outbound TCP connection",
        b"<166>1 2013-07-14T12:10:31.000000Z - - - - - %ASA-6-302013: Built outbound TCP connection",
    ),
    (
        b"<166>Jul 14 2013 13:10:31 asa1 : %ASA-6-302013: Built outbound TCP connection",
        b"<166>1 - - - - - - Jul 14 2013 13:10:31 asa1 : %ASA-6-302013: Built outbound TCP connection",
        b"<166>1 2013-07-14T12:10:31.000000Z asa1 - - - - : %ASA-6-302013: Built outbound TCP connection",
    ),
    // A firewall with the year before the month.
    (
        b"<134>2013 Jul 14 13:10:31 fw1 id=firewall sn=0006",
        b"<134>1 - - - - - - 2013 Jul 14 13:10:31 fw1 id=firewall sn=0006",
        b"<134>1 2013-07-14T12:10:31.000000Z fw1 - - - - id=firewall sn=0006",
    ),
    // A space behind PRI: one is dropped.
    (
        b"<13> Jan 10 10:00:01 host1 app: m",
        b"<13>1 - - - - - -  Jan 10 10:00:01 host1 app: m",
        b"<13>1 2024-01-10T09:00:01.000000Z host1 app - - - m",
    ),
    (
        b"<13>  Jan 10 10:00:01 host1 app: m",
        b"<13>1 - - - - - -   Jan 10 10:00:01 host1 app: m",
        b"<13>1 - - - - - -  Jan 10 10:00:01 host1 app: m",
    ),
    (
        b"<13> hello",
        b"<13>1 - - - - - -  hello",
        b"<13>1 - - - - - - hello",
    ),
    // A tag with brackets and no colon: behind a host, in its place, at the end, and before a tab.
    (
        b"<13>Jan 10 10:00:01 host1 app[12] m",
        b"<13>1 2024-01-10T09:00:01.000000Z host1 - - - - app[12] m",
        b"<13>1 2024-01-10T09:00:01.000000Z host1 app 12 - - m",
    ),
    (
        b"<13>Jan 10 10:00:01 app[12] m",
        b"<13>1 2024-01-10T09:00:01.000000Z app[12] - - - - m",
        b"<13>1 2024-01-10T09:00:01.000000Z - app 12 - - m",
    ),
    (
        b"<13>Jan 10 10:00:01 app[12]",
        b"<13>1 2024-01-10T09:00:01.000000Z app[12] - - - -",
        b"<13>1 2024-01-10T09:00:01.000000Z - - - - - app[12]",
    ),
    (
        b"<13>Jan 10 10:00:01 app[12]\tm",
        b"<13>1 2024-01-10T09:00:01.000000Z - - - - - app[12]\tm",
        b"<13>1 2024-01-10T09:00:01.000000Z - - - - - app[12]\tm",
    ),
    // No brackets and no colon: a host, and a message.
    (
        b"<13>Jan 10 10:00:01 host1 app m",
        b"<13>1 2024-01-10T09:00:01.000000Z host1 - - - - app m",
        b"<13>1 2024-01-10T09:00:01.000000Z host1 - - - - app m",
    ),
    (
        b"<6>Jan 10 10:00:01 last message repeated 3 times",
        b"<6>1 2024-01-10T09:00:01.000000Z last - - - - message repeated 3 times",
        b"<6>1 2024-01-10T09:00:01.000000Z last - - - - message repeated 3 times",
    ),
    // A word that ends in a colon and is no tag: no host, and all is the message.
    (
        b"<13>Jan 10 10:00:01 My(App): m",
        b"<13>1 2024-01-10T09:00:01.000000Z My(App): - - - - m",
        b"<13>1 2024-01-10T09:00:01.000000Z - - - - - My(App): m",
    ),
    (
        b"<13>Jan 10 10:00:01 app:sub: m",
        b"<13>1 2024-01-10T09:00:01.000000Z app:sub: - - - - m",
        b"<13>1 2024-01-10T09:00:01.000000Z - - - - - app:sub: m",
    ),
    (
        b"<13>Jan 10 10:00:01 app[1]:sub: m",
        b"<13>1 2024-01-10T09:00:01.000000Z app[1]:sub: - - - - m",
        b"<13>1 2024-01-10T09:00:01.000000Z - - - - - app[1]:sub: m",
    ),
    (
        b"<13>Jan 10 10:00:01 fe80::1: m",
        b"<13>1 2024-01-10T09:00:01.000000Z fe80::1: - - - - m",
        b"<13>1 2024-01-10T09:00:01.000000Z - - - - - fe80::1: m",
    ),
    // A tab behind the colon; a word that goes on behind it; nil as the name and as the process id.
    (
        b"<13>Jan 10 10:00:01 app:\tm",
        b"<13>1 2024-01-10T09:00:01.000000Z - - - - - app:\tm",
        b"<13>1 2024-01-10T09:00:01.000000Z - app - - - \tm",
    ),
    (
        b"<13>Jan 10 10:00:01 app:m x",
        b"<13>1 2024-01-10T09:00:01.000000Z app:m - - - - x",
        b"<13>1 2024-01-10T09:00:01.000000Z app:m - - - - x",
    ),
    (
        b"<13>Jan 10 10:00:01 app[1]:m x",
        b"<13>1 2024-01-10T09:00:01.000000Z app[1]:m - - - - x",
        b"<13>1 2024-01-10T09:00:01.000000Z app[1]:m - - - - x",
    ),
    (
        b"<13>Jan 10 10:00:01 -[-]: m",
        b"<13>1 2024-01-10T09:00:01.000000Z -[-]: - - - - m",
        b"<13>1 2024-01-10T09:00:01.000000Z - - - - - m",
    ),
    // Not a time: nil, a day that there is not, a second 60, an instant out of range, seven digits,
    // none, a comma, two marks.
    (
        b"<13>- host1 app: m",
        b"<13>1 - - - - - - - host1 app: m",
        b"<13>1 - - - - - - - host1 app: m",
    ),
    (
        b"<13>2023-02-29T10:00:01Z host1 app: m",
        b"<13>1 - - - - - - 2023-02-29T10:00:01Z host1 app: m",
        b"<13>1 - - - - - - 2023-02-29T10:00:01Z host1 app: m",
    ),
    (
        b"<13>2024-02-29T10:00:60Z host1 app: m",
        b"<13>1 - - - - - - 2024-02-29T10:00:60Z host1 app: m",
        b"<13>1 - - - - - - 2024-02-29T10:00:60Z host1 app: m",
    ),
    (
        b"<13>9999-12-31T23:59:59-00:01 host1 app: m",
        b"<13>1 - - - - - - 9999-12-31T23:59:59-00:01 host1 app: m",
        b"<13>1 - - - - - - 9999-12-31T23:59:59-00:01 host1 app: m",
    ),
    (
        b"<13>Jan  1 0000 00:30:00 host1 app: m",
        b"<13>1 - - - - - - Jan  1 0000 00:30:00 host1 app: m",
        b"<13>1 - - - - - - Jan  1 0000 00:30:00 host1 app: m",
    ),
    (
        b"<13>Jan 10 10:00:01.1234567 host1 app: m",
        b"<13>1 - - - - - - Jan 10 10:00:01.1234567 host1 app: m",
        b"<13>1 - - - - - - Jan 10 10:00:01.1234567 host1 app: m",
    ),
    (
        b"<13>Jan 10 10:00:01. host1 app: m",
        b"<13>1 - - - - - - Jan 10 10:00:01. host1 app: m",
        b"<13>1 - - - - - - Jan 10 10:00:01. host1 app: m",
    ),
    (
        b"<13>Jan 10 10:00:01,123 host1 app: m",
        b"<13>1 - - - - - - Jan 10 10:00:01,123 host1 app: m",
        b"<13>1 - - - - - - Jan 10 10:00:01,123 host1 app: m",
    ),
    (
        b"<13>**Jan 10 10:00:01 host1 app: m",
        b"<13>1 - - - - - - **Jan 10 10:00:01 host1 app: m",
        b"<13>1 - - - - - - **Jan 10 10:00:01 host1 app: m",
    ),
    (
        b"<13>Jan 10 10:00:01:: host1 app: m",
        b"<13>1 - - - - - - Jan 10 10:00:01:: host1 app: m",
        b"<13>1 - - - - - - Jan 10 10:00:01:: host1 app: m",
    ),
    (
        b"<13>Jan 10 10:00:01:host1 app: m",
        b"<13>1 - - - - - - Jan 10 10:00:01:host1 app: m",
        b"<13>1 - - - - - - Jan 10 10:00:01:host1 app: m",
    ),
    (
        b"<13>2024-01-10 10:00:01Z host1 app: m",
        b"<13>1 - - - - - - 2024-01-10 10:00:01Z host1 app: m",
        b"<13>1 - - - - - - 2024-01-10 10:00:01Z host1 app: m",
    ),
    // 29 February by the packet's own year; a time of RFC 5424 with a mark and a colon.
    (
        b"<13>Feb 29 2023 10:00:01 host1 app: m",
        b"<13>1 - - - - - - Feb 29 2023 10:00:01 host1 app: m",
        b"<13>1 - - - - - - Feb 29 2023 10:00:01 host1 app: m",
    ),
    (
        b"<13>Feb 29 2020 10:00:01 host1 app: m",
        b"<13>1 - - - - - - Feb 29 2020 10:00:01 host1 app: m",
        b"<13>1 2020-02-29T09:00:01.000000Z host1 app - - - m",
    ),
    (
        b"<13>2023 Feb 29 10:00:01 host1 app: m",
        b"<13>1 - - - - - - 2023 Feb 29 10:00:01 host1 app: m",
        b"<13>1 - - - - - - 2023 Feb 29 10:00:01 host1 app: m",
    ),
    (
        b"<13>*0000-01-01T00:00:00Z: host1 app: m",
        b"<13>1 - - - - - - *0000-01-01T00:00:00Z: host1 app: m",
        b"<13>1 0000-01-01T00:00:00.000000Z host1 app - - - m",
    ),
    // The new form is RFC 5424's in both dialects, and what has no PRI is a message.
    (
        b" <13>Jan 10 10:00:01 host1 app: m",
        b"<13>1 - - - - - -  <13>Jan 10 10:00:01 host1 app: m",
        b"<13>1 - - - - - -  <13>Jan 10 10:00:01 host1 app: m",
    ),
];

#[test]
fn a_packet_is_read_in_its_dialect(rt: HostRuntime) -> Result<(), Fail> {
    let clock = LegacyClock::new(2024, 60).ok_or("no clock")?;
    assert_eq!(rt; clock.dialect(), Dialect::Bsd);
    let wide = clock.with_dialect(Dialect::Wide);
    assert_eq!(rt; wide.dialect(), Dialect::Wide);
    assert_eq!(rt; wide.with_dialect(Dialect::Bsd), clock);
    for (packet, form, wide_form) in ROWS.as_slice() {
        assert!(rt; !has_new_form(packet));
        assert_eq!(rt; canonical(rt.alloc(), &clock, packet)?.as_slice(), *form);
        assert_eq!(rt;
            canonical(rt.alloc(), &wide, packet)?.as_slice(),
            *wide_form
        );
    }
    Ok(())
}
