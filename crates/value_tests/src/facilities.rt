use syslog_value::Facility;

#[test]
fn each_code_has_its_name(rt: HostRuntime) {
    let names = [
        "kern", "user", "mail", "daemon", "auth", "syslog", "lpr", "news", "uucp", "cron",
        "authpriv", "ftp", "ntp", "audit", "alert", "clock", "local0", "local1", "local2",
        "local3", "local4", "local5", "local6", "local7",
    ];
    for (code, name) in (0u8..24).zip(names) {
        let facility = Facility::from_code(code);
        assert_eq!(rt; facility.map(Facility::code), Some(code));
        assert_eq!(rt; facility.map(Facility::name), Some(name));
        assert_eq!(rt; Facility::from_name(name), facility);
    }
    assert_eq!(rt; Facility::from_code(24), None);
    for name in ["", "kernel", "KERN", "local", "local8", "security"] {
        assert_eq!(rt; Facility::from_name(name), None, "{name}");
    }
}
