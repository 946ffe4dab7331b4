use syslog_value::Severity;

#[test]
fn each_code_has_its_name(rt: HostRuntime) {
    let names = [
        "emerg", "alert", "crit", "err", "warning", "notice", "info", "debug",
    ];
    for (code, name) in (0u8..8).zip(names) {
        let severity = Severity::from_code(code);
        assert_eq!(rt; severity.map(Severity::code), Some(code));
        assert_eq!(rt; severity.map(Severity::name), Some(name));
        assert_eq!(rt; Severity::from_name(name), severity);
    }
    assert_eq!(rt; Severity::from_code(8), None);
    for name in ["", "error", "Err", "warn", "debug ", "panic"] {
        assert_eq!(rt; Severity::from_name(name), None, "{name}");
    }
}
