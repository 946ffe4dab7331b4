use syslog_value::{Facility, Priority, Severity};

#[test]
fn a_priority_is_its_facility_and_severity(rt: HostRuntime) {
    for (value, facility, severity) in [
        (0, Facility::Kern, Severity::Emergency),
        (13, Facility::User, Severity::Notice),
        (34, Facility::Auth, Severity::Critical),
        (165, Facility::Local4, Severity::Notice),
        (191, Facility::Local7, Severity::Debug),
    ] {
        let priority = Priority::new(facility, severity);
        assert_eq!(rt; priority.value(), value);
        assert_eq!(rt; Priority::from_value(value), Some(priority));
        assert_eq!(rt; priority.facility(), facility);
        assert_eq!(rt; priority.severity(), severity);
    }
    assert_eq!(rt; Priority::from_value(192), None);
    assert_eq!(rt; Priority::from_value(255), None);
}
