use syslog_value::{Mask, Severity};

#[test]
fn a_mask_holds_what_was_put_in(rt: HostRuntime) {
    let warning = Mask::up_to(Severity::Warning);
    for severity in Severity::ALL {
        let more_severe = severity.code() <= 4;
        assert_eq!(rt; warning.holds(severity), more_severe);
        assert_eq!(rt;
            Mask::of(Severity::Error).holds(severity),
            severity.code() == 3
        );
        assert!(rt; Mask::all().holds(severity));
        assert!(rt; !Mask::none().holds(severity));
    }
    let both = Mask::of(Severity::Emergency).union(Mask::of(Severity::Debug));
    assert!(rt; both.holds(Severity::Emergency) && both.holds(Severity::Debug));
    assert!(rt; !both.holds(Severity::Notice) && !both.is_empty());
    assert!(rt; Mask::none().is_empty());
    assert_eq!(rt; Mask::up_to(Severity::Debug), Mask::all());
}
