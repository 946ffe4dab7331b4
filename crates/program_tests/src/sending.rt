//! Rows of what `send` writes.

use octet_devices::ToWrite;
use send_engine::{SendOptions, send_text};
use std::test::Fail;

// the options as they are by default
fn options<'a>(text: &'a str) -> SendOptions<'a> {
    SendOptions {
        facility: "user",
        severity: "notice",
        up_to: "debug",
        hostname: None,
        app_name: None,
        proc_id: None,
        msg_id: None,
        micros: None,
        framing: "lf",
        text,
    }
}

// whether the status, the output and the notes come of these options
fn gives(
    rt: &HostRuntime,
    options: SendOptions<'_>,
    status: u8,
    output: &str,
    notes: &str,
) -> bool {
    let mut writer = ToWrite::new(Vec::new(rt.alloc()));
    let mut lines = ToWrite::new(Vec::new(rt.alloc()));
    let found = send_text(rt.alloc(), &options, &mut writer, &mut lines);
    found == status
        && writer.into_inner().as_slice() == output.as_bytes()
        && lines.into_inner().as_slice() == notes.as_bytes()
}

#[test]
fn a_record_goes_out_as_a_line(rt: HostRuntime) {
    let mut some = options("hi");
    some.micros = Some("1");
    some.hostname = Some("h");
    some.app_name = Some("a");
    let line = "<13>1 1970-01-01T00:00:00.000001Z h a - - - hi\n";
    assert!(rt; gives(&rt, some, 0, line, ""));
    assert!(rt; gives(&rt, options(""), 0, "<13>1 - - - - - -\n", ""));
    let text = "<13>1 - - - - - - \u{feff}\u{e9}\n";
    assert!(rt; gives(&rt, options("\u{e9}"), 0, text, ""));
}

#[test]
fn a_facility_of_the_kernel_is_that_of_the_user(rt: HostRuntime) {
    let mut kern = options("x");
    kern.facility = "kern";
    assert!(rt; gives(&rt, kern, 0, "<13>1 - - - - - - x\n", ""));
}

#[test]
fn the_mask_holds_back_what_is_less_severe(rt: HostRuntime) {
    let mut local = options("hello");
    local.facility = "local4";
    local.framing = "counted";
    assert!(rt; gives(&rt, local, 0, "24 <165>1 - - - - - - hello", ""));
    local.up_to = "warning";
    assert!(rt; gives(&rt, local, 0, "", ""));
    local.up_to = "notice";
    assert!(rt; gives(&rt, local, 0, "24 <165>1 - - - - - - hello", ""));
}

#[test]
fn the_option_that_is_refused_is_named(rt: HostRuntime) {
    let mut unknown = options("x");
    unknown.up_to = "error";
    let refusal = "error: invalid value for --up-to: expected emerg, alert, crit, err, warning, \
                   notice, info or debug\n";
    assert!(rt; gives(&rt, unknown, 2, "", refusal));
    unknown.up_to = "debug";
    unknown.severity = "error";
    let refusal = "error: invalid value for --severity: expected emerg, alert, crit, err, warning, \
                   notice, info or debug\n";
    assert!(rt; gives(&rt, unknown, 2, "", refusal));
}

#[test]
fn a_line_holds_no_line_feed(rt: HostRuntime) {
    assert!(rt; gives(&rt, options("a\nb"), 1, "", "has-lf\n"));
    let mut counted = options("a\nb");
    counted.framing = "counted";
    assert!(rt; gives(&rt, counted, 0, "21 <13>1 - - - - - - a\nb", ""));
    let mut masked = options("a\nb");
    masked.up_to = "err";
    assert!(rt; gives(&rt, masked, 0, "", ""));
}

#[test]
fn digits_alone_are_microseconds(rt: HostRuntime) {
    let last = "<13>1 9999-12-31T23:59:59.999999Z - - - - - x\n";
    let first = "<13>1 1970-01-01T00:00:00.000001Z - - - - - x\n";
    let mut some = options("x");
    some.micros = Some("253402300799999999");
    assert!(rt; gives(&rt, some, 0, last, ""));
    some.micros = Some("00000000000000000000000000000000000000001");
    assert!(rt; gives(&rt, some, 0, first, ""));
    let refusal = "error: invalid value for --micros: expected 0 to 253402300799999999 in decimal \
                   digits, microseconds from 1970-01-01T00:00:00Z\n";
    for micros in ["253402300800000000", "+5", "", "-1", "1 ", "\u{665}"] {
        some.micros = Some(micros);
        assert!(rt; gives(&rt, some, 2, "", refusal));
    }
}
