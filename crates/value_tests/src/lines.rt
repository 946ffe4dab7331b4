use record_json::{LentParts, put_json_line, put_lent_line};
use std::test::Fail;
use syslog_grammar::fields::{HeaderValues, MessageView};
use syslog_grammar::view;
use syslog_value::Priority;

// the line of the record that the octets are
fn line_of(rt: &HostRuntime, octets: &[u8]) -> Result<Vec<u8>, Fail> {
    let mut scratch = Vec::new(rt.alloc());
    let mut out = Vec::new(rt.alloc());
    let Ok(view) = view(octets) else {
        return Ok(out);
    };
    put_json_line(rt.alloc(), &view, &mut scratch, &mut out)?;
    Ok(out)
}

// records, and the line of each
const LINES: [(&[u8], &[u8]); 7] = [
    // RFC 5424, section 6.5, example 1
    (
        b"<34>1 2003-10-11T22:14:15.003Z mymachine.example.com su - ID47 - \
        \xef\xbb\xbf'su root' failed for lonvick",
        b"{\"priority\":34,\"facility\":\"auth\",\"severity\":\"crit\",\
        \"time\":\"2003-10-11T22:14:15.003000Z\",\"host\":\"mymachine.example.com\",\
        \"app\":\"su\",\"proc\":null,\"msgid\":\"ID47\",\"data\":{},\
        \"message\":\"'su root' failed for lonvick\",\"bom\":true}\n",
    ),
    // no part but the priority
    (
        b"<0>1 - - - - - -",
        b"{\"priority\":0,\"facility\":\"kern\",\"severity\":\"emerg\",\"time\":null,\"host\":null,\
        \"app\":null,\"proc\":null,\"msgid\":null,\"data\":{},\"message\":\"\"}\n",
    ),
    // an empty message after a BOM, and words with marks
    (
        b"<191>1 - a\"b\\c - - - - \xef\xbb\xbf",
        b"{\"priority\":191,\"facility\":\"local7\",\"severity\":\"debug\",\"time\":null,\
        \"host\":\"a\\\"b\\\\c\",\"app\":null,\"proc\":null,\"msgid\":null,\"data\":{},\
        \"message\":\"\",\"bom\":true}\n",
    ),
    // every octet that has an escape
    (
        b"<13>1 - - - - - - \x00\x01\x02\x03\x04\x05\x06\x07\x08\x09\n\x0b\x0c\x0d\x0e\x0f\
        \x10\x11\x12\x13\x14\x15\x16\x17\x18\x19\x1a\x1b\x1c\x1d\x1e\x1f\x7f\"\\/",
        b"{\"priority\":13,\"facility\":\"user\",\"severity\":\"notice\",\"time\":null,\"host\":null,\
        \"app\":null,\"proc\":null,\"msgid\":null,\"data\":{},\
        \"message\":\"\\u0000\\u0001\\u0002\\u0003\\u0004\\u0005\\u0006\\u0007\\b\\t\\n\\u000b\\f\\r\
        \\u000e\\u000f\\u0010\\u0011\\u0012\\u0013\\u0014\\u0015\\u0016\\u0017\\u0018\\u0019\\u001a\
        \\u001b\\u001c\\u001d\\u001e\\u001f\x7f\\\"\\\\/\"}\n",
    ),
    // a message that is not UTF-8
    (
        b"<13>1 - - - - - - \xff\xfe\x00",
        b"{\"priority\":13,\"facility\":\"user\",\"severity\":\"notice\",\"time\":null,\"host\":null,\
        \"app\":null,\"proc\":null,\"msgid\":null,\"data\":{},\"message_base64\":\"//4A\"}\n",
    ),
    // names that repeat, values with escapes, and an element without parameters
    (
        b"<13>1 - - - - - [a x=\"1\" x=\"2\" y=\"\\\"\\\\\\]\\n\n\xc3\xa4\"][b\\] m",
        b"{\"priority\":13,\"facility\":\"user\",\"severity\":\"notice\",\"time\":null,\"host\":null,\
        \"app\":null,\"proc\":null,\"msgid\":null,\
        \"data\":{\"a\":[[\"x\",\"1\"],[\"x\",\"2\"],[\"y\",\"\\\"\\\\]\\\\n\\n\xc3\xa4\"]],\"b\\\\\":[]},\
        \"message\":\"m\"}\n",
    ),
    // elements by id, and an offset
    (
        b"<13>1 1969-12-31T23:59:59.5+01:00 - - - - [b x=\"1\"][a][aa y=\"\"] m",
        b"{\"priority\":13,\"facility\":\"user\",\"severity\":\"notice\",\
        \"time\":\"1969-12-31T22:59:59.500000Z\",\"host\":null,\"app\":null,\"proc\":null,\"msgid\":null,\
        \"data\":{\"a\":[],\"aa\":[[\"y\",\"\"]],\"b\":[[\"x\",\"1\"]]},\"message\":\"m\"}\n",
    ),
];

#[test]
fn records_have_their_lines(rt: HostRuntime) -> Result<(), Fail> {
    for (octets, line) in LINES {
        assert_eq!(rt; line_of(&rt, octets)?.as_slice(), line);
    }
    Ok(())
}

#[test]
fn lent_parts_have_their_line(rt: HostRuntime) -> Result<(), Fail> {
    let header = HeaderValues {
        priority: Priority::from_value(13).ok_or("no priority")?,
        instant: None,
        hostname: Some(b"h"),
        app_name: None,
        proc_id: None,
        msg_id: None,
    };
    let message = MessageView {
        octets: b"m",
        has_mark: false,
    };
    let parts = LentParts {
        header,
        structured_data: b"-",
        message,
    };
    let mut out = Vec::new(rt.alloc());
    put_lent_line(&parts, &mut out)?;
    let line: &[u8] =
        b"{\"priority\":13,\"facility\":\"user\",\"severity\":\"notice\",\"time\":null,\
        \"host\":\"h\",\"app\":null,\"proc\":null,\"msgid\":null,\"data\":{},\"message\":\"m\"}\n";
    assert_eq!(rt; out.as_slice(), line);
    Ok(())
}
