//! What senders write, by their public calls.

use octet_devices::{Fuse, Output, ToWrite};
use std::alloc::Global;
use std::test::Fail;
use syslog_frame::{FRAME_MAX, Framing, Ready, Scanner};
use syslog_grammar::view;
use syslog_sender::{SendFault, Sender};
use syslog_value::{Facility, Instant, Mask, Message, Priority, Severity, StructuredData, Word};

/// A sender without words.
fn nameless(facility: Facility) -> Sender {
    Sender::new(None, None, None, facility)
}

/// An event of the kernel, which gets the facility of its sender.
fn of_kernel(severity: Severity) -> Priority {
    Priority::new(Facility::Kern, severity)
}

/// The message of any octets that do not begin with the BOM.
fn any(octets: Vec<u8>) -> Result<Message, Fail> {
    match Message::any(octets) {
        Ok(message) => Ok(message),
        Err(_) => Err(Fail::from("octets with the BOM")),
    }
}

/// The message of a text: as any octets if it is ASCII, else with the BOM.
fn message(alloc: Global, text: &str) -> Result<Message, Fail> {
    if text.is_ascii() {
        any(text.as_bytes().to_vec(alloc)?)
    } else {
        Ok(Message::utf8(String::from_str(alloc, text)?))
    }
}

/// Sends a message without an instant, an id or elements.
fn send<W: Output>(
    alloc: Global,
    sender: &Sender,
    priority: Priority,
    framing: Framing,
    message: &Message,
    writer: &mut W,
) -> Result<bool, SendFault> {
    let data = StructuredData::empty(alloc);
    sender.send(alloc, priority, None, None, &data, message, framing, writer)
}

/// What a sender writes for a text; nothing if its mask holds the text back.
fn written(
    alloc: Global,
    sender: &Sender,
    priority: Priority,
    framing: Framing,
    text: &str,
) -> Result<Vec<u8>, Fail> {
    let message = message(alloc, text)?;
    let mut writer = ToWrite::new(Vec::new(alloc));
    let sent = send(alloc, sender, priority, framing, &message, &mut writer)?;
    let octets = writer.into_inner();
    if sent == octets.is_empty() {
        return Err(Fail::from("the answer is not what was written"));
    }
    Ok(octets)
}

/// Whether a sender writes these lines for texts of these severities.
fn writes(alloc: Global, sender: &Sender, rows: &[(Severity, &str, &[u8])]) -> Result<bool, Fail> {
    let mut same = true;
    for (severity, text, line) in rows {
        let found = written(alloc, sender, of_kernel(*severity), Framing::Lf, text)?;
        same = same && found.as_slice() == *line;
    }
    Ok(same)
}

#[test]
fn a_mask_holds_events_back_and_the_empty_one_changes_nothing(rt: HostRuntime) -> Result<(), Fail> {
    let mut sender = nameless(Facility::User);
    let (all, none, warning) = (Mask::all(), Mask::none(), Mask::up_to(Severity::Warning));
    let notice_and_error: [(Severity, &str, &[u8]); 2] = [
        (Severity::Notice, "a\nb", b""),
        (Severity::Error, "", b"<11>1 - - - - - -\n"),
    ];
    for (mask, before) in [
        (warning, all),
        (none, warning),
        (warning, warning),
        (none, warning),
    ] {
        assert_eq!(rt; sender.set_mask(mask), before);
        assert_eq!(rt; sender.mask(), warning);
        assert!(rt; writes(rt.alloc(), &sender, &notice_and_error)?);
    }
    assert_eq!(rt; sender.set_mask(all), warning);
    let informational: (Severity, &str, &[u8]) = (
        Severity::Informational,
        "",
        b"<14>1 - - - - - -\n",
    );
    assert!(rt; writes(rt.alloc(), &sender, &[informational])?);
    Ok(())
}

#[test]
fn a_record_of_the_kernel_has_the_facility_of_its_sender(rt: HostRuntime) -> Result<(), Fail> {
    for (own, given, framing, text, frame) in [
        (
            Facility::Local4,
            Facility::Kern,
            Framing::Counted,
            "hello",
            b"24 <165>1 - - - - - - hello".as_slice(),
        ),
        (
            Facility::Kern,
            Facility::Kern,
            Framing::Lf,
            "x",
            b"<13>1 - - - - - - x\n",
        ),
        (
            Facility::Local4,
            Facility::Mail,
            Framing::Lf,
            "x",
            b"<21>1 - - - - - - x\n",
        ),
        (
            Facility::User,
            Facility::Kern,
            Framing::Lf,
            "\u{e9}",
            b"<13>1 - - - - - - \xef\xbb\xbf\xc3\xa9\n",
        ),
    ] {
        let priority = Priority::new(given, Severity::Notice);
        let found = written(rt.alloc(), &nameless(own), priority, framing, text)?;
        assert_eq!(rt; found.as_slice(), frame, "{text}");
    }
    Ok(())
}

/// A sender with all its words.
fn named(alloc: Global) -> Result<Sender, Fail> {
    Ok(Sender::new(
        Some(Word::new(alloc, b"h")?),
        Some(Word::new(alloc, b"a")?),
        Some(Word::new(alloc, b"p")?),
        Facility::User,
    ))
}

/// The record of a message at the first microsecond, with an id.
fn prepared(alloc: Global, sender: &Sender, message: &Message) -> Result<Vec<u8>, Fail> {
    let notice = of_kernel(Severity::Notice);
    let instant = Instant::from_micros(1);
    let id = Word::new(alloc, b"m")?;
    let data = StructuredData::empty(alloc);
    let octets = sender.prepare(alloc, notice, instant, Some(&id), &data, message)?;
    Ok(octets.ok_or("held back")?)
}

/// Appends that record.
fn append_prepared(
    alloc: Global,
    sender: &Sender,
    message: &Message,
    out: &mut Vec<u8>,
) -> Result<bool, Fail> {
    let notice = of_kernel(Severity::Notice);
    let instant = Instant::from_micros(1);
    let id = Word::new(alloc, b"m")?;
    let data = StructuredData::empty(alloc);
    Ok(sender.prepare_into(notice, instant, Some(&id), &data, message, out)?)
}

#[test]
fn a_record_has_the_words_of_its_sender(rt: HostRuntime) -> Result<(), Fail> {
    let sender = named(rt.alloc())?;
    let message = message(rt.alloc(), "hi")?;
    let record = b"<13>1 1970-01-01T00:00:00.000001Z h a p m - hi";
    let octets = prepared(rt.alloc(), &sender, &message)?;
    assert_eq!(rt; octets.as_slice(), record.as_slice());
    let mut room = b"old ".to_vec(rt.alloc())?;
    assert!(rt; append_prepared(rt.alloc(), &sender, &message, &mut room)?);
    assert!(rt; room.as_slice().ends_with(record) && room.len() == 4 + record.len());
    Ok(())
}

/// The answer to a message when the writer takes so many octets, and what it took.
fn sent(
    alloc: Global,
    framing: Framing,
    octets: &[u8],
    room: u64,
) -> Result<(Result<bool, SendFault>, Vec<u8>), Fail> {
    let sender = nameless(Facility::User);
    let notice = of_kernel(Severity::Notice);
    let message = any(octets.to_vec(alloc)?)?;
    let mut writer = Fuse::new(ToWrite::new(Vec::new(alloc)), room, u64::MAX);
    let answer = send(alloc, &sender, notice, framing, &message, &mut writer);
    Ok((answer, writer.into_inner().into_inner()))
}

/// Whether a message is refused for this fault, and nothing is written.
fn refuses(alloc: Global, framing: Framing, octets: &[u8], fault: SendFault) -> Result<bool, Fail> {
    let (answer, taken) = sent(alloc, framing, octets, u64::MAX)?;
    Ok(answer == Err(fault) && taken.is_empty())
}

#[test]
fn what_a_framing_does_not_carry_is_not_written(rt: HostRuntime) -> Result<(), Fail> {
    let alloc = rt.alloc();
    let long = vec![in alloc; b'a'; FRAME_MAX]?;
    let mut lines = vec![in alloc; b'a'; FRAME_MAX]?;
    lines.push(b'\n')?;
    assert!(rt; refuses(alloc, Framing::Lf, b"a\nb", SendFault::HasLf)?);
    assert!(rt; refuses(alloc, Framing::Lf, &lines, SendFault::HasLf)?);
    assert!(rt; refuses(alloc, Framing::Counted, &lines, SendFault::TooLong)?);
    assert!(rt; refuses(alloc, Framing::Lf, &long, SendFault::TooLong)?);
    Ok(())
}

#[test]
fn a_writer_that_fails_took_so_many_octets_of_the_frame(rt: HostRuntime) -> Result<(), Fail> {
    let frame = b"19 <13>1 - - - - - - x";
    for room in 0..frame.len() {
        let (answer, taken) = sent(rt.alloc(), Framing::Counted, b"x", room as u64)?;
        assert_eq!(rt; answer, Err(SendFault::Write { sent: room as u64 }));
        assert_eq!(rt; taken.as_slice(), &frame[..room]);
    }
    Ok(())
}

/// The octets of the only frame of a stream.
fn only_frame(alloc: Global, framing: Framing, stream: &[u8]) -> Result<Vec<u8>, Fail> {
    let mut scanner = Scanner::new(alloc, framing)?;
    if scanner.push(stream) != Ok(stream.len()) {
        return Err(Fail::from("more than a frame"));
    }
    match scanner.ready() {
        Some(Ready::Frame(octets)) => Ok(octets.to_vec(alloc)?),
        _ => Err(Fail::from("no frame is ready")),
    }
}

/// What is read of a record: its message, whether that has the BOM, its name and its priority.
#[derive(Clone, Copy, PartialEq)]
struct Seen<'a> {
    message: &'a [u8],
    has_mark: bool,
    app_name: Option<&'a [u8]>,
    priority: u8,
}

fn read_back(octets: &[u8]) -> Result<Seen<'_>, Fail> {
    let seen = view(octets).ok().ok_or("a fault")?;
    Ok(Seen {
        message: seen.message(),
        has_mark: seen.has_mark(),
        app_name: seen.app_name(),
        priority: seen.priority().value(),
    })
}

#[test]
fn what_is_sent_is_read_back(rt: HostRuntime) -> Result<(), Fail> {
    let alloc = rt.alloc();
    let sender = Sender::new(None, Some(Word::new(alloc, b"app")?), None, Facility::Mail);
    let texts = [
        "",
        "x",
        " x",
        "-",
        "[a]",
        "caf\u{e9}",
        "tab\t nul\0 \r",
        "\u{10ffff}",
    ];
    for text in texts {
        let expected = Seen {
            message: text.as_bytes(),
            has_mark: !text.is_ascii(),
            app_name: Some(b"app"),
            priority: 17,
        };
        for framing in [Framing::Counted, Framing::Lf] {
            let frame = written(alloc, &sender, of_kernel(Severity::Alert), framing, text)?;
            let octets = only_frame(alloc, framing, frame.as_slice())?;
            assert!(rt; read_back(octets.as_slice())? == expected, "{text}");
        }
    }
    Ok(())
}
