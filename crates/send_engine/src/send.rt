//! `send`: one record.

ghost use Rattle.std.specs.Prelude.{◌≡◌, ◌↔◌, IfErr, IfOk, IsTrue, MatchBool, OnErr};
ghost use Rattle.syslog_sender.specs.Answers.{IsSendFault, IsWriteFault, SendsRecord};
ghost use Rattle.send_engine.specs.Options.{texts_of};
ghost use Rattle.send_engine.specs.Sending.{IsMessageOf, RanSend};
ghost use Rattle.send_engine.specs.Values.{ConcludesAs, IsLetThrough, record_with};

use crate::options::SendOptions;
use crate::values::{Values, ValuesFault, read_values};
use driver::{DONE, FAULT, NO_MEMORY, REFUSED, report};
use octet_devices::Output;
use std::alloc::{AllocError, Global};
use syslog_sender::SendFault;
use syslog_value::{Facility, Message, Priority, StructuredData};

// The message of a text: any octets where it is ASCII, else a text in UTF-8, with its BOM.
fn message(alloc: Global, text: &str) -> Result<Message, AllocError>
    ensures { IfOk result (IsMessageOf text.now) }
{
    if !text.is_ascii() {
        return Ok(Message::utf8(String::from_str(alloc, text)?));
    }
    let octets = text.as_bytes().to_vec(alloc)?;
    match Message::any(octets) {
        Ok(message) => Ok(message),
        Err(_) => unreachable!(),
    }
}

// Writes the record of these values as one frame.
fn send<W: Output>(
    alloc: Global,
    values: &Values,
    message: &Message,
    output: &mut W,
) -> Result<bool, SendFault>
    ensures sent { IfOk result (λ sent. IsTrue sent ↔ IsLetThrough values.now) }
    ensures ok { IfOk result (λ sent. MatchBool sent
        (SendsRecord (record_with values.now message.now) values.now.framing
        (W.state output.old) (W.state output.new))
        (W.state output.new ≡ W.state output.old)) }
    ensures let_through { OnErr result (IsLetThrough values.now) }
    ensures err { IfErr result (IsSendFault (record_with values.now message.now)
        values.now.framing (W.state output.old) (W.state output.new)) }
    ensures same { IfErr result (λ fault. ¬ (IsWriteFault fault)
        → W.state output.new ≡ W.state output.old) }
{
    let priority = Priority::new(Facility::Kern, values.severity);
    values.sender.send(
        alloc,
        priority,
        values.instant,
        values.msg_id.as_ref(),
        &StructuredData::empty(alloc),
        message,
        values.framing,
        output,
    )
}

// Reports why nothing was sent, and returns the exit status.
fn conclude<N: Output>(sent: Result<bool, SendFault>, diagnostics: &mut N) -> u8
    ensures { ConcludesAs sent (N.state diagnostics.old) (N.state diagnostics.new) result }
{
    match sent {
        Ok(_) => DONE,
        Err(SendFault::HasLf) => report(diagnostics, b"has-lf\n", REFUSED),
        Err(SendFault::TooLong) => report(diagnostics, b"canonical-too-long\n", REFUSED),
        Err(SendFault::Memory) => report(diagnostics, b"want of memory\n", NO_MEMORY),
        Err(SendFault::Write { .. }) => report(diagnostics, b"write fault\n", FAULT),
    }
}

/// Sends the record that the options ask for: one frame goes to the output, unless its severity is
/// held back. A text on a value that is refused, a refusal or a fault goes to the diagnostics.
/// Returns the exit status: `DONE`; `REFUSED` if the framing does not carry the record; `FAULT` if
/// a value is refused or a device failed; `NO_MEMORY` if memory ran out.
pub fn send_text<W: Output, N: Output>(
    alloc: Global,
    options: &SendOptions<'_>,
    output: &mut W,
    diagnostics: &mut N,
) -> u8
    ensures { RanSend (texts_of options.now) (W.state output.old) (W.state output.new)
        (N.state diagnostics.old) (N.state diagnostics.new) result }
{
    let values = match read_values(alloc, options) {
        Ok(values) => values,
        Err(ValuesFault::Refused(option)) => {
            return report(diagnostics, option.takes().as_bytes(), FAULT);
        }
        Err(ValuesFault::Memory) => return report(diagnostics, b"want of memory\n", NO_MEMORY),
    };
    let Ok(message) = message(alloc, options.text) else {
        return report(diagnostics, b"want of memory\n", NO_MEMORY);
    };
    let sent = send(alloc, &values, &message, output);
    conclude(sent, diagnostics)
}
