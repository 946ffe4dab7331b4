//! A record is sent.

ghost use Rattle.std.specs.Prelude.{◌↔◌, IfOk, IsTrue};
ghost use Rattle.syslog_sender.specs.Senders.{LetsThrough};

use std::alloc::Global;
use syslog::{
    Facility, Framing, Message, Output, Priority, SendFault, Sender, Severity, StructuredData,
};

/// Sends a notice of the facility `user` as a line (RFC 6587, section 3.4.2), and tells whether it
/// was sent, or held back by the sender's mask.
///
/// # Errors
/// The line is too long or holds a line feed, the output failed, or memory ran out.
pub fn notice<W: Output>(
    alloc: Global,
    sender: &Sender,
    message: &Message,
    output: &mut W,
) -> Result<bool, SendFault>
    // whether the mask lets through a notice of the facility `user`, whose PRI is 13
    ensures { IfOk result (λ sent. IsTrue sent ↔ LetsThrough sender.now.mask 13) }
{
    let priority = Priority::new(Facility::User, Severity::Notice);
    let data = StructuredData::empty(alloc);
    sender.send(
        alloc,
        priority,
        None,
        None,
        &data,
        message,
        Framing::Lf,
        output,
    )
}

#[cfg(test)]
mod tests {
    use super::*;
    use std::test::Fail;
    use syslog::ToWrite;

    #[test]
    fn a_notice_is_a_line(rt: HostRuntime) -> Result<(), Fail> {
        let alloc = rt.alloc();
        let sender = Sender::new(None, None, None, Facility::User);
        let message = Message::utf8(String::from_str(alloc, "done")?);
        let mut output = ToWrite::new(Vec::new(alloc));
        assert!(rt; notice(alloc, &sender, &message, &mut output)?);
        let line = output.into_inner();
        assert_eq!(rt;
            line.as_slice(),
            b"<13>1 - - - - - - \xEF\xBB\xBFdone\n".as_slice()
        );
        Ok(())
    }
}
