//! What an exchange came to.

ghost use Rattle.std.specs.Prelude.{◌≡◌, ◌++◌, IfOk, OnOk, codes, decimal, if◌then◌else◌};
ghost use Rattle.site_engine.specs.Lines.{amount_words, answer_line, end_words, summary_line, summary_status};

use driver::{DONE, REFUSED};
use itoa::Buffer;
use site_pipe::Amount;
use std::alloc::{AllocError, Global};

/// How much was exchanged, or would be.
#[derive(Clone, Copy, Debug)]
pub(crate) struct Summary {
    /// How many requests were made, or answered.
    pub(crate) requests: u64,
    pub(crate) sent: Amount,
    pub(crate) got: Amount,
    /// Whether nothing was put or kept.
    pub(crate) is_dry: bool,
    /// How many records the other site lacks and does not take.
    pub(crate) not_taken: u64,
}

// Writes a number in decimal digits behind others.
fn push_number(line: &mut Vec<u8>, number: u64) -> Result<(), AllocError>
    ensures { OnOk result (line.new.items ≡ line.old.items ++ decimal number) }
{
    line.extend_from_slice(Buffer::new().format(number).as_bytes())
}

// Writes how many records and octets there are.
fn push_amount(line: &mut Vec<u8>, amount: &Amount) -> Result<(), AllocError>
    ensures { OnOk result (line.new.items ≡ line.old.items
        ++ amount_words amount.now.records amount.now.octets) }
{
    push_number(line, amount.records)?;
    line.extend_from_slice(b" records ")?;
    push_number(line, amount.octets)?;
    line.extend_from_slice(b" octets")
}

impl Summary {
    // The words before both amounts.
    fn words(&self) -> (&'static [u8], &'static [u8])
        ensures sent { result.0.now ≡ (if self.now.is_dry then codes "would send " else codes "sent ") }
        ensures got { result.1.now ≡ (if self.now.is_dry then codes ", would get " else codes ", got ") }
    {
        if self.is_dry {
            return (b"would send ".as_slice(), b", would get ".as_slice());
        }
        (b"sent ".as_slice(), b", got ".as_slice())
    }

    /// The line on what was sent and got.
    pub(crate) fn line(&self, alloc: Global) -> Result<Vec<u8>, AllocError>
        ensures { IfOk result (λ line. line.items ≡ summary_line self.now) }
    {
        let (sent, got) = self.words();
        let mut line = Vec::from_slice(alloc, sent)?;
        push_amount(&mut line, &self.sent)?;
        line.extend_from_slice(got)?;
        push_amount(&mut line, &self.got)?;
        self.push_end(&mut line)?;
        Ok(line)
    }

    /// The line of a site that answered, on what it got and sent.
    pub(crate) fn answer_line(&self, alloc: Global) -> Result<Vec<u8>, AllocError>
        ensures { IfOk result (λ line. line.items ≡ answer_line self.now) }
    {
        let mut line = Vec::from_slice(alloc, b"got ")?;
        push_amount(&mut line, &self.got)?;
        line.extend_from_slice(b", sent ")?;
        push_amount(&mut line, &self.sent)?;
        self.push_end(&mut line)?;
        Ok(line)
    }

    // How many requests there were; and a line on records that are not taken.
    fn push_end(&self, line: &mut Vec<u8>) -> Result<(), AllocError>
        ensures { OnOk result (line.new.items ≡ line.old.items ++ end_words self.now) }
    {
        line.extend_from_slice(b", ")?;
        push_number(line, self.requests)?;
        line.extend_from_slice(b" requests\n")?;
        if self.not_taken == 0 {
            return Ok(());
        }
        push_number(line, self.not_taken)?;
        line.extend_from_slice(b" records not taken\n")
    }

    /// The exit status: `REFUSED` where the other site does not take what it lacks.
    pub(crate) fn status(&self) -> u8
        ensures { result ≡ summary_status self.now }
    {
        if self.not_taken == 0 {
            return DONE;
        }
        REFUSED
    }
}
