//! The sender.

ghost use Rattle.std.specs.Prelude.{◌≡◌, ◌↔◌, IfErr, IfOk, IfSome, IsSome, IsTrue, MatchBool, OnErr};
ghost use Rattle.std.specs.Option.{option_copied};
ghost use Rattle.syslog_value.specs.Parts.{IsInstant, IsRecord, IsWord};
ghost use Rattle.syslog_fields.specs.Appending.{Adds, Appends};
ghost use Rattle.syslog_fields.specs.Canonical.{Canonical};
ghost use Rattle.syslog_grammar.specs.RecordFields.{field_parts};
ghost use Rattle.syslog_sender.specs.Answers.{IsAnswered, IsSendFault, IsWriteFault, SendsRecord};
ghost use Rattle.syslog_sender.specs.Calls.{Step, Send};
ghost use Rattle.syslog_sender.specs.Senders.{IsNew, LetsThrough, SetsMask, own_priority};
ghost use Rattle.syslog_sender.specs.Sent.{event_of, record_of};

use crate::fault::SendFault;
use crate::framing::write_frame;
use octet_devices::Output;
use std::alloc::{AllocError, Global};
use std::marker::Model;
use syslog_frame::Framing;
use syslog_grammar::{RecordFields, write_canonical_fields};
use syslog_value::{Facility, Instant, Mask, Message, Priority, StructuredData, Word};

// octets of a record beside its message that have room from the start
const ROOM: usize = 256;

/// What the records of one origin have in common, and which severities it lets through.
#[derive(Debug, Drop)]
pub struct Sender {
    hostname: Option<Word<255>>,
    app_name: Option<Word<48>>,
    proc_id: Option<Word<128>>,
    facility: Facility,
    mask: Mask,
}

impl Model for Sender {
    ghost use Rattle.syslog_sender.specs.Senders.{SenderParts};

    ghost Value = { SenderParts };

    ghost use Rattle.syslog_sender.specs.Views.{sender_of};

    ghost view = { sender_of };
}

// The priority of a record: the sender's facility in place of the kernel's.
fn own_priority_of(facility: Facility, priority: Priority) -> Priority
    ensures { result ≡ own_priority facility priority }
{
    match priority.facility() {
        Facility::Kern => Priority::new(facility, priority.severity()),
        _ => priority,
    }
}

// a look at an instant, which is in range by its type
fn look_at_instant(instant: Option<Instant>)
    ensures { IfSome instant IsInstant }
{
    if let Some(instant) = instant {
        let _ = instant.micros();
    }
}

// a look at a word, which is valid by its type
fn look_at_word<const N: usize>(word: Option<&Word<N>>)
    ensures { IfSome (option_copied word.entry) (IsWord N) }
{
    if let Some(word) = word {
        let _ = word.bytes();
    }
}

// a look at each part of a record, which is valid by its type
fn look_at_record(fields: &RecordFields<'_>)
    ensures { IsRecord (field_parts fields.now) }
{
    let _ = fields.priority.value();
    look_at_instant(fields.instant);
    look_at_word(fields.hostname);
    look_at_word(fields.app_name);
    look_at_word(fields.proc_id);
    look_at_word(fields.msg_id);
    let _ = fields.structured.elements();
    let _ = fields.message.octets();
}

impl Sender {
    /// A sender whose records have these words, None for NILVALUE. Its facility replaces that of
    /// the kernel where a call gives that; if it is that of the kernel itself, user-level messages
    /// do. All severities are let through.
    pub fn new(
        hostname: Option<Word<255>>,
        app_name: Option<Word<48>>,
        proc_id: Option<Word<128>>,
        facility: Facility,
    ) -> Sender
        ensures { IsNew hostname app_name proc_id facility result }
    {
        let facility = match facility {
            Facility::Kern => Facility::User,
            other => other,
        };
        Sender {
            hostname,
            app_name,
            proc_id,
            facility,
            mask: Mask::all(),
        }
    }

    /// Puts a mask in force, unless it is empty. The answer is the mask that was in force before.
    pub fn set_mask(&mut self, mask: Mask) -> Mask
        ensures answer { result ≡ self.old.mask }
        ensures set { SetsMask self.old.mask mask self.new.mask }
        ensures same { self.new ≡ record self.old { mask = self.new.mask } }
    {
        let old = self.mask;
        if !mask.is_empty() {
            self.mask = mask;
        }
        old
    }

    /// The mask in force.
    pub fn mask(&self) -> Mask
        ensures { result ≡ self.now.mask }
    {
        self.mask
    }

    /// Whether the mask in force lets an event of this priority through.
    fn lets_through(&self, priority: Priority) -> bool
        ensures { IsTrue result ↔ LetsThrough self.now.mask priority }
    {
        self.mask.holds(priority.severity())
    }

    // Appends the canonical octets of the record of an event, whatever the mask.
    fn put_record(
        &self,
        priority: Priority,
        instant: Option<Instant>,
        msg_id: Option<&Word<32>>,
        structured: &StructuredData,
        message: &Message,
        out: &mut Vec<u8>,
    ) -> Result<(), AllocError>
        ensures octets { Appends (Canonical (record_of self.now (event_of priority instant
            (option_copied msg_id.entry) structured.now message.now)))
            out.old.items out.new.items result }
        ensures valid { IsRecord (record_of self.now (event_of priority instant
            (option_copied msg_id.entry) structured.now message.now)) }
    {
        let fields = RecordFields {
            priority: own_priority_of(self.facility, priority),
            instant,
            hostname: self.hostname.as_ref(),
            app_name: self.app_name.as_ref(),
            proc_id: self.proc_id.as_ref(),
            msg_id,
            structured,
            message,
        };
        look_at_record(&fields);
        write_canonical_fields(&fields, out)
    }

    /// Appends the canonical octets of the record of an event to `out`, however many. The answer is
    /// false, and nothing is appended, if the mask holds the severity back. It fails only when out
    /// of memory, and then `out` is unchanged.
    pub fn prepare_into(
        &self,
        priority: Priority,
        instant: Option<Instant>,
        msg_id: Option<&Word<32>>,
        structured: &StructuredData,
        message: &Message,
        out: &mut Vec<u8>,
    ) -> Result<bool, AllocError>
        ensures sent { IfOk result (λ sent. IsTrue sent ↔ LetsThrough self.now.mask priority) }
        ensures ok { IfOk result (λ sent. MatchBool sent
            (Adds (Canonical (record_of self.now (event_of priority instant
            (option_copied msg_id.entry) structured.now message.now)))
            out.old.items out.new.items)
            (out.new.items ≡ out.old.items)) }
        ensures err { OnErr result
            (LetsThrough self.now.mask priority × (out.new.items ≡ out.old.items)) }
        ensures valid { LetsThrough self.now.mask priority
            → IsRecord (record_of self.now (event_of priority instant
            (option_copied msg_id.entry) structured.now message.now)) }
    {
        if !self.lets_through(priority) {
            return Ok(false);
        }
        self.put_record(priority, instant, msg_id, structured, message, out)?;
        Ok(true)
    }

    /// The canonical octets of the record of an event, however many; None if the mask holds the
    /// severity back. It fails only when out of memory.
    pub fn prepare(
        &self,
        alloc: Global,
        priority: Priority,
        instant: Option<Instant>,
        msg_id: Option<&Word<32>>,
        structured: &StructuredData,
        message: &Message,
    ) -> Result<Option<Vec<u8>>, AllocError>
        ensures sent { IfOk result (λ octets.
            IsSome octets ↔ LetsThrough self.now.mask priority) }
        ensures ok { IfOk result (λ octets. IfSome octets (λ octets.
            Canonical (record_of self.now (event_of priority instant
            (option_copied msg_id.entry) structured.now message.now)) octets.items)) }
        ensures err { OnErr result (LetsThrough self.now.mask priority) }
        ensures valid { IfOk result (λ octets. IfSome octets (λ _.
            IsRecord (record_of self.now (event_of priority instant
            (option_copied msg_id.entry) structured.now message.now)))) }
    {
        if !self.lets_through(priority) {
            return Ok(None);
        }
        let mut octets = Vec::with_capacity(alloc, message.octets().len().saturating_add(ROOM))?;
        self.put_record(priority, instant, msg_id, structured, message, &mut octets)?;
        Ok(Some(octets))
    }

    /// Writes the record of an event as one frame. The answer is false, and nothing is written, if
    /// the mask holds the severity back. It fails as the variants of [`SendFault`] say.
    pub fn send<W: Output>(
        &self,
        alloc: Global,
        priority: Priority,
        instant: Option<Instant>,
        msg_id: Option<&Word<32>>,
        structured: &StructuredData,
        message: &Message,
        framing: Framing,
        writer: &mut W,
    ) -> Result<bool, SendFault>
        ensures sent { IfOk result (λ sent. IsTrue sent ↔ LetsThrough self.now.mask priority) }
        ensures ok { IfOk result (λ sent. MatchBool sent
            (SendsRecord (record_of self.now (event_of priority instant
            (option_copied msg_id.entry) structured.now message.now))
            framing (W.state writer.old) (W.state writer.new))
            (writer.new ≡ writer.old)) }
        ensures valid { IfOk result (λ sent. IsTrue sent
            → IsRecord (record_of self.now (event_of priority instant
            (option_copied msg_id.entry) structured.now message.now))) }

        // the first cause that holds, and what was written
        ensures let_through { OnErr result (LetsThrough self.now.mask priority) }
        ensures err { IfErr result (IsSendFault (record_of self.now (event_of priority instant
            (option_copied msg_id.entry) structured.now message.now))
            framing (W.state writer.old) (W.state writer.new)) }
        ensures same { IfErr result (λ fault. ¬ (IsWriteFault fault) → writer.new ≡ writer.old) }

        // one step of a list of calls, unless memory or the writer failed
        ensures step { IsAnswered result → Step self.now (W.state writer.old).taken
            (Send framing (event_of priority instant (option_copied msg_id.entry)
            structured.now message.now))
            self.now (W.state writer.new).taken }
    {
        let octets = match self.prepare(alloc, priority, instant, msg_id, structured, message)? {
            Some(octets) => octets,
            None => return Ok(false),
        };
        write_frame(alloc, framing, octets.as_slice(), writer)?;
        Ok(true)
    }
}
