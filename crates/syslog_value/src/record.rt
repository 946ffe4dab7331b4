//! Records: what one syslog message says (RFC 5424, section 6).
ghost use Rattle.std.specs.Prelude.{◌≡◌, ℤ, Option, IfOk, IfSome};
ghost use Rattle.std.specs.Option.{option_copied};
ghost use Rattle.syslog_value.specs.Parts.{Parts, IsRecord, IsWord, IsInstant};

use crate::{Instant, Message, Priority, StructuredData, Word};
use std::alloc::{AllocError, Global};
use std::marker::Model;

/// A syslog record. None stands for the NILVALUE of a field.
#[derive(Debug, Drop)]
pub struct Record {
    priority: Priority,
    instant: Option<Instant>,
    hostname: Option<Word<255>>,
    app_name: Option<Word<48>>,
    proc_id: Option<Word<128>>,
    msg_id: Option<Word<32>>,
    structured: StructuredData,
    message: Message,
}

impl Model for Record {
    ghost use Rattle.std.specs.Prelude.{ℤ};
    ghost use Rattle.syslog_value.specs.Parts.{Parts, IsRecord};

    ghost Value = { Parts ℤ };

    ghost use Rattle.syslog_value.specs.Records.{parts_of};

    ghost view = { parts_of };

    ghost invariant = { λ r. IsRecord (parts_of r) };
}

impl Record {
    /// The record of these parts.
    pub fn new(
        priority: Priority,
        instant: Option<Instant>,
        hostname: Option<Word<255>>,
        app_name: Option<Word<48>>,
        proc_id: Option<Word<128>>,
        msg_id: Option<Word<32>>,
        structured: StructuredData,
        message: Message,
    ) -> Record
        ensures { result ≡ record {
          priority = priority;
          time = instant;
          hostname = hostname;
          app_name = app_name;
          proc_id = proc_id;
          msg_id = msg_id;
          elements = structured;
          message = message;
        } }
    {
        // Each part is valid by its type; reading it makes that known to the proof.
        let _ = priority.value();
        look_at_instant(&instant);
        look_at_word(&hostname);
        look_at_word(&app_name);
        look_at_word(&proc_id);
        look_at_word(&msg_id);
        let _ = structured.elements();
        let _ = message.octets();
        Record {
            priority,
            instant,
            hostname,
            app_name,
            proc_id,
            msg_id,
            structured,
            message,
        }
    }

    /// Facility and severity (PRI, RFC 5424, section 6.2.1).
    pub fn priority(&self) -> Priority
        ensures value { result ≡ self.now.priority }
        ensures valid { IsRecord self.now }
    {
        self.priority
    }

    /// The instant that TIMESTAMP names (RFC 5424, section 6.2.3).
    pub fn instant(&self) -> Option<Instant>
        ensures { result ≡ self.now.time }
    {
        self.instant
    }

    /// HOSTNAME (RFC 5424, section 6.2.4).
    pub fn hostname(&self) -> Option<&Word<255>>
        ensures { option_copied result ≡ self.now.hostname }
    {
        self.hostname.as_ref()
    }

    /// APP-NAME (RFC 5424, section 6.2.5).
    pub fn app_name(&self) -> Option<&Word<48>>
        ensures { option_copied result ≡ self.now.app_name }
    {
        self.app_name.as_ref()
    }

    /// PROCID (RFC 5424, section 6.2.6).
    pub fn proc_id(&self) -> Option<&Word<128>>
        ensures { option_copied result ≡ self.now.proc_id }
    {
        self.proc_id.as_ref()
    }

    /// MSGID (RFC 5424, section 6.2.7).
    pub fn msg_id(&self) -> Option<&Word<32>>
        ensures { option_copied result ≡ self.now.msg_id }
    {
        self.msg_id.as_ref()
    }

    /// STRUCTURED-DATA (RFC 5424, section 6.3); no elements stand for its NILVALUE.
    pub fn structured(&self) -> &StructuredData
        ensures { result.now ≡ self.now.elements }
    {
        &self.structured
    }

    /// MSG (RFC 5424, section 6.4); a message of no octets stands for a record without one.
    pub fn message(&self) -> &Message
        ensures { result.now ≡ self.now.message }
    {
        &self.message
    }

    /// A copy in memory of its own. It fails only when out of memory.
    pub fn copy(&self, alloc: Global) -> Result<Record, AllocError>
        ensures { IfOk result (λ r. r ≡ self.now) }
    {
        Ok(Record {
            priority: self.priority,
            instant: self.instant,
            hostname: copy_word(alloc, &self.hostname)?,
            app_name: copy_word(alloc, &self.app_name)?,
            proc_id: copy_word(alloc, &self.proc_id)?,
            msg_id: copy_word(alloc, &self.msg_id)?,
            structured: self.structured.copy(alloc)?,
            message: self.message.copy(alloc)?,
        })
    }
}

impl PartialEq for Record {
    ghost use Rattle.std.specs.Prelude.{◌≡◌, ◌↔◌, IsTrue};
    ghost use Rattle.std.specs.Cmp.{decided, partial_equiv_from_equiv};
    ghost use Rattle.syslog_value.specs.EqualityLaws.{record_decides};
    ghost use Rattle.syslog_value.specs.Equality.{record_eq};

    ghost eq = { record_eq };

    ghost laws = { partial_equiv_from_equiv (decided record_eq record_decides) };

    #[tactic(auto, unfolding(crate::specs::Equality::record_eq, crate::specs::Equality::words_eq))]
    fn eq(&self, other: &Record) -> bool
        ensures value { result ≡ record_eq self.now other.now }
        ensures same { IsTrue result ↔ (self.now ≡ other.now) }
    {
        self.priority == other.priority
            && self.instant == other.instant
            && self.hostname == other.hostname
            && self.app_name == other.app_name
            && self.proc_id == other.proc_id
            && self.msg_id == other.msg_id
            && self.structured == other.structured
            && self.message == other.message
    }
}

impl Eq for Record {
    ghost use Rattle.std.specs.Cmp.{decided};
    ghost use Rattle.syslog_value.specs.EqualityLaws.{record_decides};
    ghost use Rattle.syslog_value.specs.Equality.{record_eq};

    ghost laws = { decided record_eq record_decides };
}

// a look at an instant, which is in range by its type
fn look_at_instant(instant: &Option<Instant>)
    ensures { IfSome instant.now IsInstant }
{
    if let Some(instant) = instant {
        let _ = instant.micros();
    }
}

// a look at a word, which is valid by its type
fn look_at_word<const N: usize>(word: &Option<Word<N>>)
    ensures { IfSome word.now (IsWord N) }
{
    if let Some(word) = word {
        let _ = word.bytes();
    }
}

fn copy_word<const N: usize>(
    alloc: Global,
    word: &Option<Word<N>>,
) -> Result<Option<Word<N>>, AllocError>
    ensures { IfOk result (λ copied. copied ≡ word.now) }
{
    match word {
        Some(word) => Ok(Some(word.copy(alloc)?)),
        None => Ok(None),
    }
}
