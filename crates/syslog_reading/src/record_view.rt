//! A record as it lies in its octets.

ghost use Rattle.std.specs.Prelude.{◌≤◌, option_map};
ghost use Rattle.std.specs.Option.{ForSome};
ghost use Rattle.syslog_value.specs.Parts.{IsInstant};
ghost use Rattle.syslog_reading.specs.DataForms.{HasDataForms};
ghost use Rattle.syslog_reading.specs.ShownParts.{IsSpelled};
ghost use Rattle.syslog_reading.specs.Views.{message_parts};

use crate::message::MessageView;
use crate::parts::Elements;
use syslog_value::{Instant, Priority};

/// A well-formed record that lends its parts from the octets. It takes no memory.
#[derive(Clone, Copy, Debug, PartialEq, Eq)]
pub struct RecordView<'a> {
    pub(crate) priority: u8,
    pub(crate) micros: Option<i64>,
    pub(crate) hostname: Option<&'a [u8]>,
    pub(crate) app_name: Option<&'a [u8]>,
    pub(crate) proc_id: Option<&'a [u8]>,
    pub(crate) msg_id: Option<&'a [u8]>,
    /// The octets of STRUCTURED-DATA (RFC 5424, section 6.3): `-`, or the elements.
    pub structured_data: &'a [u8],
    pub(crate) message: &'a [u8],
    /// What follows the timestamp and its space.
    pub behind_time: &'a [u8],
    /// Whether the message starts with the BOM, which `message` is without.
    pub(crate) has_mark: bool,
    /// Whether the structured data is canonical except for the order of its elements.
    pub is_form: bool,
    /// Whether the ids of the elements ascend.
    pub ascends: bool,
    ghost priority_valid: { priority ≤ 191 },
    ghost micros_valid: { ForSome micros IsInstant },
    pub ghost forms: { ∥ HasDataForms is_form ascends structured_data.now ∥₁ },
    pub ghost shown: { ∥ IsSpelled (record {
      priority = priority;
      instant = micros;
      hostname = option_map (λ s. s.now) hostname;
      app_name = option_map (λ s. s.now) app_name;
      proc_id = option_map (λ s. s.now) proc_id;
      msg_id = option_map (λ s. s.now) msg_id;
      elements = structured_data.now;
      message = message_parts (record { octets = message; has_mark = has_mark });
      behind_time = behind_time.now;
    }) ∥₁ },
}

impl<'a> RecordView<'a> {
    ghost use Rattle.std.specs.Prelude.{◌≡◌, ◌↔◌, ◌∷◌, ℕ, List, IsTrue};
    ghost use Rattle.octet_language.specs.Language.{Each};
    ghost use Rattle.syslog_value.specs.Parts.{ElementParts};
    ghost use Rattle.syslog_fields.specs.Grammar.{StructuredDataText, Element};
    ghost use Rattle.syslog_reading.specs.PartsLeft.{elements_left};
    ghost use Rattle.syslog_reading.specs.ViewParts.{HasBom, octets_of, view_parts};

    /// Facility and severity (PRI, RFC 5424, section 6.2.1).
    pub fn priority(&self) -> Priority
        ensures { result ≡ (view_parts self.now).priority }
    {
        Priority::from_value(self.priority).unwrap()
    }

    /// The instant that TIMESTAMP names (6.2.3); None for NILVALUE.
    pub fn instant(&self) -> Option<Instant>
        ensures { result ≡ (view_parts self.now).instant }
    {
        match self.micros {
            None => None,
            Some(micros) => Instant::from_micros(micros),
        }
    }

    /// HOSTNAME (6.2.4); None for NILVALUE.
    pub fn hostname(&self) -> Option<&'a [u8]>
        ensures { option_map (λ s. s.now) result ≡ (view_parts self.now).hostname }
    {
        self.hostname
    }

    /// APP-NAME (6.2.5); None for NILVALUE.
    pub fn app_name(&self) -> Option<&'a [u8]>
        ensures { option_map (λ s. s.now) result ≡ (view_parts self.now).app_name }
    {
        self.app_name
    }

    /// PROCID (6.2.6); None for NILVALUE.
    pub fn proc_id(&self) -> Option<&'a [u8]>
        ensures { option_map (λ s. s.now) result ≡ (view_parts self.now).proc_id }
    {
        self.proc_id
    }

    /// MSGID (6.2.7); None for NILVALUE.
    pub fn msg_id(&self) -> Option<&'a [u8]>
        ensures { option_map (λ s. s.now) result ≡ (view_parts self.now).msg_id }
    {
        self.msg_id
    }

    /// The elements of the structured data (6.3), in the order of the octets.
    pub fn elements(&self) -> Elements<'a>
        ensures elements { (es : List ElementParts) → StructuredDataText es (view_parts self.now).elements
            → Each Element es (elements_left result) }
        ensures octets { (text : List ℕ) → (view_parts self.now).elements ≡ 91 ∷ text
            → elements_left result ≡ 91 ∷ text }
    {
        Elements::of_data(self.structured_data)
    }

    /// The octets of the message (6.4), without the BOM.
    pub fn message(&self) -> &'a [u8]
        ensures { result.now ≡ octets_of (view_parts self.now).message }
    {
        self.message
    }

    /// Whether the message starts with the BOM, and so is a text in UTF-8.
    pub fn has_mark(&self) -> bool
        ensures { IsTrue result ↔ HasBom (view_parts self.now).message }
    {
        self.has_mark
    }

    /// The message, and whether it starts with the BOM.
    pub fn message_view(&self) -> MessageView<'a>
        ensures { message_parts result ≡ (view_parts self.now).message }
    {
        MessageView {
            octets: self.message,
            has_mark: self.has_mark,
        }
    }
}
