//! A legacy packet's record as it lies in its octets.

ghost use Rattle.syslog_value.specs.Parts.{IsRecord};
ghost use Rattle.syslog_reading.specs.Views.{message_parts};
ghost use Rattle.syslog_legacy.specs.FrontViews.{front_parts};
ghost use Rattle.syslog_legacy.specs.Readings.{legacy_parts};

use crate::front::Front;
use syslog_grammar::fields::MessageView;
use syslog_value::{Instant, Priority};

/// A legacy packet's record that lends its parts from the octets. It takes no memory.
#[derive(Clone, Copy, Debug, PartialEq, Eq)]
pub struct LegacyView<'a> {
    pub(crate) front: Front<'a>,
    pub(crate) message: MessageView<'a>,
    pub ghost valid: { ∥ IsRecord (legacy_parts (front_parts front) (message_parts message)) ∥₁ },
}

impl<'a> LegacyView<'a> {
    ghost use Rattle.std.specs.Prelude.{◌≡◌, ◌↔◌, IsTrue, option_map};
    ghost use Rattle.syslog_reading.specs.ViewParts.{HasBom, octets_of};
    ghost use Rattle.syslog_legacy.specs.Views.{legacy_view_parts};

    /// Facility and severity: those of PRI, or user.notice without one (RFC 3164, section 4.3.3).
    pub fn priority(&self) -> Priority
        ensures { result ≡ (legacy_view_parts self.now).priority }
    {
        self.front.priority
    }

    /// The instant of the timestamp in the clock's year, if the packet has one.
    pub fn instant(&self) -> Option<Instant>
        ensures { result ≡ (legacy_view_parts self.now).time }
    {
        self.front.instant
    }

    /// The host, if the packet has one.
    pub fn hostname(&self) -> Option<&'a [u8]>
        ensures { option_map (λ s. s.now) result ≡ (legacy_view_parts self.now).hostname }
    {
        self.front.hostname
    }

    /// The name of the program in the tag, if the packet has one.
    pub fn app_name(&self) -> Option<&'a [u8]>
        ensures { option_map (λ s. s.now) result ≡ (legacy_view_parts self.now).app_name }
    {
        self.front.app_name
    }

    /// The process id in the tag, if the packet has one.
    pub fn proc_id(&self) -> Option<&'a [u8]>
        ensures { option_map (λ s. s.now) result ≡ (legacy_view_parts self.now).proc_id }
    {
        self.front.proc_id
    }

    /// The octets of the message, without the BOM.
    pub fn message(&self) -> &'a [u8]
        ensures { result.now ≡ octets_of (legacy_view_parts self.now).message }
    {
        self.message.octets
    }

    /// Whether the message starts with the BOM, and so is a text in UTF-8.
    pub fn has_mark(&self) -> bool
        ensures { IsTrue result ↔ HasBom (legacy_view_parts self.now).message }
    {
        self.message.has_mark
    }
}
