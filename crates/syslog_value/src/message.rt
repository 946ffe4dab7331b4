//! What an event has to say (RFC 5424, section 6.4).
ghost use Rattle.std.specs.Prelude.{◌≡◌, ◌≢◌, ◌↔◌, [], take, IsTrue, IfOk, IfErr, string_bytes};
ghost use Rattle.syslog_value.specs.Parts.{AnyOctets, Utf8Text, IsMessage, bom};
ghost use Rattle.syslog_value.specs.Messages.{message_octets, HasMark};

use std::alloc::{AllocError, Global};
use std::marker::Model;

// the BOM in UTF-8
const MARK: &[u8] = b"\xef\xbb\xbf";

#[derive(Debug, Drop)]
enum Body {
    Any(Vec<u8>),
    Utf8(String),
}

/// A message: any octets that do not start with the BOM, or a text that follows the BOM.
#[derive(Debug, Drop)]
pub struct Message {
    body: Body,
}

impl Model for Message {
    ghost use Rattle.syslog_value.specs.Parts.{MessageParts, IsMessage};

    ghost Value = { MessageParts };

    ghost use Rattle.syslog_value.specs.Messages.{message_of};

    ghost view = { λ m. message_of m.body };

    ghost invariant = { λ m. IsMessage (message_of m.body) };
}

impl Message {
    /// The message of no octets, as in a record without MSG.
    pub fn empty(alloc: Global) -> Message
        ensures { result ≡ AnyOctets [] }
    {
        Message {
            body: Body::Any(Vec::new(alloc)),
        }
    }

    /// The message of these octets. Octets that start with the BOM are refused and come back.
    pub fn any(octets: Vec<u8>) -> Result<Message, Vec<u8>>
        ensures ok { IfOk result (λ message.
            (take 3 octets.items ≢ bom) × (message ≡ AnyOctets octets.items)) }
        ensures err { IfErr result (λ back. (take 3 octets.items ≡ bom) × (back ≡ octets)) }
    {
        if octets.as_slice().starts_with(MARK) {
            return Err(octets);
        }
        Ok(Message {
            body: Body::Any(octets),
        })
    }

    /// The message of this text, with the BOM before it.
    pub fn utf8(text: String) -> Message
        ensures { result ≡ Utf8Text (string_bytes text) }
    {
        Message {
            body: Body::Utf8(text),
        }
    }

    /// The octets, without the BOM if there is one.
    pub fn octets(&self) -> &[u8]
        ensures value { result.now ≡ message_octets self.now }
        ensures valid { IsMessage self.now }
    {
        match &self.body {
            Body::Any(octets) => octets.as_slice(),
            Body::Utf8(text) => text.as_bytes(),
        }
    }

    /// Whether the message is a text that follows the BOM.
    pub fn has_mark(&self) -> bool
        ensures { IsTrue result ↔ HasMark self.now }
    {
        match &self.body {
            Body::Any(_) => false,
            Body::Utf8(_) => true,
        }
    }

    /// A copy in memory of its own. It fails only when out of memory.
    pub fn copy(&self, alloc: Global) -> Result<Message, AllocError>
        ensures { IfOk result (λ message. message ≡ self.now) }
    {
        let body = match &self.body {
            Body::Any(octets) => Body::Any(octets.as_slice().to_vec(alloc)?),
            Body::Utf8(text) => Body::Utf8(String::from_str(alloc, text.as_str())?),
        };
        Ok(Message { body })
    }
}

impl PartialEq for Message {
    ghost use Rattle.std.specs.Prelude.{◌≡◌, ◌↔◌, IsTrue};
    ghost use Rattle.std.specs.Cmp.{decided, partial_equiv_from_equiv};
    ghost use Rattle.syslog_value.specs.EqualityLaws.{message_decides};
    ghost use Rattle.syslog_value.specs.Equality.{message_eq};

    ghost eq = { message_eq };

    ghost laws = { partial_equiv_from_equiv (decided message_eq message_decides) };

    #[tactic(auto, unfolding(crate::specs::Equality::message_eq))]
    fn eq(&self, other: &Message) -> bool
        ensures value { result ≡ message_eq self.now other.now }
        ensures same { IsTrue result ↔ (self.now ≡ other.now) }
    {
        self.has_mark() == other.has_mark() && self.octets() == other.octets()
    }
}

impl Eq for Message {
    ghost use Rattle.std.specs.Cmp.{decided};
    ghost use Rattle.syslog_value.specs.EqualityLaws.{message_decides};
    ghost use Rattle.syslog_value.specs.Equality.{message_eq};

    ghost laws = { decided message_eq message_decides };
}
