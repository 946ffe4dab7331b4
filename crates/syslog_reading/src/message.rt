//! The message, which follows the structured data (RFC 5424, 6.4).

ghost use Rattle.std.specs.Prelude.{◌≡◌, ◌≢◌, ◌++◌, MatchOption, MatchResult, take};
ghost use Rattle.octet_language.specs.Language.{AnyOf};
ghost use Rattle.octet_language.specs.Reading.{Misses};
ghost use Rattle.syslog_value.specs.Parts.{bom};
ghost use Rattle.syslog_fields.specs.Grammar.{Message, MessagePart};
ghost use Rattle.syslog_reading.specs.Views.{message_parts};

use syslog_fields::reading::{Stop, expect};
use syslog_fields::text::text;

/// A message as it lies in the octets, without the BOM.
#[derive(Clone, Copy, Debug, PartialEq, Eq)]
pub struct MessageView<'a> {
    /// The octets of MSG, without the BOM.
    pub octets: &'a [u8],
    /// Whether the BOM comes before them (MSG-UTF8); they are UTF-8 then.
    pub has_mark: bool,
}

/// What follows the BOM, if the octets start with it.
#[inline(always)]
fn after_bom(octets: &[u8]) -> Option<&[u8]>
    ensures { MatchOption result (take 3 octets.now ≢ bom)
        (λ x. octets.now ≡ bom ++ x.now) }
{
    match octets {
        [0xef, 0xbb, 0xbf, text @ ..] => Some(text),
        _ => None,
    }
}

/// Reads a message up to the end.
#[inline(always)]
fn message(octets: &[u8]) -> Result<MessageView<'_>, Stop>
    ensures { MatchResult result (λ m. Message (message_parts m) octets.now)
        (λ e. Misses (AnyOf Message) octets.now e.remaining) }
{
    let Some(behind) = after_bom(octets) else {
        return Ok(MessageView {
            octets,
            has_mark: false,
        });
    };
    match text(behind) {
        Ok(_text) => Ok(MessageView {
            octets: behind,
            has_mark: true,
        }),
        Err(stop) => Err(stop),
    }
}

/// Reads nothing, or a space and a message, up to the end. The [`Stop`] is at the first octet with
/// which these cannot go on.
#[inline(always)]
pub fn message_part(octets: &[u8]) -> Result<MessageView<'_>, Stop>
    ensures { MatchResult result (λ m. MessagePart (message_parts m) octets.now)
        (λ e. Misses (AnyOf MessagePart) octets.now e.remaining) }
{
    if octets.is_empty() {
        return Ok(MessageView {
            octets,
            has_mark: false,
        });
    }
    match expect(b' ', octets) {
        Ok(rest) => message(rest),
        Err(stop) => Err(stop),
    }
}
