//! The reading of a legacy packet from all of its octets.

ghost use Rattle.std.specs.Prelude.{MatchResult};
ghost use Rattle.syslog_legacy.specs.Messages.{MessageStops};
ghost use Rattle.syslog_legacy.specs.Readings.{Legacy, NotUtf8At, ReadAs};
ghost use Rattle.syslog_legacy.specs.Views.{legacy_view_parts};
ghost use Rattle.syslog_fields.specs.Grammar.{Message};
ghost use Rattle.syslog_reading.specs.Views.{message_parts};

use crate::clock::LegacyClock;
use crate::fault::MessageNotUtf8;
use crate::front::split;
use crate::view::LegacyView;
use syslog_grammar::fields::MessageView;
use syslog_grammar::utf8;

/// Reads a message up to the end: a text if it starts with the BOM, else any octets. If it starts
/// with the BOM and is no text, the answer is how many octets come before the first that cannot
/// continue it.
fn message(octets: &[u8]) -> Result<MessageView<'_>, usize>
    ensures { MatchResult result (λ m. Message (message_parts m) octets.now)
        (MessageStops octets.now) }
{
    let [0xef, 0xbb, 0xbf, behind @ ..] = octets else {
        return Ok(MessageView {
            octets,
            has_mark: false,
        });
    };
    match utf8(behind) {
        Ok(_text) => Ok(MessageView {
            octets: behind,
            has_mark: true,
        }),
        Err(at) => Err(3 + at),
    }
}

/// Reads a legacy packet from all of its octets (RFC 3164, section 4).
///
/// Ask [has_new_form](crate::has_new_form) first: what has the form of RFC 5424 is read as that
/// standard alone says. Every other packet is a record, unless its message starts with the byte
/// order mark and is not UTF-8. It takes no memory.
pub fn legacy_view<'a>(
    clock: &LegacyClock,
    octets: &'a [u8],
) -> Result<LegacyView<'a>, MessageNotUtf8>
    ensures { MatchResult result
        (λ view. Legacy clock.now (ReadAs (legacy_view_parts view)) octets.now)
        (λ fault. Legacy clock.now (NotUtf8At fault.offset) octets.now) }
{
    let (front, text) = split(clock, octets);
    match message(text) {
        Ok(message) => Ok(LegacyView { front, message }),
        Err(at) => Err(MessageNotUtf8 {
            offset: octets.len() - text.len() + at,
        }),
    }
}
