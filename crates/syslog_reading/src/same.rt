//! Whether the spelling of a value means a text (RFC 5424, 6.3.3).

ghost use Rattle.std.specs.Prelude.{◌≡◌, ◌≢◌, ◌++◌, ◌↔◌, ℕ, List, IsTrue, MatchOption};
ghost use Rattle.syslog_fields.specs.Values.{Spells};

use syslog_fields::reading::next;
use syslog_fields::value::piece;

/// What follows a prefix, if the octets start with it.
fn behind_prefix<'a>(prefix: &[u8], octets: &'a [u8]) -> Option<&'a [u8]>
    ensures { MatchOption result ((t : List ℕ) → octets.now ≢ prefix.now ++ t)
        (λ x. octets.now ≡ prefix.now ++ x.now) }
{
    if prefix.len() > octets.len() {
        return None;
    }
    let (start, rest) = octets.split_at(prefix.len());
    if start == prefix { Some(rest) } else { None }
}

/// Whether the value of a parameter, as it is spelled, means the text.
///
/// A backslash before a quotation mark, a backslash or a closing bracket is left out; any other
/// backslash counts. Octets that are no spelling of a value mean no text. It takes no memory.
pub fn same_value(raw: &[u8], text: &str) -> bool
    ensures { IsTrue result ↔ Spells text.now raw.now }
{
    let mut spelling = raw;
    let mut meaning = text.as_bytes();
    while let Some((_first, _after)) = next(spelling) {
        let Ok((prefix, behind)) = piece(spelling) else {
            return false;
        };
        let Some(rest) = behind_prefix(prefix, meaning) else {
            return false;
        };
        spelling = behind;
        meaning = rest;
    }
    meaning.is_empty()
}
