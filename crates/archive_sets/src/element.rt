//! Records that have an element with some id.

ghost use Rattle.std.specs.Prelude.{◌↔◌, List, IsTrue};
ghost use Rattle.octet_language.specs.Language.{Each};
ghost use Rattle.syslog_value.specs.Parts.{ElementParts};
ghost use Rattle.syslog_fields.specs.Grammar.{Element};
ghost use Rattle.syslog_reading.specs.PartsLeft.{elements_left};
ghost use Rattle.archive_sets.specs.Fields.{HasId, HasElementId, IsOfRecord};

use crate::condition::Condition;
use archive_text::EntryView;
use syslog_grammar::{Elements, view};

/// Records that have an element with this id.
#[derive(Clone, Copy, Debug, PartialEq, Eq)]
pub struct HasElement<'a> {
    /// The id (SD-ID, RFC 5424, section 6.3.2).
    pub id: &'a [u8],
}

/// Whether one of the elements has this id.
pub fn has_id(elements: Elements<'_>, id: &[u8]) -> bool
    ensures { (es : List ElementParts) → Each Element es (elements_left elements.entry)
        → (IsTrue result ↔ HasId es id.now) }
{
    let mut rest = elements;
    'elements: while let Some(element) = rest.next() {
        if element.id() == id {
            return true;
        }
    }
    false
}

impl<'a> Condition for HasElement<'a> {
    ghost meets = { λ c e. IsOfRecord (HasElementId c.id.now) e.octets };

    fn holds(&self, entry: &EntryView<'_>) -> bool {
        match view(entry.octets) {
            Ok(shown) => has_id(shown.elements(), self.id),
            Err(_) => false,
        }
    }
}
