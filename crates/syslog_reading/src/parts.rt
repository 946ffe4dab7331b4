//! The elements and the parameters of a view, in the order of the octets.

use crate::element::{ElementView, ParamView, element, param};

/// The elements of the structured data that are still to come.
#[derive(Clone, Copy, Debug, PartialEq, Eq)]
pub struct Elements<'a> {
    rest: &'a [u8],
}

/// The parameters of an element that are still to come.
#[derive(Clone, Copy, Debug, PartialEq, Eq)]
pub struct Params<'a> {
    rest: &'a [u8],
}

impl<'a> Elements<'a> {
    ghost use Rattle.std.specs.Prelude.{◌≡◌, ◌∷◌, ℕ, List};
    ghost use Rattle.octet_language.specs.Language.{Each};
    ghost use Rattle.syslog_value.specs.Parts.{ElementParts};
    ghost use Rattle.syslog_fields.specs.Grammar.{StructuredDataText, Element};
    ghost use Rattle.syslog_reading.specs.PartsLeft.{elements_left};

    /// The elements that octets of structured data spell.
    pub(crate) fn of_data(structured_data: &'a [u8]) -> Elements<'a>
        ensures elements { (es : List ElementParts) → StructuredDataText es structured_data.now
            → Each Element es (elements_left result) }
        ensures octets { (text : List ℕ) → structured_data.now ≡ 91 ∷ text
            → elements_left result ≡ 91 ∷ text }
    {
        match structured_data {
            [b'[', ..] => Elements {
                rest: structured_data,
            },
            _ => Elements {
                rest: structured_data.split_at(0).0,
            },
        }
    }
}

impl<'a> ElementView<'a> {
    ghost use Rattle.std.specs.Prelude.{◌≡◌};
    ghost use Rattle.syslog_reading.specs.PartsLeft.{params_left};
    ghost use Rattle.syslog_reading.specs.Views.{element_span};

    /// The parameters, in the order of the octets.
    pub fn params(&self) -> Params<'a>
        ensures { params_left result ≡ (element_span self.now).params }
    {
        Params { rest: self.params }
    }
}

impl<'a> Iterator for Elements<'a> {
    ghost use Rattle.std.specs.Prelude.{length};
    ghost use Rattle.std.specs.Iterator.{at_most};
    ghost use Rattle.syslog_reading.specs.PartsLeft.{GivesElement, elements_left};

    type Item = ElementView<'a>;

    ghost next_gives = { GivesElement };

    ghost remaining = { λ s. at_most (length (elements_left s)) };

    fn next(&mut self) -> Option<ElementView<'a>> {
        let Ok((found, rest, _)) = element(self.rest) else {
            return None;
        };
        self.rest = rest;
        Some(found)
    }
}

impl<'a> Iterator for Params<'a> {
    ghost use Rattle.std.specs.Prelude.{length};
    ghost use Rattle.std.specs.Iterator.{at_most};
    ghost use Rattle.syslog_reading.specs.PartsLeft.{GivesParam, params_left};

    type Item = ParamView<'a>;

    ghost next_gives = { GivesParam };

    ghost remaining = { λ s. at_most (length (params_left s)) };

    fn next(&mut self) -> Option<ParamView<'a>> {
        let Ok((found, rest, _)) = param(self.rest) else {
            return None;
        };
        self.rest = rest;
        Some(found)
    }
}
