//! The record that a view shows, with memory of its own.

ghost use Rattle.std.specs.Prelude.{◌≡◌, ℕ, List, IfErr, IfOk, IfSome, IsSomeAnd, MatchOption};
ghost use Rattle.std.specs.Prelude.{option_map, string_bytes};
ghost use Rattle.octet_language.specs.Language.{AnyOf, Each};
ghost use Rattle.syslog_value.specs.Parts.{ElementParts, IsMessage, IsName, IsWord, ParamParts};
ghost use Rattle.syslog_value.specs.Words.{IsWordFault};
ghost use Rattle.syslog_fields.specs.Grammar.{StructuredDataText, Param as ParamText};
ghost use Rattle.syslog_reading.specs.ViewParts.{IsViewOf, view_parts};
ghost use Rattle.syslog_fields.specs.Values.{Spells};
ghost use Rattle.syslog_reading.specs.Views.{element_span, message_parts, param_span};
ghost use Rattle.syslog_reading.specs.WellFormed.{WellFormed};

use crate::element::{ElementView, ParamView};
use crate::first_element::{first_element, first_param};
use crate::message::MessageView;
use crate::record_view::RecordView;
use std::alloc::{AllocError, Global};
use syslog_fields::reading::next;
use syslog_fields::unescape::unescape;
use syslog_value::{Element, Message, Param, Record, SdName, StructuredData, Word, WordFault};

/// The word of these octets, if there are any. The refusals are those of [`Word::new`].
pub fn to_word<const N: usize>(
    alloc: Global,
    octets: Option<&[u8]>,
) -> Result<Option<Word<N>>, WordFault>
    ensures ok { IfOk result (λ word. word ≡ option_map (λ s. s.now) octets.entry) }
    ensures err { IfErr result (λ fault.
        IsSomeAnd (option_map (λ s. s.now) octets.entry) (λ s. IsWordFault N s fault)) }
{
    let Some(octets) = octets else {
        return Ok(None);
    };
    match Word::new(alloc, octets) {
        Ok(word) => Ok(Some(word)),
        Err(fault) => Err(fault),
    }
}

/// The word of octets that are known to be one, if there are any.
pub fn known_word<const N: usize>(
    alloc: Global,
    octets: Option<&[u8]>,
) -> Result<Option<Word<N>>, AllocError>
    requires { IfSome (option_map (λ s. s.now) octets) (IsWord N) }
    ensures { IfOk result (λ word. word ≡ option_map (λ s. s.now) octets.entry) }
{
    match to_word(alloc, octets) {
        Ok(word) => Ok(word),
        Err(WordFault::Memory) => Err(AllocError),
        Err(_) => unreachable!(),
    }
}

/// The name of octets that are known to be one.
fn to_name(alloc: Global, octets: &[u8]) -> Result<SdName, AllocError>
    requires { IsName octets.now }
    ensures { IfOk result (λ name. name ≡ octets.now) }
{
    match SdName::new(alloc, octets) {
        Ok(name) => Ok(name),
        Err(WordFault::Memory) => Err(AllocError),
        Err(_) => unreachable!(),
    }
}

/// The text that a value means, from its spelling.
fn to_text(alloc: Global, raw: &[u8]) -> Result<String, AllocError>
    requires { ∥ AnyOf Spells raw.now ∥₁ }
    ensures { IfOk result (λ value. (text : List ℕ) → Spells text raw.now
        → string_bytes value ≡ text) }
{
    match String::from_utf8(unescape(alloc, raw)?) {
        Ok(text) => Ok(text),
        Err(_) => unreachable!(),
    }
}

/// The parameter of a name and a spelling.
fn to_param(alloc: Global, view: &ParamView<'_>) -> Result<Param, AllocError>
    requires name { IsName (param_span view.now).name }
    requires value { ∥ AnyOf Spells (param_span view.now).raw ∥₁ }
    ensures { IfOk result (λ param. (text : List ℕ) → Spells text (param_span view.now).raw
        → param ≡ record { name = (param_span view.now).name; value = text }) }
{
    let name = to_name(alloc, view.name())?;
    let value = to_text(alloc, view.raw())?;
    Ok(Param::new(name, value))
}

/// The parameters that octets spell.
fn to_params(alloc: Global, octets: &[u8]) -> Result<Vec<Param>, AllocError>
    requires { ∥ AnyOf (Each ParamText) octets.now ∥₁ }
    ensures { IfOk result (λ params. (ps : List ParamParts) → Each ParamText ps octets.now
        → params.items ≡ ps) }
{
    let mut params = Vec::new(alloc);
    let mut rest = octets;
    while let Some((_first, _after)) = next(rest) {
        let (found, behind) = first_param(rest);
        params.push(to_param(alloc, &found)?)?;
        rest = behind;
    }
    Ok(params)
}

/// The element of an id and the octets of its parameters.
fn to_element(alloc: Global, view: &ElementView<'_>) -> Result<Element, AllocError>
    requires id { IsName (element_span view.now).id }
    requires params { ∥ AnyOf (Each ParamText) (element_span view.now).params ∥₁ }
    ensures { IfOk result (λ element. (ps : List ParamParts)
        → Each ParamText ps (element_span view.now).params
        → element ≡ record { id = (element_span view.now).id; params = ps }) }
{
    let id = to_name(alloc, view.id())?;
    let params = to_params(alloc, view.params_text())?;
    Ok(Element::new(id, params))
}

/// The elements that octets of structured data spell, in their order.
fn to_elements(alloc: Global, octets: &[u8]) -> Result<Vec<Element>, AllocError>
    requires { ∥ AnyOf StructuredDataText octets.now ∥₁ }
    ensures { IfOk result (λ elements. (es : List ElementParts) → StructuredDataText es octets.now
        → elements.items ≡ es) }
{
    let mut elements = Vec::new(alloc);
    let mut rest = octets;
    while let Some((first, _after)) = next(rest) {
        if first != b'[' {
            return Ok(elements);
        }
        let (found, behind) = first_element(rest);
        elements.push(to_element(alloc, &found)?)?;
        rest = behind;
    }
    Ok(elements)
}

/// The message of a text after the BOM, or of any octets. None if the text is not UTF-8, or the
/// octets start with the BOM. It fails only when out of memory.
pub fn to_message(alloc: Global, view: &MessageView<'_>) -> Result<Option<Message>, AllocError>
    ensures { IfOk result (λ found. MatchOption found (¬ IsMessage (message_parts view.now))
        (λ message. message ≡ message_parts view.now)) }
{
    if !view.has_mark {
        return Ok(Message::any(view.octets.to_vec(alloc)?).ok());
    }
    match simdutf8::basic::from_utf8(view.octets) {
        Ok(text) => Ok(Some(Message::utf8(String::from_str(alloc, text)?))),
        Err(_) => Ok(None),
    }
}

impl<'a> RecordView<'a> {
    /// The record that the octets spell, with memory of its own. Its elements are sorted by id.
    ///
    /// It fails only when out of memory.
    pub fn to_record(&self, alloc: Global) -> Result<Record, AllocError>
        ensures { IfOk result (λ r. (b : List ℕ) → IsViewOf b (view_parts self.now)
            → WellFormed r b) }
    {
        let hostname = known_word(alloc, self.hostname)?;
        let app_name = known_word(alloc, self.app_name)?;
        let proc_id = known_word(alloc, self.proc_id)?;
        let msg_id = known_word(alloc, self.msg_id)?;
        let elements = to_elements(alloc, self.structured_data)?;
        let Some(structured) = StructuredData::from_elements(elements) else {
            unreachable!();
        };
        let Some(message) = to_message(alloc, &self.message_view())? else {
            unreachable!();
        };
        Ok(Record::new(
            self.priority(),
            self.instant(),
            hostname,
            app_name,
            proc_id,
            msg_id,
            structured,
            message,
        ))
    }
}
