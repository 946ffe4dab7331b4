//! Elements of the structured data (RFC 5424, 6.3.1 to 6.3.3).

ghost use Rattle.std.specs.Prelude.{◌≡◌, ◌∷◌, [], IfOk};
ghost use Rattle.octet_language.specs.Language.{◌⋅◌, AnyOf, Each, Only};
ghost use Rattle.octet_language.specs.Reading.{Passes, Reads};
ghost use Rattle.syslog_fields.specs.Canonical.{param_form};
ghost use Rattle.syslog_fields.specs.Forms.{HasForm, IsValueForm, ReadsElement, ReadsForm};
ghost use Rattle.syslog_fields.specs.Forms.{params_form};
ghost use Rattle.syslog_fields.specs.Grammar.{Param};
ghost use Rattle.syslog_fields.specs.Spans.{SpannedElement, SpannedParam, SpannedValue, Text};
ghost use Rattle.syslog_fields.specs.Stops.{remaining_of};
ghost use Rattle.syslog_reading.specs.Views.{element_span, param_span};

use syslog_fields::name::name;
use syslog_fields::reading::{Stop, both, expect, next};
use syslog_fields::value::value;

/// SD-PARAM: a parameter of an element, as it lies in the octets.
#[derive(Clone, Copy, Debug, PartialEq, Eq)]
pub struct ParamView<'a> {
    pub(crate) name: &'a [u8],
    pub(crate) raw: &'a [u8],
}

/// SD-ELEMENT: an element of the structured data, as it lies in the octets.
#[derive(Clone, Copy, Debug, PartialEq, Eq)]
pub struct ElementView<'a> {
    pub(crate) id: &'a [u8],
    pub(crate) params: &'a [u8],
}

impl<'a> ParamView<'a> {
    /// PARAM-NAME.
    pub fn name(&self) -> &'a [u8]
        ensures { result.now ≡ (param_span self.now).name }
    {
        self.name
    }

    /// PARAM-VALUE as it is spelled between the quotation marks, escapes included.
    pub fn raw(&self) -> &'a [u8]
        ensures { result.now ≡ (param_span self.now).raw }
    {
        self.raw
    }
}

impl<'a> ElementView<'a> {
    /// The octets of the parameters.
    pub(crate) fn params_text(&self) -> &'a [u8]
        ensures { result.now ≡ (element_span self.now).params }
    {
        self.params
    }

    /// SD-ID.
    pub fn id(&self) -> &'a [u8]
        ensures { result.now ≡ (element_span self.now).id }
    {
        self.id
    }
}

/// Reads `="`, a value and the quotation mark that ends it.
#[inline(always)]
fn assigned(octets: &[u8]) -> Result<(&[u8], &[u8], bool), Stop>
    ensures reads { Reads remaining_of SpannedValue (λ x. (x.0.now, x.1.now)) octets.now result }
    ensures form { IfOk result (λ x. IsValueForm x.2 x.0.now) }
{
    let rest = expect(b'=', octets)?;
    let rest = expect(b'"', rest)?;
    value(rest)
}

/// Reads a space and a parameter, and tells whether its value is spelled as in a canonical record.
/// The [`Stop`] is at the first octet with which these cannot go on.
#[inline]
pub fn param(octets: &[u8]) -> Result<(ParamView<'_>, &[u8], bool), Stop>
    ensures reads { Reads remaining_of SpannedParam (λ x. (param_span x.0, x.1.now))
        octets.now result }
    ensures form { IfOk result (λ x. ReadsForm Param param_form x.2 octets.now x.1.now) }
{
    let rest = expect(b' ', octets)?;
    let (name, rest) = name(rest)?;
    let (raw, rest, is_form) = assigned(rest)?;
    Ok((ParamView { name, raw }, rest, is_form))
}

/// Reads the parameters of an element and the bracket that ends it, and tells whether the
/// parameters are canonical.
fn behind_params(octets: &[u8]) -> Result<(&[u8], bool), Stop>
    ensures reads { Passes remaining_of (AnyOf (Each Param) ⋅ Only (93 ∷ [])) (λ x. x.0.now)
        octets.now result }
    ensures form { IfOk result (λ x.
        ReadsForm (Each Param) params_form x.1 octets.now (93 ∷ x.0.now)) }
{
    let mut is_form = true;
    let mut rest = octets;
    while let Some((first, after)) = next(rest) {
        if first == b']' {
            return Ok((after, is_form));
        }
        let (_param, behind, param_is_form) = param(rest)?;
        is_form = both(is_form, param_is_form);
        rest = behind;
    }
    Err(Stop {
        remaining: rest.len(),
    })
}

/// Reads the parameters of an element and the bracket that ends it. It gives their octets, and
/// tells whether they are canonical.
#[inline]
fn params(octets: &[u8]) -> Result<(&[u8], &[u8], bool), Stop>
    ensures reads { Reads remaining_of (λ text. Text (AnyOf (Each Param)) text ⋅ Only (93 ∷ []))
        (λ x. (x.0.now, x.1.now)) octets.now result }
    ensures form { IfOk result (λ x. HasForm (Each Param) params_form x.2 x.0.now) }
{
    let (rest, is_form) = behind_params(octets)?;
    let (text, _) = octets.split_at(octets.len() - rest.len() - 1);
    Ok((text, rest, is_form))
}

/// Reads an element, and tells whether it is canonical. The [`Stop`] is at the first octet with
/// which it cannot go on.
pub fn element(octets: &[u8]) -> Result<(ElementView<'_>, &[u8], bool), Stop>
    ensures reads { Reads remaining_of SpannedElement (λ x. (element_span x.0, x.1.now))
        octets.now result }
    ensures form { IfOk result (λ x.
        ReadsElement x.2 (element_span x.0).id octets.now x.1.now) }
{
    let rest = expect(b'[', octets)?;
    let (id, rest) = name(rest)?;
    let (params, rest, is_form) = params(rest)?;
    Ok((ElementView { id, params }, rest, is_form))
}
