//! Elements of the structured data by their number (RFC 5424, 6.3.1).

ghost use Rattle.std.specs.Prelude.{◌≡◌, ◌⊎◌, ℕ, List, MatchResult, pos};
ghost use Rattle.octet_language.specs.Language.{AnyOf};
ghost use Rattle.octet_language.specs.Reading.{Follows};
ghost use Rattle.syslog_value.specs.Parts.{ElementParts};
ghost use Rattle.syslog_fields.specs.Grammar.{Element};
ghost use Rattle.syslog_fields.specs.Spans.{SpannedElement};
ghost use Rattle.c_library.specs.Items.{HasNoElement, IsElementNumber, IsFound, IsSplit};

use crate::fault::SyslogboxFault;
use crate::layout::layout_of;
use crate::numbers::NO_ELEMENT;
use crate::span::SyslogboxSpan;
use crate::walk::{count_params, elements_text, from_element};
use archive_text::ENTRY_MAX;
use syslog_grammar::view;
use syslog_reading::first_element::first_element;

/// An element, as it lies in a record (RFC 5424, 6.3.1).
#[repr(C)]
#[derive(Clone, Copy)]
pub struct SyslogboxElement {
    /// Its id (SD-ID, 6.3.2).
    pub id: SyslogboxSpan,
    /// How many parameters it has.
    pub params: usize,
}

/// An element of a record, and the offsets of its parts.
#[derive(Clone, Copy)]
pub struct FoundElement<'a> {
    /// Its id.
    pub id: &'a [u8],
    /// The offset of its id in the record.
    pub id_at: usize,
    /// The octets of its parameters.
    pub params: &'a [u8],
    /// The offset of these octets in the record.
    pub params_at: usize,
}

/// The id of the element that comes first, the octets of its parameters, and what follows it.
pub fn next_element(text: &[u8]) -> (&[u8], &[u8], &[u8])
    requires { (after : List ℕ) × Follows (AnyOf Element) text.now after }
    ensures { Follows (SpannedElement (record { id = result.0.now; params = result.1.now }))
        text.now result.2.now }
{
    let (element, behind) = first_element(text);
    let id = element.id();
    let (_, from_params) = text.split_at(1 + id.len());
    let (params, _) = from_params.split_at(from_params.len() - behind.len() - 1);
    (id, params, behind)
}

/// The id of the element that comes first, and the octets of its parameters.
fn split_element(text: &[u8]) -> (&[u8], &[u8])
    requires { (after : List ℕ) × Follows (AnyOf Element) text.now after }
    ensures { (e : ElementParts) (after : List ℕ) → Follows (Element e) text.now after
        → IsSplit e text.now result.0.now result.1.now }
{
    let (id, params, _behind) = next_element(text);
    (id, params)
}

/// Finds element number `n`, from 0, of the record that the octets are. It fails with their fault,
/// if they are too many, or if there are no more than `n` elements.
pub fn find_element(octets: &[u8], n: usize) -> Result<FoundElement<'_>, SyslogboxFault>
    ensures { MatchResult result (IsFound octets.now n) (HasNoElement octets.now n) }
{
    if octets.len() > ENTRY_MAX {
        return Err(SyslogboxFault::too_long());
    }
    let shown = match view(octets) {
        Ok(shown) => shown,
        Err(fault) => return Err(SyslogboxFault::of_record(fault)),
    };
    let text = elements_text(shown.structured_data);
    let rest = match from_element(text, n) {
        Ok(rest) => rest,
        Err(count) => return Err(SyslogboxFault::new(NO_ELEMENT, count as u64)),
    };
    let (id, params) = split_element(rest);
    let id_at = layout_of(octets, &shown).structured_data + (text.len() - rest.len()) + 1;
    Ok(FoundElement {
        id,
        id_at,
        params,
        params_at: id_at + id.len(),
    })
}

/// Shows element number `n`, from 0, in the order of the octets, and returns 1; or 0 and why there
/// is none, with the element left as it was. It takes no memory.
#[unsafe(no_mangle)]
pub extern "C" fn syslogbox_proved_element(
    octets: &[u8],
    n: usize,
    element: &mut SyslogboxElement,
    fault: &mut SyslogboxFault,
) -> i32
    ensures answer { (result ≡ pos 1) ⊎ (result ≡ pos 0) }
    ensures element { result ≡ pos 1 → IsElementNumber octets.now n element.new }
    ensures same { result ≡ pos 1 → fault.new ≡ fault.old }
    ensures fault { result ≡ pos 0 → HasNoElement octets.now n fault.new }
    ensures left { result ≡ pos 0 → element.new ≡ element.old }
{
    match find_element(octets, n) {
        Ok(found) => {
            *element = SyslogboxElement {
                id: SyslogboxSpan {
                    offset: found.id_at,
                    len: found.id.len(),
                },
                params: count_params(found.params),
            };
            1
        }
        Err(cause) => {
            *fault = cause;
            0
        }
    }
}
