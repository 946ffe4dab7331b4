//! Parameters of an element by their number (RFC 5424, 6.3.3).

ghost use Rattle.std.specs.Prelude.{◌≡◌, ◌⊎◌, ℕ, List, MatchResult, pos};
ghost use Rattle.octet_language.specs.Language.{AnyOf};
ghost use Rattle.octet_language.specs.Reading.{Follows};
ghost use Rattle.syslog_value.specs.Parts.{ParamParts};
ghost use Rattle.syslog_fields.specs.Grammar.{Param};
ghost use Rattle.c_library.specs.Items.{HasNoParam, IsParamNumber, IsSplitParam};

use crate::element::find_element;
use crate::fault::SyslogboxFault;
use crate::numbers::NO_PARAM;
use crate::span::SyslogboxSpan;
use crate::walk::from_param;
use syslog_reading::first_element::first_param;

/// A parameter, as it lies in a record (RFC 5424, 6.3.3).
#[repr(C)]
#[derive(Clone, Copy)]
pub struct SyslogboxParam {
    /// Its name.
    pub name: SyslogboxSpan,
    /// Its value as it is spelled between the quotation marks.
    pub value: SyslogboxSpan,
}

/// The name of the parameter that comes first, and the spelling of its value.
fn split_param(text: &[u8]) -> (&[u8], &[u8])
    ensures { (q : ParamParts) (after : List ℕ) → Follows (Param q) text.now after
        → IsSplitParam q text.now result.0.now result.1.now }
{
    let (param, _behind) = first_param(text);
    (param.name(), param.raw())
}

/// Finds parameter number `m` of element number `n` of the record that the octets are, or tells why there is none.
fn find_param(octets: &[u8], n: usize, m: usize) -> Result<SyslogboxParam, SyslogboxFault>
    ensures { MatchResult result (IsParamNumber octets.now n m) (HasNoParam octets.now n m) }
{
    let element = match find_element(octets, n) {
        Ok(element) => element,
        Err(fault) => return Err(fault),
    };
    let rest = match from_param(element.params, m) {
        Ok(rest) => rest,
        Err(count) => return Err(SyslogboxFault::new(NO_PARAM, count as u64)),
    };
    let (name, raw) = split_param(rest);
    let name_at = element.params_at + (element.params.len() - rest.len()) + 1;
    Ok(SyslogboxParam {
        name: SyslogboxSpan {
            offset: name_at,
            len: name.len(),
        },
        value: SyslogboxSpan {
            offset: name_at + name.len() + 2,
            len: raw.len(),
        },
    })
}

/// Shows parameter number `m`, from 0, of element number `n`, in the order of the octets, and returns 1; or 0 and why
/// there is none, with the parameter left as it was. It takes no memory.
#[unsafe(no_mangle)]
pub extern "C" fn syslogbox_proved_param(
    octets: &[u8],
    n: usize,
    m: usize,
    param: &mut SyslogboxParam,
    fault: &mut SyslogboxFault,
) -> i32
    ensures answer { (result ≡ pos 1) ⊎ (result ≡ pos 0) }
    ensures param { result ≡ pos 1 → IsParamNumber octets.now n m param.new }
    ensures same { result ≡ pos 1 → fault.new ≡ fault.old }
    ensures fault { result ≡ pos 0 → HasNoParam octets.now n m fault.new }
    ensures left { result ≡ pos 0 → param.new ≡ param.old }
{
    match find_param(octets, n, m) {
        Ok(found) => {
            *param = found;
            1
        }
        Err(cause) => {
            *fault = cause;
            0
        }
    }
}
