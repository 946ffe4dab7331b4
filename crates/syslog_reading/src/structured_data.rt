//! STRUCTURED-DATA (RFC 5424, 6.3).

ghost use Rattle.std.specs.Prelude.{◌⊎◌, ℕ, List, IfOk, IsTrue, MatchResult};
ghost use Rattle.syslog_reading.specs.FewIds.{IsNew, Keeps};
ghost use Rattle.syslog_reading.specs.DataForms.{HasDataForms, ReadsElements};
ghost use Rattle.syslog_reading.specs.Ids.{IdsDiffer};
ghost use Rattle.syslog_fields.specs.Spans.{EndsStructuredData, EndsElements};
ghost use Rattle.syslog_fields.specs.Spans.{StopsInStructuredData, StopsInElements};

use crate::element::element;
use crate::few_ids::FewIds;
use crate::repeated::is_above;
use syslog_fields::reading::{Stop, both, next};

/// Whether an id is none of those before it: known because all of them ascend, or from the few that
/// were kept.
#[inline(always)]
fn is_new(id: &[u8], ascends: bool, ids: &FewIds<'_>) -> bool
    ensures { IsTrue result → IsTrue ascends
        ⊎ ((before : List (List ℕ)) → Keeps ids.now before → IsNew id.now before) }
{
    if ascends {
        return true;
    }
    ids.lacks(id)
}

/// Reads elements, at least one; what ends them is left. It tells whether they are canonical,
/// whether their ids ascend, and whether these are known to differ.
fn behind_elements(octets: &[u8]) -> Result<(&[u8], bool, bool, bool), Stop>
    ensures reads { MatchResult result (λ x. EndsElements octets.now x.0.now)
        (λ e. StopsInElements octets.now e.remaining) }
    ensures forms { IfOk result (λ x. ReadsElements x.1 x.2 x.3 octets.now x.0.now) }
{
    let (found, mut rest, mut is_form) = element(octets)?;
    let mut greatest = found.id();
    let mut ids = FewIds::of_one(greatest);
    let mut ascends = true;
    let mut differ = true;
    while let Some((first, _after)) = next(rest) {
        if first != b'[' {
            return Ok((rest, is_form, ascends, differ));
        }
        let (found, behind, found_is_form) = element(rest)?;
        let id = found.id();
        let above = is_above(id, Some(greatest));
        is_form = both(is_form, found_is_form);
        ascends = both(ascends, above);
        differ = both(differ, is_new(id, ascends, &ids));
        ids.push(id);
        greatest = id;
        rest = behind;
    }
    Ok((rest, is_form, ascends, differ))
}

/// Reads the structured data; what ends it is left. It gives the octets of the data, and tells
/// whether they are canonical except for the order of the elements, whether the ids ascend, and
/// whether these are known to differ. The [`Stop`] is at the first octet with which it cannot go
/// on.
pub fn structured_data(octets: &[u8]) -> Result<(&[u8], &[u8], bool, bool, bool), Stop>
    ensures reads { MatchResult result (λ x. EndsStructuredData octets.now x.0.now x.1.now)
        (λ e. StopsInStructuredData octets.now e.remaining) }
    ensures forms { IfOk result (λ x. HasDataForms x.2 x.3 x.0.now) }
    ensures ids { IfOk result (λ x. IsTrue x.4 → IdsDiffer x.0.now) }
{
    let Some((first, behind)) = next(octets) else {
        return Err(Stop {
            remaining: octets.len(),
        });
    };
    if first == b'-' {
        let (structured_data, _) = octets.split_at(1);
        return Ok((structured_data, behind, true, true, true));
    }
    let (rest, is_form, ascends, differ) = behind_elements(octets)?;
    let (structured_data, rest) = octets.split_at(octets.len() - rest.len());
    Ok((structured_data, rest, is_form, ascends, differ))
}
