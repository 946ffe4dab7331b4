//! A record is read, and written anew.

ghost use Rattle.std.specs.Prelude.{◌≡◌, [], IfOk, IfSome, MatchResult, OnErr, option_map};
ghost use Rattle.syslog_reading.specs.CanonicalOctets.{PutsCanonical};
ghost use Rattle.syslog_reading.specs.Faults.{FaultOf};
ghost use Rattle.record_json.specs.Texts.{AddsLine};
ghost use Rattle.examples.specs.Shown.{NamesApp};

use std::alloc::{AllocError, Global};
use syslog::{Fault, put_json_line, view, write_canonical_octets};

/// The application that sent a record (RFC 5424, section 6.2.5), without a copy; None if the record
/// names none.
///
/// # Errors
/// The octets are no record: the fault tells the field and the octet.
pub fn app_name_of(octets: &[u8]) -> Result<Option<&[u8]>, Fault>
    // the word that stands there in the record, or the fault of the octets
    ensures { MatchResult result (λ name. NamesApp octets.now (option_map (λ s. s.now) name))
        (FaultOf octets.now) }
{
    match view(octets) {
        Ok(record) => Ok(record.app_name()),
        Err(fault) => Err(fault),
    }
}

/// Appends the canonical octets of a record; or nothing, and the answer is the fault of the octets.
///
/// # Errors
/// Out of memory, with nothing appended.
pub fn normalize(
    alloc: Global,
    octets: &[u8],
    out: &mut Vec<u8>,
) -> Result<Option<Fault>, AllocError>
    // those of the one record that the octets are, behind what was there
    ensures ok { IfOk result (PutsCanonical octets.now out.old.items out.new.items) }
    ensures err { OnErr result (out.new.items ≡ out.old.items) }
{
    write_canonical_octets(alloc, octets, out)
}

/// A record as a line of JSON; None if the octets are no record.
///
/// # Errors
/// Out of memory.
pub fn json_of(alloc: Global, octets: &[u8]) -> Result<Option<Vec<u8>>, AllocError>
    // the line of the record that the octets are
    ensures { IfOk result (λ line. IfSome line (λ v. AddsLine octets.now [] v.items)) }
{
    let Ok(record) = view(octets) else {
        return Ok(None);
    };
    let mut scratch = Vec::new(alloc);
    let mut line = Vec::new(alloc);
    put_json_line(alloc, &record, &mut scratch, &mut line)?;
    Ok(Some(line))
}

#[cfg(test)]
mod tests {
    use super::*;
    use std::test::Fail;
    use syslog::Field;

    #[test]
    fn the_application_is_found(rt: HostRuntime) {
        let octets = b"<34>1 2003-10-11T22:14:15.003Z mymachine su - ID47 - 'su root' failed";
        assert_eq!(rt; app_name_of(octets.as_slice()), Ok(Some(b"su".as_slice())));
    }

    #[test]
    fn the_canonical_form_and_the_line_are_written(rt: HostRuntime) -> Result<(), Fail> {
        let alloc = rt.alloc();
        let mut out = Vec::new(alloc);
        let octets = b"<0>1 2024-02-29T01:00:00+01:00 - - - - - ".as_slice();
        assert_eq!(rt; normalize(alloc, octets, &mut out)?, None);
        assert_eq!(rt;
            out.as_slice(),
            b"<0>1 2024-02-29T00:00:00.000000Z - - - - -".as_slice()
        );
        let line = json_of(alloc, octets)?.ok_or("a record")?;
        assert!(rt; line.as_slice().starts_with(b"{\"priority\":0,"));
        Ok(())
    }

    #[test]
    fn a_refusal_tells_the_field_and_the_octet(rt: HostRuntime) {
        let field = Field::Timestamp;
        let expected = Err(Fault::Syntax { field, offset: 16 });
        assert_eq!(rt;
            app_name_of(b"<34>1 2003-10-11 22:14:15Z mymachine su - - -".as_slice()),
            expected
        );
    }
}
