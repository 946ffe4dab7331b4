//! The record of a legacy packet, with memory of its own.

ghost use Rattle.std.specs.Prelude.{◌≡◌, IfOk, MatchResult};
ghost use Rattle.syslog_legacy.specs.Readings.{Legacy, ReadAs};
ghost use Rattle.syslog_legacy.specs.Views.{IsLegacyFault, legacy_view_parts};

use crate::clock::LegacyClock;
use crate::fault::LegacyFault;
use crate::view::LegacyView;
use crate::whole::legacy_view;
use std::alloc::{AllocError, Global};
use syslog_grammar::fields::{known_word, to_message};
use syslog_value::{Record, StructuredData};

impl<'a> LegacyView<'a> {
    /// The record that the view shows, with memory of its own.
    ///
    /// It fails only when out of memory.
    pub fn to_record(&self, alloc: Global) -> Result<Record, AllocError>
        ensures { IfOk result (λ r. r ≡ legacy_view_parts self.now) }
    {
        let hostname = known_word(alloc, self.front.hostname)?;
        let app_name = known_word(alloc, self.front.app_name)?;
        let proc_id = known_word(alloc, self.front.proc_id)?;
        let Some(message) = to_message(alloc, &self.message)? else {
            unreachable!();
        };
        Ok(Record::new(
            self.front.priority,
            self.front.instant,
            hostname,
            app_name,
            proc_id,
            None,
            StructuredData::empty(alloc),
            message,
        ))
    }
}

/// The record of a legacy packet, with memory of its own (RFC 3164, section 4).
///
/// A message that is not UTF-8 is reported before a lack of memory. As with
/// [legacy_view](crate::legacy_view), ask [has_new_form](crate::has_new_form) first.
pub fn read_legacy(alloc: Global, clock: &LegacyClock, octets: &[u8]) -> Result<Record, LegacyFault>
    ensures { MatchResult result (λ r. Legacy clock.now (ReadAs r) octets.now)
        (IsLegacyFault clock.now octets.now) }
{
    let seen = match legacy_view(clock, octets) {
        Ok(seen) => seen,
        Err(fault) => {
            return Err(LegacyFault::MessageNotUtf8 {
                offset: fault.offset,
            });
        }
    };
    match seen.to_record(alloc) {
        Ok(read) => Ok(read),
        Err(_) => Err(LegacyFault::Memory),
    }
}
