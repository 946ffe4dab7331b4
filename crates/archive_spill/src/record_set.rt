//! Records are added to a set that may be larger than memory as to any other.

ghost use Rattle.archive_spill.specs.Sets.{Holds, holds_alike};

use crate::fault::SpillFault;
use crate::spill::Spill;
use crate::spilled::SpilledArchive;
use archive_sorting::RecordSet;
use std::alloc::Global;
use syslog_grammar::RecordView;
use syslog_value::Record;

impl<P: Spill + Drop> RecordSet for SpilledArchive<P, P::Run> {
    type Fault = SpillFault;

    ghost holds = { λ s es. Holds P.tells P.Run.state s es };

    ghost alike = { λ s es fs same h. holds_alike P.tells P.Run.state s es fs same h };

    fn add(&mut self, _alloc: Global, record: &Record) -> Result<(), SpillFault> {
        SpilledArchive::add(self, record)
    }

    fn add_view(&mut self, _alloc: Global, view: &RecordView<'_>) -> Result<(), SpillFault> {
        SpilledArchive::add_view(self, view)
    }
}
