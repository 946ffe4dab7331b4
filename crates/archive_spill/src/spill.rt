//! Where runs go.

ghost use Rattle.std.specs.Prelude.{◌≡◌, Some, [], IfOk};
ghost use Rattle.archive_spill.specs.Writing.{IsOfRuns};

use crate::fault::SpillFault;
use octet_devices::{DeviceFault, Input, Output};

/// Where the runs of a set go that does not fit in memory. A run is written at its end, and then
/// read from its beginning. Nothing is left of it once it is dropped.
pub trait Spill {
    /// A run that is being written.
    type Written: Output + Drop;

    /// A run that is being read.
    type Run: Input + Drop;

    // its runs report their octets
    ghost tells: { Self → Type 0 };

    /// Makes a run of no octets.
    ///
    /// # Errors
    /// `Spill`: the run could not be made; `Memory`.
    fn make(&mut self) -> Result<Self::Written, SpillFault>
        ensures empty { tells self.old →
            IfOk result (λ run. (Self.Written.state run).taken ≡ Some []) }
        ensures fault { IsOfRuns result }
        ensures tells { tells self.old → tells self.new };

    /// Goes back to the beginning of a run, to read what was written.
    ///
    /// # Errors
    /// The run is lost.
    fn reopen(&mut self, written: Self::Written) -> Result<Self::Run, DeviceFault>
        ensures left { tells self.old →
            IfOk result (λ run. (Self.Run.state run).left ≡ (Self.Written.state written).taken) }
        ensures tells { tells self.old → tells self.new };
}
