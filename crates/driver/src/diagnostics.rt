//! The lines of the diagnostics.

ghost use Rattle.std.specs.Prelude.{◌≡◌, ◌≢◌, ◌<◌, ◌^◌, ◌⊎◌};
ghost use Rattle.std.specs.Io.KnownBytes.{Appends};
ghost use Rattle.driver.specs.Devices.{Reports};

use crate::status::FAULT;
use octet_devices::{Output, write_all};

/// Writes a line to the diagnostics and returns this status, or `FAULT` if the line cannot be
/// written.
pub fn report<N: Output>(diagnostics: &mut N, line: &[u8], status: u8) -> u8
    ensures reports { Reports line.now status (N.state diagnostics.old) (N.state diagnostics.new)
        result }
    // so, of either outcome
    ensures said { result ≢ FAULT → (result ≡ status)
        × Appends (N.state diagnostics.old).taken (N.state diagnostics.new).taken line.now }
    ensures cause { (N.state diagnostics.old).failures < 2 ^ 63 → result ≡ FAULT →
        (status ≡ FAULT)
        ⊎ ((N.state diagnostics.old).failures < (N.state diagnostics.new).failures) }
    ensures written { (N.state diagnostics.old).failures < 2 ^ 63 →
        (N.state diagnostics.new).failures ≡ (N.state diagnostics.old).failures →
        Appends (N.state diagnostics.old).taken (N.state diagnostics.new).taken line.now }
    ensures fault { status ≡ FAULT → result ≡ FAULT }
    ensures failed { (N.state diagnostics.old).failures < (N.state diagnostics.new).failures →
        result ≡ FAULT }
{
    match write_all(diagnostics, line) {
        Ok(()) => status,
        Err(_) => FAULT,
    }
}
