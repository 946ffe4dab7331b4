//! The color of each severity, as SGR sequences (ECMA-48, 8.3.117).

ghost use Rattle.std.specs.Prelude.{◌≡◌};
ghost use Rattle.colored_show.specs.Painting.{end_of, start_of};

use syslog_value::Severity;

/// The sequence before a line of a record: none for `info`.
pub(crate) fn start_of(severity: Severity) -> &'static [u8]
    ensures { result.now ≡ start_of severity }
{
    match severity {
        Severity::Emergency | Severity::Alert | Severity::Critical => b"\x1b[1;31m",
        Severity::Error => b"\x1b[31m",
        Severity::Warning => b"\x1b[33m",
        Severity::Notice => b"\x1b[1m",
        Severity::Informational => b"",
        Severity::Debug => b"\x1b[2m",
    }
}

/// The sequence behind a line of a record, before its line feed: none for `info`.
pub(crate) fn end_of(severity: Severity) -> &'static [u8]
    ensures { result.now ≡ end_of severity }
{
    match severity {
        Severity::Informational => b"",
        _ => b"\x1b[0m",
    }
}
