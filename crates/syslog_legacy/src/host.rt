//! HOSTNAME of a legacy packet (RFC 3164, section 4.1.2).

ghost use Rattle.std.specs.Prelude.{MatchOption, option_map};
ghost use Rattle.syslog_value.specs.Parts.{IsPrintable};
ghost use Rattle.syslog_legacy.specs.Hosts.{Host, SplitsRun};
ghost use Rattle.syslog_legacy.specs.Parts.{Lacks};

use crate::octets::behind;
use crate::runs::{host_run, nilable};

/// The host that a run of printable octets is, None for NILVALUE, and what follows it and its
/// space, which may be missing only at the end.
pub fn host_of<'a>(
    octets: &'a [u8],
    run: &'a [u8],
    rest: &'a [u8],
) -> Option<(Option<&'a [u8]>, &'a [u8])>
    requires { SplitsRun IsPrintable 255 octets.now run.now rest.now }
    ensures { MatchOption result (Lacks Host octets.now)
        (λ x. Host (option_map (λ s. s.now) x.0) octets.now x.1.now) }
{
    if run.is_empty() {
        return None;
    }
    if rest.is_empty() {
        return Some((nilable(run), rest));
    }
    let rest = behind(b' ', rest)?;
    Some((nilable(run), rest))
}

/// Reads a host, which is None for NILVALUE, and the space that follows it.
pub fn host(octets: &[u8]) -> Option<(Option<&[u8]>, &[u8])>
    ensures { MatchOption result (Lacks Host octets.now)
        (λ x. Host (option_map (λ s. s.now) x.0) octets.now x.1.now) }
{
    let (run, rest) = host_run(octets);
    host_of(octets, run, rest)
}
