//! TAG of a legacy packet (RFC 3164, section 4.1.3).

ghost use Rattle.std.specs.Prelude.{MatchOption, option_map};
ghost use Rattle.octet_language.specs.Language.{AnyOf, NoPrefix};
ghost use Rattle.octet_language.specs.Reading.{Follows};
ghost use Rattle.syslog_legacy.specs.Parts.{Lacks};
ghost use Rattle.syslog_legacy.specs.Tags.{Bracketed, ProcText, Tag as TagPart};
ghost use Rattle.syslog_legacy.specs.TagViews.{tag_parts};

use crate::octets::{behind, behind_space};
use crate::runs::{nilable, proc_run, tag_run};

/// The program and its process id, as they lie in the octets; None for NILVALUE.
#[derive(Clone, Copy, Debug, PartialEq, Eq)]
pub struct Tag<'a> {
    /// The name of the program.
    pub app_name: Option<&'a [u8]>,
    /// The process id, if the tag has one.
    pub proc_id: Option<&'a [u8]>,
}

/// Reads a process id and the bracket behind it.
pub fn bracketed(octets: &[u8]) -> Option<(Option<&[u8]>, &[u8])>
    ensures { MatchOption result (NoPrefix (AnyOf Bracketed) octets.now)
        (λ x. Follows (Bracketed (option_map (λ s. s.now) x.0)) octets.now x.1.now) }
{
    let (run, rest) = proc_run(octets);
    if run.is_empty() {
        return None;
    }
    let rest = behind(b']', rest)?;
    Some((nilable(run), rest))
}

/// Reads a process id in brackets, if there is one, and the colon.
fn proc_id(octets: &[u8]) -> Option<(Option<&[u8]>, &[u8])>
    ensures { MatchOption result (NoPrefix (AnyOf ProcText) octets.now)
        (λ x. Follows (ProcText (option_map (λ s. s.now) x.0)) octets.now x.1.now) }
{
    let Some(inside) = behind(b'[', octets) else {
        let rest = behind(b':', octets)?;
        return Some((None, rest));
    };
    let (proc_id, rest) = bracketed(inside)?;
    let rest = behind(b':', rest)?;
    Some((proc_id, rest))
}

/// Reads a tag, its colon, and one space behind it if there is one.
pub fn read_tag(octets: &[u8]) -> Option<(Tag<'_>, &[u8])>
    ensures { MatchOption result (Lacks TagPart octets.now)
        (λ x. TagPart (tag_parts x.0) octets.now x.1.now) }
{
    let (run, rest) = tag_run(octets);
    if run.is_empty() {
        return None;
    }
    let (proc_id, rest) = proc_id(rest)?;
    let tag = Tag {
        app_name: nilable(run),
        proc_id,
    };
    Some((tag, behind_space(rest)))
}
