//! HOSTNAME and TAG of a packet in the wide dialect.

ghost use Rattle.std.specs.Prelude.{◌≡◌, ◌++◌, ◌∷◌, [], ◌↔◌, ℕ, List, IsTrue, MatchOption};
ghost use Rattle.std.specs.Prelude.{option_map};
ghost use Rattle.octet_language.specs.Language.{AnyOf, NoPrefix};
ghost use Rattle.octet_language.specs.Reading.{Follows};
ghost use Rattle.syslog_legacy.specs.Parts.{Lacks};
ghost use Rattle.syslog_legacy.specs.Tags.{TagText};
ghost use Rattle.syslog_legacy.specs.TagViews.{tag_parts};
ghost use Rattle.syslog_legacy.specs.WideTags.{BracketedTag, IsTagWord, WideHost, WideTag};

use crate::host::host_of;
use crate::octets::behind;
use crate::runs::{host_run, nilable, tag_run};
use crate::tag::{Tag, bracketed, read_tag};

/// Reads a name and a process id in brackets.
fn bracketed_tag(octets: &[u8]) -> Option<(Tag<'_>, &[u8])>
    ensures { MatchOption result (NoPrefix (AnyOf BracketedTag) octets.now)
        (λ x. Follows (BracketedTag (tag_parts x.0)) octets.now x.1.now) }
{
    let (run, rest) = tag_run(octets);
    if run.is_empty() {
        return None;
    }
    let inside = behind(b'[', rest)?;
    let (proc_id, rest) = bracketed(inside)?;
    let tag = Tag {
        app_name: nilable(run),
        proc_id,
    };
    Some((tag, rest))
}

/// Whether this is the last octet.
#[inline(always)]
fn ends_in(octet: u8, word: &[u8]) -> bool
    ensures { IsTrue result ↔ ((before : List ℕ) × (word.now ≡ before ++ octet ∷ [])) }
{
    match word {
        [.., last] => *last == octet,
        _ => false,
    }
}

/// Whether a word is a name and a process id in brackets.
fn is_bracketed(word: &[u8]) -> bool
    ensures { IsTrue result ↔ AnyOf BracketedTag word.now }
{
    if !ends_in(b']', word) {
        return false;
    }
    match bracketed_tag(word) {
        Some((_tag, rest)) => rest.is_empty(),
        None => false,
    }
}

/// Whether a word is a tag and its colon.
fn is_tag(word: &[u8]) -> bool
    ensures { IsTrue result ↔ AnyOf TagText word.now }
{
    if !ends_in(b':', word) {
        return false;
    }
    match read_tag(word) {
        Some((_tag, rest)) => rest.is_empty(),
        None => false,
    }
}

/// Whether a word is a tag, with its colon, or without one behind a process id.
#[inline(always)]
fn is_tag_word(word: &[u8]) -> bool
    ensures { IsTrue result ↔ IsTagWord word.now }
{
    is_tag(word) || is_bracketed(word)
}

/// Reads a host that does not end in a colon, and the space behind it; if the word of a tag stands
/// there instead, there is no host, and nothing is read.
pub fn wide_host(octets: &[u8]) -> Option<(Option<&[u8]>, &[u8])>
    ensures { MatchOption result (Lacks WideHost octets.now)
        (λ x. WideHost (option_map (λ s. s.now) x.0) octets.now x.1.now) }
{
    let (word, rest) = host_run(octets);
    if is_tag_word(word) {
        return Some((None, octets));
    }
    if ends_in(b':', word) {
        return None;
    }
    host_of(octets, word, rest)
}

/// Reads a tag, its colon, and one space behind it if there is one; or a name, a process id in
/// brackets and a space.
pub fn wide_tag(octets: &[u8]) -> Option<(Tag<'_>, &[u8])>
    ensures { MatchOption result (Lacks WideTag octets.now)
        (λ x. WideTag (tag_parts x.0) octets.now x.1.now) }
{
    if let Some(read) = read_tag(octets) {
        return Some(read);
    }
    let (tag, rest) = bracketed_tag(octets)?;
    let rest = behind(b' ', rest)?;
    Some((tag, rest))
}
