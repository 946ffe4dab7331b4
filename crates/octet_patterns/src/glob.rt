//! Texts that are like a pattern.

ghost use Rattle.std.specs.Prelude.{◌≡◌, ◌↔◌, ◌∷◌, length, slice_index, EachIndex, IsTrue, option_map};
ghost use Rattle.octet_patterns.specs.Globs.{Fits, IsBehindFirst, IsLike, IsPartedAt, IsRun};

use memchr::memchr;

// Whether each octet of a run is that of the text, or `?`.
fn are_alike(run: &[u8], text: &[u8]) -> bool
    requires { length run.now ≡ length text.now }
    ensures { IsTrue result
        ↔ EachIndex run.now (λ k. Fits (slice_index run.now k) (slice_index text.now k)) }
{
    'pieces: for (piece, octet) in run.iter().zip(text) {
        if *piece != b'?' && piece != octet {
            return false;
        }
    }
    true
}

// Whether a text is like a run, which has no `*`.
fn is_like_run(run: &[u8], text: &[u8]) -> bool
    ensures { IsRun run.now → (IsTrue result ↔ IsLike run.now text.now) }
{
    if run.len() != text.len() {
        return false;
    }
    are_alike(run, text)
}

// What a text has behind the first place where it is like a run.
fn behind_first<'a>(run: &[u8], text: &'a [u8]) -> Option<&'a [u8]>
    ensures { IsRun run.now → IsBehindFirst run.now text.now (option_map (λ s. s.now) result) }
{
    if text.len() < run.len() {
        return None;
    }
    'places: for start in 0..text.len() - run.len() + 1 {
        let end = start + run.len();
        if is_like_run(run, &text[start..end]) {
            return Some(&text[end..]);
        }
    }
    None
}

// The parts of a pattern before and behind its first `*`, if it has one.
fn parted(pattern: &[u8]) -> Option<(&[u8], &[u8])>
    ensures { IsPartedAt pattern.now (option_map (λ p. (p.0.now, p.1.now)) result) }
{
    let at = memchr(b'*', pattern)?;
    Some((&pattern[..at], &pattern[at + 1..]))
}

// Whether a text is like a pattern with `*` before it: whether it ends with a text like the pattern.
fn ends_like(pattern: &[u8], text: &[u8]) -> bool
    ensures { IsTrue result ↔ IsLike (42 ∷ pattern.now) text.now }
{
    let mut pattern = pattern;
    let mut text = text;
    'runs: while let Some((head, rest)) = parted(pattern) {
        let Some(behind) = behind_first(head, text) else {
            return false;
        };
        text = behind;
        pattern = rest;
    }
    if text.len() < pattern.len() {
        return false;
    }
    is_like_run(pattern, &text[text.len() - pattern.len()..])
}

/// Whether a text is like a pattern, in which `*` stands for any octets, `?` for any one octet, and
/// each other octet for itself. It takes at most as many steps as the product of both lengths, and
/// no memory.
pub fn is_like(pattern: &[u8], text: &[u8]) -> bool
    ensures { IsTrue result ↔ IsLike pattern.now text.now }
{
    let Some((head, rest)) = parted(pattern) else {
        return is_like_run(pattern, text);
    };
    match text.split_at_checked(head.len()) {
        None => false,
        Some((front, behind)) => is_like_run(head, front) && ends_like(rest, behind),
    }
}
