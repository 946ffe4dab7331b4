//! Words, and what ends them.

ghost use Rattle.std.specs.Prelude.{◌≡◌, ◌↔◌, ◌^◌, ◌<◌, IsTrue};
ghost use Rattle.site_messages.specs.Reading.{Reads};
ghost use Rattle.site_messages.specs.Words.{IsWord, only_text, word_text};
ghost use Rattle.site_messages.specs.declared.limits.TheConstants.{LINE_MAX};

use crate::gap::Gap;
use crate::limits::LINE_MAX;
use memchr::memchr;

/// Whether both are the same octets.
pub(crate) fn is(octets: &[u8], text: &[u8]) -> bool
    ensures { IsTrue result ↔ (octets.now ≡ text.now) }
{
    octets == text
}

/// The word before the first such octet, and what follows that; a word has at most `most` octets.
pub(crate) fn read_word(octets: &[u8], end: u8, most: u8) -> Result<(&[u8], &[u8]), Gap>
    ensures { Reads (IsWord end most) (word_text end) (λ x. x.0.now) (λ x. x.1.now) octets.now
        result }
{
    let front = &octets[..octets.len().min(most as usize + 1)];
    match memchr(end, front) {
        Some(at) => Ok((&octets[..at], &octets[at + 1..])),
        None if octets.len() > most as usize => Err(Gap::Bad),
        None => Err(Gap::More(1)),
    }
}

/// What follows a text that the octets begin with.
pub(crate) fn read_text<'a>(octets: &'a [u8], text: &[u8]) -> Result<&'a [u8], Gap>
    ensures { Reads (λ (u : Unit {0}). Unit {0}) (only_text text.now) (λ _. tt) (λ rest. rest.now)
        octets.now result }
{
    let count = octets.len().min(text.len());
    let (front, rest) = octets.split_at(count);
    if !is(front, &text[..count]) {
        return Err(Gap::Bad);
    }
    if count < text.len() {
        return Err(Gap::More(text.len() - count));
    }
    Ok(rest)
}

/// The line before the first line feed, and what follows that.
pub fn read_line(octets: &[u8]) -> Result<(&[u8], &[u8]), Gap>
    ensures { Reads (IsWord 10 LINE_MAX) (word_text 10) (λ x. x.0.now) (λ x. x.1.now) octets.now
        result }
{
    read_word(octets, b'\n', LINE_MAX)
}
