//! Words, numbers and hashes within a line.

ghost use Rattle.std.specs.Prelude.{◌≡◌, ◌≢◌, ◌↔◌, ℕ, List, IsTrue, MatchOption, decimal};
ghost use Rattle.ledger.specs.Words.{IsFree, IsHash, IsNumber, IsWord, word_and};

use crate::entry::HASH_LEN;
use itoa::Buffer;
use memchr::memchr;

/// Whether both are the same octets.
pub(crate) fn is(octets: &[u8], text: &[u8]) -> bool
    ensures { IsTrue result ↔ (octets.now ≡ text.now) }
{
    octets == text
}

/// The word before the first space, and what follows that.
pub(crate) fn cut(text: &[u8]) -> Option<(&[u8], &[u8])>
    ensures { MatchOption result ((w rest : List ℕ) → text.now ≢ word_and w rest)
        (λ x. IsFree x.0.now × (text.now ≡ word_and x.0.now x.1.now)) }
{
    let end = memchr(b' ', text)?;
    Some((&text[..end], &text[end + 1..]))
}

/// Whether the octets are a word: one to so many, each of them printable and no space.
pub(crate) fn is_word(octets: &[u8], most: usize) -> bool
    ensures { IsTrue result ↔ IsWord most octets.now }
{
    !octets.is_empty() && octets.len() <= most && octets.iter().all(|x| *x >= 0x21 && *x <= 0x7E)
}

/// The word that the text begins with, and what follows it and a space.
pub(crate) fn read_word(text: &[u8], most: usize) -> Option<(&[u8], &[u8])>
    ensures { MatchOption result ((w rest : List ℕ) → IsWord most w → text.now ≢ word_and w rest)
        (λ x. IsWord most x.0.now × (text.now ≡ word_and x.0.now x.1.now)) }
{
    let (word, rest) = cut(text)?;
    if !is_word(word, most) {
        return None;
    }
    Some((word, rest))
}

/// The number that a word is.
pub(crate) fn number_of(word: &[u8]) -> Option<u64>
    ensures { MatchOption result ((n : ℕ) → IsNumber n → word.now ≢ decimal n)
        (λ n. IsNumber n × (word.now ≡ decimal n)) }
{
    let Ok(text) = std::str::from_utf8(word) else {
        return None;
    };
    let Ok(number) = text.parse::<u64>() else {
        return None;
    };
    let mut buffer = Buffer::new();
    if !is(buffer.format(number).as_bytes(), word) {
        return None;
    }
    Some(number)
}

/// The number that the text begins with, and what follows it and a space.
pub(crate) fn read_number(text: &[u8]) -> Option<(u64, &[u8])>
    ensures { MatchOption result ((n : ℕ) (rest : List ℕ) → IsNumber n → text.now ≢ word_and (decimal n) rest)
        (λ x. IsNumber x.0 × (text.now ≡ word_and (decimal x.0) x.1.now)) }
{
    let (word, rest) = cut(text)?;
    let number = number_of(word)?;
    Some((number, rest))
}

/// Whether the octets are a hash: 64 digits in lower-case hexadecimal.
pub(crate) fn is_hash(octets: &[u8]) -> bool
    ensures { IsTrue result ↔ IsHash octets.now }
{
    octets.len() == HASH_LEN
        && octets.iter().all(|x| (*x >= b'0' && *x <= b'9') || (*x >= b'a' && *x <= b'f'))
}

/// The hash that a word is.
pub(crate) fn hash_of(word: &[u8]) -> Option<[u8; 64]>
    ensures { MatchOption result (¬ IsHash word.now) (λ h. IsHash h × (h ≡ word.now)) }
{
    if !is_hash(word) {
        return None;
    }
    let mut hash = [0; HASH_LEN];
    hash.copy_from_slice(word);
    Some(hash)
}
