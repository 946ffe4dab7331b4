//! What words stand for.

ghost use Rattle.std.specs.Prelude.{◌≡◌, ◌≢◌, ◌↔◌, ◌++◌, ℕ, ℤ, List, IsTrue, MatchOption, OnOk, decimal};
ghost use Rattle.std.specs.Fmt.{signed_decimal};
ghost use Rattle.hex.specs.Hex.{encode_lower};
ghost use Rattle.syslog_value.specs.Parts.{IsInstant};
ghost use Rattle.site_messages.specs.Reading.{Reads};
ghost use Rattle.site_messages.specs.Words.{IsDigest, IsNumber, IsTime, digest_text, number_text};
ghost use Rattle.site_messages.specs.Words.{time_text};

use crate::gap::Gap;
use crate::words::{is, read_word};
use itoa::{Buffer, Integer};
use std::alloc::AllocError;
use syslog_value::Instant;

// the most digits of a number, and octets of a time
const NUMBER_MAX: u8 = 20;

const DIGEST_MAX: u8 = 64;

/// Puts octets behind others.
pub(crate) fn put(text: &mut Vec<u8>, octets: &[u8]) -> Result<(), AllocError>
    ensures { OnOk result (text.new.items ≡ text.old.items ++ octets.now) }
{
    text.extend_from_slice(octets)
}

/// Puts a number, and octets behind it.
pub(crate) fn put_number(text: &mut Vec<u8>, number: u64, end: &[u8]) -> Result<(), AllocError>
    ensures { OnOk result (text.new.items ≡ text.old.items ++ (decimal number ++ end.now)) }
{
    put(text, Buffer::new().format(number).as_bytes())?;
    put(text, end)
}

/// Puts a time and a space.
pub(crate) fn put_time(text: &mut Vec<u8>, instant: Option<Instant>) -> Result<(), AllocError>
    ensures { OnOk result (text.new.items ≡ text.old.items ++ time_text instant) }
{
    match instant {
        None => put(text, b"- "),
        Some(instant) => {
            put(text, Buffer::new().format(instant.micros()).as_bytes())?;
            put(text, b" ")
        }
    }
}

/// Puts a digest and a space.
pub(crate) fn put_digest(text: &mut Vec<u8>, digest: &[u8; 32]) -> Result<(), AllocError>
    ensures { OnOk result (text.new.items ≡ text.old.items ++ digest_text digest.now) }
{
    let mut digits = [0; 64];
    let _ = hex::encode_to_slice(digest, &mut digits);
    put(text, &digits)?;
    put(text, b" ")
}

/// The number that a word is.
pub(crate) fn number_of(word: &[u8]) -> Option<u64>
    ensures { MatchOption result ((n : ℕ) → IsNumber n → word.now ≢ decimal n)
        (λ n. IsNumber n × (word.now ≡ decimal n)) }
{
    let Ok(text) = std::str::from_utf8(word) else {
        return None;
    };
    let Ok(number) = text.parse::<u64>() else {
        return None;
    };
    let mut buffer = Buffer::new();
    if !is(buffer.format(number).as_bytes(), word) {
        return None;
    }
    Some(number)
}

// The instant that a word is.
fn instant_of(word: &[u8]) -> Option<Instant>
    ensures { MatchOption result ((i : ℤ) → IsInstant i → word.now ≢ signed_decimal i)
        (λ i. IsInstant i × (word.now ≡ signed_decimal i)) }
{
    let Ok(text) = std::str::from_utf8(word) else {
        return None;
    };
    let Ok(micros) = text.parse::<i64>() else {
        return None;
    };
    let mut buffer = Buffer::new();
    if !is(buffer.format(micros).as_bytes(), word) {
        return None;
    }
    Instant::from_micros(micros)
}

// Whether a word is a digest.
fn is_of(word: &[u8], digest: &[u8; 32]) -> bool
    ensures word { IsTrue result ↔ (word.now ≡ encode_lower digest.now) }
    ensures digest { IsDigest digest.now }
{
    let mut digits = [0; 64];
    let _ = hex::encode_to_slice(digest, &mut digits);
    is(word, &digits)
}

// The digest that a word is.
fn digest_of(word: &[u8]) -> Option<[u8; 32]>
    ensures { MatchOption result ((d : List ℕ) → IsDigest d → word.now ≢ encode_lower d)
        (λ d. IsDigest d × (word.now ≡ encode_lower d)) }
{
    let mut digest = [0; 32];
    if hex::decode_to_slice(word, &mut digest).is_err() {
        return None;
    }
    if !is_of(word, &digest) {
        return None;
    }
    Some(digest)
}

/// The number that the octets begin with, and what follows it and a space.
pub(crate) fn read_number(octets: &[u8]) -> Result<(u64, &[u8]), Gap>
    ensures { Reads IsNumber number_text (λ x. x.0) (λ x. x.1.now) octets.now result }
{
    let (word, rest) = read_word(octets, b' ', NUMBER_MAX)?;
    match number_of(word) {
        Some(number) => Ok((number, rest)),
        None => Err(Gap::Bad),
    }
}

/// The time that the octets begin with, and what follows it and a space.
pub(crate) fn read_time(octets: &[u8]) -> Result<(Option<Instant>, &[u8]), Gap>
    ensures { Reads IsTime time_text (λ x. x.0) (λ x. x.1.now) octets.now result }
{
    let (word, rest) = read_word(octets, b' ', NUMBER_MAX)?;
    if is(word, b"-") {
        return Ok((None, rest));
    }
    match instant_of(word) {
        Some(instant) => Ok((Some(instant), rest)),
        None => Err(Gap::Bad),
    }
}

/// The digest that the octets begin with, and what follows it and a space.
pub(crate) fn read_digest(octets: &[u8]) -> Result<([u8; 32], &[u8]), Gap>
    ensures { Reads IsDigest digest_text (λ x. x.0) (λ x. x.1.now) octets.now result }
{
    let (word, rest) = read_word(octets, b' ', DIGEST_MAX)?;
    match digest_of(word) {
        Some(digest) => Ok((digest, rest)),
        None => Err(Gap::Bad),
    }
}
