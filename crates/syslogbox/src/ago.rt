//! Times that words name by how long ago they were.

use std::alloc::{AllocError, Global};
use std::time::{SystemTime, UNIX_EPOCH};
use syslog_grammar::canonical_timestamp;
use syslog_value::Instant;

// The commands that take times.
const COMMANDS: [&str; 6] = ["select", "read", "follow", "expire", "reconcile", "seal"];

// The options that take them.
const OPTIONS: [&str; 3] = ["--from", "--to", "--before"];

// So many of a unit at most.
const NUMBER_MAX: u64 = 1_000_000;

// The microseconds of a unit: seconds, minutes, hours or days.
fn unit_micros(unit: u8) -> Option<u64> {
    match unit {
        b's' => Some(1_000_000),
        b'm' => Some(60_000_000),
        b'h' => Some(3_600_000_000),
        b'd' => Some(86_400_000_000),
        _ => None,
    }
}

// The number that decimal digits alone write, if it is not too large.
fn number(digits: &[u8]) -> Option<u64> {
    let text = str::from_utf8(digits).ok()?;
    if text.starts_with('+') {
        return None;
    }
    let number = text.parse::<u64>().ok()?;
    (number <= NUMBER_MAX).then_some(number)
}

// How many microseconds ago a word such as `-30m` names.
fn micros_ago(word: &str) -> Option<u64> {
    let (unit, front) = word.as_bytes().split_last()?;
    let (sign, digits) = front.split_first()?;
    if *sign != b'-' {
        return None;
    }
    Some(number(digits)?.saturating_mul(unit_micros(*unit)?))
}

/// The microseconds from 1970 on by the system's clock.
pub(crate) fn now_micros(rt: &HostRuntime) -> Option<i64> {
    let since = SystemTime::now(rt).ok()?.duration_since(UNIX_EPOCH).ok()?;
    i64::try_from(since.as_micros()).ok()
}

/// The time so many days ago, if the system's clock tells it.
pub fn days_ago(rt: &HostRuntime, days: u32) -> Option<Instant> {
    let ago = i64::from(days).saturating_mul(86_400_000_000);
    Instant::from_micros(now_micros(rt)?.saturating_sub(ago))
}

// The canonical timestamp of the time that a word names so, if it does.
fn told_time(now: i64, word: &str) -> Option<[u8; 27]> {
    let ago = i64::try_from(micros_ago(word)?).ok()?;
    let instant = Instant::from_micros(now.saturating_sub(ago))?;
    Some(canonical_timestamp(instant))
}

// What a word begins with up to the value of an option, where it has the value itself; for a word behind the
// option, nothing.
fn option_front<'a>(word: &'a str, before: Option<&str>) -> Option<(&'a str, &'a str)> {
    match before {
        Some(name) if OPTIONS.contains(&name) => return Some(("", word)),
        _ => {}
    }
    let (name, value) = word.split_once('=')?;
    if !OPTIONS.contains(&name) {
        return None;
    }
    Some((word.get(..name.len() + 1)?, value))
}

// A word, with the timestamp in place of how long ago it names.
fn told_word(
    alloc: Global,
    now: i64,
    word: &str,
    before: Option<&str>,
) -> Result<Option<String>, AllocError> {
    let Some((front, value)) = option_front(word, before) else {
        return Ok(None);
    };
    let Some(time) = told_time(now, value) else {
        return Ok(None);
    };
    let mut told = String::from_str(alloc, front)?;
    told.push_str(str::from_utf8(&time).unwrap_or(""))?;
    Ok(Some(told))
}

// Whether a word begins with a dash and a digit behind an option that takes a time: the parser would take
// it for an option.
fn is_dashed_value(word: &str, before: Option<&str>) -> bool {
    match (word.as_bytes(), before) {
        ([b'-', b'0'..=b'9', ..], Some(name)) => OPTIONS.contains(&name),
        _ => false,
    }
}

// Puts a word behind those before it, with a timestamp in place of how long ago it names. A value that
// the parser would take for an option is joined with its option.
fn push_told(
    alloc: Global,
    now: i64,
    told: &mut Vec<String>,
    word: String,
) -> Result<(), AllocError> {
    let before = told.last().map(|word| word.as_str());
    if let Some(time) = told_word(alloc, now, word.as_str(), before)? {
        told.push(time)?;
        return Ok(());
    }
    let joined = match before {
        Some(name) if is_dashed_value(word.as_str(), before) => {
            Some(format!(in alloc; "{name}={word}")?)
        }
        _ => None,
    };
    match joined {
        Some(joined) => {
            let _ = told.pop();
            told.push(joined)?;
        }
        None => told.push(word)?,
    }
    Ok(())
}

/// The words with timestamps in place of `-30m` and the like behind options that take a time, counted back
/// from now, where the command takes times. Words behind `--` stay as they are.
pub fn with_times(
    rt: &HostRuntime,
    alloc: Global,
    words: Vec<String>,
) -> Result<Vec<String>, AllocError> {
    let takes_times = words
        .first()
        .is_some_and(|word| COMMANDS.contains(&word.as_str()));
    let Some(now) = now_micros(rt) else {
        return Ok(words);
    };
    if !takes_times {
        return Ok(words);
    }
    let mut told = Vec::new(alloc);
    let mut are_options = true;
    for word in words {
        are_options = are_options && word.as_str() != "--";
        if are_options {
            push_told(alloc, now, &mut told, word)?;
        } else {
            told.push(word)?;
        }
    }
    Ok(told)
}
