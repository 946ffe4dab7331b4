//! The lines that answers begin with.

ghost use Rattle.std.specs.Prelude.{◌≡◌, ◌≢◌, ◌++◌, MatchOption, OnOk};
ghost use Rattle.site_messages.specs.Messages.{IsAnswer, answer_text, answer_words};
ghost use Rattle.site_messages.specs.declared.answer.Answer.{Answer as the_answer};

use crate::request::number_behind;
use crate::values::{put, put_number};
use crate::words::is;
use std::alloc::AllocError;

/// What an answerer says. Behind `Parts` come the lines of so many parts; behind `Cuts` so many
/// times the line `Parts` and its parts; behind `Archive` an archive of so many octets.
#[derive(Clone, Copy, Debug, PartialEq, Eq)]
pub enum Answer {
    /// It speaks version 1, and either takes records or does not.
    Hello { is_read_only: bool },
    /// The parts of a range.
    Parts { parts: u64 },
    /// The finer parts of each of some ranges.
    Cuts { ranges: u64 },
    /// The records of some ranges.
    Archive { octets: u64 },
    /// What was handed over is kept.
    Kept,
    /// What was handed over is not taken.
    Refused,
    /// It could not answer, and ends.
    Failed,
}

impl Answer {
    /// The answer that a line without its line feed is.
    pub fn of_line(line: &[u8]) -> Option<Answer>
        ensures { MatchOption result ((a : the_answer) → IsAnswer a → line.now ≢ answer_words a)
            (λ a. IsAnswer a × (line.now ≡ answer_words a)) }
    {
        if is(line, b"kept") {
            return Some(Answer::Kept);
        }
        if is(line, b"refused") {
            return Some(Answer::Refused);
        }
        if is(line, b"failed") {
            return Some(Answer::Failed);
        }
        if is(line, b"syslogbox answer 1") {
            return Some(Answer::Hello {
                is_read_only: false,
            });
        }
        if is(line, b"syslogbox answer 1 read-only") {
            return Some(Answer::Hello { is_read_only: true });
        }
        if let Some(parts) = number_behind(line, b"parts ") {
            return Some(Answer::Parts { parts });
        }
        if let Some(ranges) = number_behind(line, b"cuts ") {
            return Some(Answer::Cuts { ranges });
        }
        if let Some(octets) = number_behind(line, b"archive ") {
            return Some(Answer::Archive { octets });
        }
        None
    }
}

/// Puts the line of an answer behind a text. It fails only when out of memory.
pub fn write_answer(text: &mut Vec<u8>, answer: Answer) -> Result<(), AllocError>
    ensures { OnOk result (text.new.items ≡ text.old.items ++ answer_text answer) }
{
    match answer {
        Answer::Hello {
            is_read_only: false,
        } => put(text, b"syslogbox answer 1\n"),
        Answer::Hello { is_read_only: true } => put(text, b"syslogbox answer 1 read-only\n"),
        Answer::Parts { parts } => {
            put(text, b"parts ")?;
            put_number(text, parts, b"\n")
        }
        Answer::Cuts { ranges } => {
            put(text, b"cuts ")?;
            put_number(text, ranges, b"\n")
        }
        Answer::Archive { octets } => {
            put(text, b"archive ")?;
            put_number(text, octets, b"\n")
        }
        Answer::Kept => put(text, b"kept\n"),
        Answer::Refused => put(text, b"refused\n"),
        Answer::Failed => put(text, b"failed\n"),
    }
}
