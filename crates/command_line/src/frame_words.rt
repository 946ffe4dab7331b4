//! The words of the commands that read frames: `check`, `show`, `convert` and `archive`.

ghost use Rattle.std.specs.Prelude.{◌≡◌, codes, option_map};
ghost use Rattle.std.specs.Result.{result_ok};
ghost use Rattle.clap.specs.Walk.{first_of};
ghost use Rattle.clap.specs.Words.{found_of, rows_of};
ghost use Rattle.command_line.specs.Requests.{archive_by, asked_by, framing_of, input_framing_in};
ghost use Rattle.command_line.specs.Requests.{input_framing_of, limit_in, own_framing, read_archive, read_check};
ghost use Rattle.command_line.specs.Requests.{read_convert, read_show, to_of};

use crate::reading::color_of_matches;
use crate::request::{FrameCommand, FrameRequest, Request};
use clap::ArgMatches;
use driver::ReadLimit;
use frame_engine::InputFraming;
use option_values::options::{ENDLESS, FRAMING, JSON, MEMORY, OUTPUT_FRAMING, SPILL, SUMMARY};
use option_values::{Refusal, is_given, needed, number, reading_of_matches, value};
use syslog_frame::Framing;
use syslog_legacy::FrameReading;

// The framing of a stream with this name; None for any other text.
fn framing(name: &str) -> Option<Framing>
    ensures { result ≡ framing_of name.now }
{
    match name {
        "counted" => Some(Framing::Counted),
        "lf" => Some(Framing::Lf),
        _ => None,
    }
}

// The framing of an input with this name; None for any other text.
fn input_framing(name: &str) -> Option<InputFraming>
    ensures { result ≡ input_framing_of name.now }
{
    match name {
        "datagram" => Some(InputFraming::Datagram),
        _ => Some(InputFraming::Stream(framing(name)?)),
    }
}

// The value of `--framing`.
fn input_framing_of_matches<'a>(matches: &ArgMatches<'a>) -> Result<InputFraming, Refusal<'a>>
    ensures { result_ok result ≡ input_framing_in (rows_of (found_of matches.now)) }
{
    let name = needed(matches, &FRAMING)?;
    match input_framing(name) {
        Some(framing) => Ok(framing),
        None => Err(FRAMING.refuses(FRAMING.kind, name)),
    }
}

// How much of the input is read.
fn read_limit(matches: &ArgMatches<'_>) -> ReadLimit
    ensures { result ≡ limit_in (rows_of (found_of matches.now)) }
{
    if is_given(matches, ENDLESS.name) {
        ReadLimit::Unlimited
    } else {
        ReadLimit::Standard
    }
}

/// The request of `check`.
pub fn read_check_words<'a>(matches: &ArgMatches<'a>) -> Result<Request<'a>, Refusal<'a>>
    ensures { option_map asked_by (result_ok result) ≡ read_check (rows_of (found_of matches.now)) }
{
    let input_framing = input_framing_of_matches(matches)?;
    let reading = reading_of_matches(matches)?;
    Ok(Request::Frames(FrameRequest {
        input_framing,
        limit: read_limit(matches),
        reading,
        command: FrameCommand::Check {
            summary: is_given(matches, SUMMARY.name),
        },
    }))
}

// The framing of an input, as one of frames; a datagram has none.
fn own_framing(input_framing: InputFraming) -> Option<Framing>
    ensures { result ≡ own_framing input_framing }
{
    match input_framing {
        InputFraming::Datagram => None,
        InputFraming::Stream(framing) => Some(framing),
    }
}

// The framing of the output, by the value of `--to`. Without `--to` the output has the framing of the
// input.
fn to_of_matches<'a>(
    matches: &ArgMatches<'a>,
    input_framing: InputFraming,
) -> Result<Option<Framing>, Refusal<'a>>
    ensures { result_ok result
        ≡ to_of input_framing (first_of (codes "to") (rows_of (found_of matches.now))) }
{
    let Some(name) = value(matches, OUTPUT_FRAMING.name) else {
        return Ok(own_framing(input_framing));
    };
    match framing(name) {
        Some(framing) => Ok(Some(framing)),
        None => Err(OUTPUT_FRAMING.refuses(OUTPUT_FRAMING.kind, name)),
    }
}

/// The request of `convert`.
pub fn read_convert_words<'a>(matches: &ArgMatches<'a>) -> Result<Request<'a>, Refusal<'a>>
    ensures { option_map asked_by (result_ok result) ≡ read_convert (rows_of (found_of matches.now)) }
{
    let input_framing = input_framing_of_matches(matches)?;
    let reading = reading_of_matches(matches)?;
    let to = to_of_matches(matches, input_framing)?;
    Ok(Request::Frames(FrameRequest {
        input_framing,
        limit: read_limit(matches),
        reading,
        command: FrameCommand::Convert { to },
    }))
}

/// The request of `show`.
pub fn read_show_words<'a>(matches: &ArgMatches<'a>) -> Result<Request<'a>, Refusal<'a>>
    ensures { option_map asked_by (result_ok result) ≡ read_show (rows_of (found_of matches.now)) }
{
    let input_framing = input_framing_of_matches(matches)?;
    let reading = reading_of_matches(matches)?;
    let color = color_of_matches(matches)?;
    Ok(Request::Frames(FrameRequest {
        input_framing,
        limit: read_limit(matches),
        reading,
        command: FrameCommand::Show {
            json: is_given(matches, JSON.name),
            color,
        },
    }))
}

// The request of `archive`, by the folder that a set larger than memory spills into.
fn archive_by<'a>(
    input_framing: InputFraming,
    reading: FrameReading,
    memory_mib: u32,
    spill: Option<&'a str>,
) -> Request<'a>
    ensures { asked_by result
        ≡ archive_by reading input_framing memory_mib (option_map (λ s. s.now) spill.entry) }
{
    match spill {
        None => Request::Frames(FrameRequest {
            input_framing,
            limit: ReadLimit::Standard,
            reading,
            command: FrameCommand::Archive,
        }),
        Some(dir) => Request::SpillArchive {
            input_framing,
            reading,
            dir,
            memory_mib,
        },
    }
}

/// The request of `archive`.
pub fn read_archive_words<'a>(matches: &ArgMatches<'a>) -> Result<Request<'a>, Refusal<'a>>
    ensures { option_map asked_by (result_ok result) ≡ read_archive (rows_of (found_of matches.now)) }
{
    let input_framing = input_framing_of_matches(matches)?;
    let reading = reading_of_matches(matches)?;
    let memory_mib = number(matches, &MEMORY)?;
    let spill = value(matches, SPILL.name);
    Ok(archive_by(input_framing, reading, memory_mib, spill))
}
