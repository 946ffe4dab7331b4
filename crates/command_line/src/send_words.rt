//! The words of `send`.

ghost use Rattle.std.specs.Prelude.{◌≡◌, option_map};
ghost use Rattle.std.specs.Result.{result_ok};
ghost use Rattle.clap.specs.Words.{found_of, rows_of};
ghost use Rattle.command_line.specs.Requests.{asked_by, read_send};

use crate::request::Request;
use clap::ArgMatches;
use option_values::options::{
    MESSAGE, MICROS, SENT_APP, SENT_FACILITY, SENT_FRAMING, SENT_HOST, SENT_MSGID, SENT_PROC,
    SENT_SEVERITY, UP_TO,
};
use option_values::{Refusal, needed, value};
use send_engine::SendOptions;

/// The request of `send`, with the texts of its options, which are not read yet.
pub fn read_send_words<'a>(matches: &ArgMatches<'a>) -> Result<Request<'a>, Refusal<'a>>
    ensures { option_map asked_by (result_ok result) ≡ read_send (rows_of (found_of matches.now)) }
{
    let facility = needed(matches, &SENT_FACILITY)?;
    let severity = needed(matches, &SENT_SEVERITY)?;
    let up_to = needed(matches, &UP_TO)?;
    let framing = needed(matches, &SENT_FRAMING)?;
    let text = needed(matches, &MESSAGE)?;
    let options = SendOptions {
        facility,
        severity,
        up_to,
        hostname: value(matches, SENT_HOST.name),
        app_name: value(matches, SENT_APP.name),
        proc_id: value(matches, SENT_PROC.name),
        msg_id: value(matches, SENT_MSGID.name),
        micros: value(matches, MICROS.name),
        framing,
        text,
    };
    Ok(Request::Send { options })
}
