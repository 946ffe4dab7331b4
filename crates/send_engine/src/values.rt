//! The values that the texts of options stand for.

ghost use Rattle.std.specs.Prelude.{◌≡◌, ◌<◌, ℤ, length, IfErr, IfOk, MatchOption, OnErr, Option, option_map};
ghost use Rattle.std.specs.Option.{ForSome};
ghost use Rattle.syslog_value.specs.Facilities.{IsNoFacilityName, facility_name};
ghost use Rattle.syslog_value.specs.Parts.{IsWord};
ghost use Rattle.syslog_value.specs.Severities.{IsNoSeverityName, severity_name};
ghost use Rattle.syslog_frame.specs.declared.framing.Framing.{Framing};
ghost use Rattle.send_engine.specs.Options.{IsMicros, IsTime, Name, NameNothing, OptionValues, framing_name};
ghost use Rattle.send_engine.specs.Options.{texts_of};
ghost use Rattle.send_engine.specs.Values.{IsMade, IsRefusal, NamesSender};
ghost use Rattle.syslog_value.specs.declared.facility.Facility.{Facility};
ghost use Rattle.syslog_value.specs.declared.severity.Severity.{Severity};

use crate::options::SendOptions;
use std::alloc::{AllocError, Global};
use syslog_frame::Framing;
use syslog_sender::Sender;
use syslog_value::{Facility, Instant, Mask, Priority, Severity, Word, WordFault};

/// An option that takes only some texts.
#[derive(Clone, Copy, Debug, PartialEq, Eq)]
pub enum Restricted {
    /// `--facility`: the short name of a facility.
    Facility,
    /// `--severity`: the short name of a severity.
    Severity,
    /// `--up-to`: the short name of a severity.
    UpTo,
    /// `--host`: a word of at most 255 octets.
    Hostname,
    /// `--app`: a word of at most 48 octets.
    AppName,
    /// `--proc`: a word of at most 128 octets.
    ProcId,
    /// `--msgid`: a word of at most 32 octets.
    MsgId,
    /// `--micros`: microseconds from 1970-01-01T00:00:00Z, up to the end of the year 9999.
    Micros,
    /// `--framing`: `counted` or `lf`.
    Framing,
}

impl Restricted {
    /// What the option takes, as a text for the user.
    pub fn takes(self) -> &'static str
        ensures { 0 < length result.now }
    {
        match self {
            Restricted::Facility => {
                "error: invalid value for --facility: expected kern, user, mail, daemon, auth, \
                 syslog, lpr, news, uucp, cron, authpriv, ftp, ntp, audit, alert, clock or local0 \
                 to local7\n"
            }
            Restricted::Severity => {
                "error: invalid value for --severity: expected emerg, alert, crit, err, warning, \
                 notice, info or debug\n"
            }
            Restricted::UpTo => {
                "error: invalid value for --up-to: expected emerg, alert, crit, err, warning, \
                 notice, info or debug\n"
            }
            Restricted::Hostname => {
                "error: invalid value for --host: expected 1 to 255 printable ASCII characters \
                 without spaces, and not -\n"
            }
            Restricted::AppName => {
                "error: invalid value for --app: expected 1 to 48 printable ASCII characters \
                 without spaces, and not -\n"
            }
            Restricted::ProcId => {
                "error: invalid value for --proc: expected 1 to 128 printable ASCII characters \
                 without spaces, and not -\n"
            }
            Restricted::MsgId => {
                "error: invalid value for --msgid: expected 1 to 32 printable ASCII characters \
                 without spaces, and not -\n"
            }
            Restricted::Micros => {
                "error: invalid value for --micros: expected 0 to 253402300799999999 in decimal \
                 digits, microseconds from 1970-01-01T00:00:00Z\n"
            }
            Restricted::Framing => {
                "error: invalid value for --framing: expected counted or lf\n"
            }
        }
    }
}

/// Why options have no values.
#[derive(Clone, Copy, Debug)]
pub enum ValuesFault {
    /// The text is no value of this option.
    Refused(Restricted),
    /// An allocation failed.
    Memory,
}

impl From<AllocError> for ValuesFault {
    ghost use Rattle.std.specs.Prelude.{◌≡◌};
    ghost use Rattle.send_engine.specs.declared.values.ValuesFault.TheVariants.{Memory};

    ghost from_gives = { λ _ fault. fault ≡ Memory };

    fn from(_: AllocError) -> ValuesFault {
        ValuesFault::Memory
    }
}

/// What is sent, apart from the message, and by whom.
#[derive(Debug, Drop)]
pub struct Values {
    /// The sender, under its mask.
    pub sender: Sender,
    /// The severity of the record.
    pub severity: Severity,
    /// The instant of the record, if it has one.
    pub instant: Option<Instant>,
    /// MSGID of the record; None for NILVALUE.
    pub msg_id: Option<Word<32>>,
    /// How the record is framed.
    pub framing: Framing,
}

fn facility(name: &str) -> Result<Facility, ValuesFault>
    ensures ok { IfOk result (λ facility. facility_name facility ≡ name.now) }
    ensures err { OnErr result (IsNoFacilityName name.now) }
{
    match Facility::from_name(name) {
        Some(facility) => Ok(facility),
        None => Err(ValuesFault::Refused(Restricted::Facility)),
    }
}

// The severity with the name that is the value of an option.
fn severity(name: &str, option: Restricted) -> Result<Severity, ValuesFault>
    ensures ok { IfOk result (λ severity. severity_name severity ≡ name.now) }
    ensures err { OnErr result (IsNoSeverityName name.now) }
{
    match Severity::from_name(name) {
        Some(severity) => Ok(severity),
        None => Err(ValuesFault::Refused(option)),
    }
}

fn framing(name: &str) -> Result<Framing, ValuesFault>
    ensures ok { IfOk result (λ framing. framing_name framing ≡ name.now) }
    ensures err { OnErr result ((framing : Framing) → ¬ (framing_name framing ≡ name.now)) }
{
    match name {
        "counted" => Ok(Framing::Counted),
        "lf" => Ok(Framing::Lf),
        _ => Err(ValuesFault::Refused(Restricted::Framing)),
    }
}

// The word of the text of an option, where it has one.
fn word<const N: usize>(
    alloc: Global,
    text: Option<&str>,
    option: Restricted,
) -> Result<Option<Word<N>>, ValuesFault>
    ensures ok { IfOk result (λ word. (word ≡ option_map (λ s. s.now) text.entry)
        × ForSome (option_map (λ s. s.now) text.entry) (IsWord N)) }
    ensures err { IfErr result (λ fault. IsRefusal fault
        → ¬ (ForSome (option_map (λ s. s.now) text.entry) (IsWord N))) }
{
    let Some(text) = text else {
        return Ok(None);
    };
    match Word::new(alloc, text.as_bytes()) {
        Ok(word) => Ok(Some(word)),
        Err(WordFault::Memory) => Err(ValuesFault::Memory),
        Err(_) => Err(ValuesFault::Refused(option)),
    }
}

// The instant that decimal digits alone write.
fn instant(text: &str) -> Option<Instant>
    ensures { MatchOption result ((i : ℤ) → ¬ (IsMicros text.now i)) (IsMicros text.now) }
{
    if text.starts_with('+') {
        return None;
    }
    let Ok(micros) = text.parse::<u64>() else {
        return None;
    };
    if micros > 253_402_300_799_999_999 {
        return None;
    }
    Instant::from_micros(micros as i64)
}

fn time(text: Option<&str>) -> Result<Option<Instant>, ValuesFault>
    ensures ok { IfOk result (IsTime (option_map (λ s. s.now) text.entry)) }
    ensures err { OnErr result ((time : Option ℤ)
        → ¬ (IsTime (option_map (λ s. s.now) text.entry) time)) }
{
    let Some(text) = text else {
        return Ok(None);
    };
    match instant(text) {
        Some(instant) => Ok(Some(instant)),
        None => Err(ValuesFault::Refused(Restricted::Micros)),
    }
}

// A sender with these words.
fn sender(alloc: Global, options: &SendOptions<'_>) -> Result<Sender, ValuesFault>
    ensures ok { IfOk result (λ s. (facility : Facility) × (up_to : Severity)
        × NamesSender (texts_of options.now) facility up_to s) }
    ensures err { IfErr result (λ fault. IsRefusal fault → NameNothing (texts_of options.now)) }
{
    let facility = facility(options.facility)?;
    let up_to = severity(options.up_to, Restricted::UpTo)?;
    let hostname = word(alloc, options.hostname, Restricted::Hostname)?;
    let app_name = word(alloc, options.app_name, Restricted::AppName)?;
    let proc_id = word(alloc, options.proc_id, Restricted::ProcId)?;
    let mut sender = Sender::new(hostname, app_name, proc_id, facility);
    let _ = sender.set_mask(Mask::up_to(up_to));
    Ok(sender)
}

/// Reads the texts of the options. It fails if one is no value of its option, or out of memory.
pub fn read_values(alloc: Global, options: &SendOptions<'_>) -> Result<Values, ValuesFault>
    ensures ok { IfOk result (λ values. (v : OptionValues)
        × Name (texts_of options.now) v × IsMade (texts_of options.now) v values) }
    ensures err { IfErr result (λ fault. IsRefusal fault → NameNothing (texts_of options.now)) }
{
    Ok(Values {
        sender: sender(alloc, options)?,
        severity: severity(options.severity, Restricted::Severity)?,
        instant: time(options.micros)?,
        msg_id: word(alloc, options.msg_id, Restricted::MsgId)?,
        framing: framing(options.framing)?,
    })
}
