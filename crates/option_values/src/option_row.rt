//! What the table says of an option, and the text for a value that it does not take.

use peer_rules::{Network, NetworkFault};
use std::alloc::{AllocError, Global};

/// How an option is given.
#[derive(Clone, Copy, Debug, PartialEq, Eq)]
pub enum Form {
    /// A value that has to be given, by its place.
    Positional,
    /// One value or more by their places, at most [`FILES_MAX`].
    Several,
    /// No value: it is given or not.
    Flag,
    /// A value, at most once.
    Single,
    /// A value, any number of times.
    List,
    /// A value, and this one where the option is not given.
    Default(&'static str),
}

/// How many values an option by places takes at most.
pub const FILES_MAX: usize = 512;

/// How many octets a pattern has at most.
pub const PATTERN_MAX: usize = 1_024;

/// What the value of an option may be.
#[derive(Clone, Copy, Debug, PartialEq, Eq)]
pub enum Kind {
    /// Any text.
    Text,
    /// The name of a file.
    File,
    /// The name of a folder.
    Folder,
    /// A number in decimal digits, from the first to the last.
    Number(u32, u32),
    /// A year, from the first to the last.
    Year(u32, u32),
    /// How many records an archive has: a number of 64 bits.
    Size,
    /// A SHA-256 in hexadecimal digits.
    Hash,
    /// Names of keys, with commas between them.
    Keys,
    /// An offset from UTC.
    Zone,
    /// A time of RFC 5424, or one of UTC without its zone, seconds or time of day.
    Time,
    /// An address and a port.
    Address,
    /// An address, or a network as an address, a slash and the length of its prefix.
    Network,
    /// The name of a facility.
    Facility,
    /// One of a few words, which the text lists.
    Words(&'static str),
    /// A word of at most so many octets (RFC 5424, section 6.2), or `-` for none.
    Word(usize),
    /// SD-ID (RFC 5424, section 6.3.2).
    Id,
    /// A text with at least one octet.
    NonEmpty,
    /// A pattern, in which `*` stands for any octets and `?` for any one octet.
    Pattern,
}

/// A row of the table of options.
#[derive(Clone, Copy, Debug, PartialEq, Eq)]
pub struct OptionRow {
    /// The name, in capitals where the value is given by its place.
    pub name: &'static str,
    /// How it is given.
    pub form: Form,
    /// What the manual calls its value.
    pub value: &'static str,
    /// What its value may be.
    pub kind: Kind,
    /// What it does, in one line.
    pub help: &'static str,
}

/// A row of the table of commands.
#[derive(Clone, Copy, Debug, PartialEq, Eq)]
pub struct CommandRow {
    /// The name.
    pub name: &'static str,
    /// What it does, in one line.
    pub about: &'static str,
    /// Its options, and its values by their places, in the order of its help.
    pub options: &'static [OptionRow],
}

/// Why values that the parser accepts ask for nothing.
#[derive(Clone, Copy, Debug, PartialEq, Eq)]
pub enum Refusal<'a> {
    /// An option does not take this value.
    Value {
        /// The option.
        option: OptionRow,
        /// What its value may be.
        kind: Kind,
        /// The value.
        text: &'a str,
    },
    /// A network has bits behind its prefix.
    HostBits {
        /// The option.
        option: OptionRow,
        /// The value.
        text: &'a str,
        /// The network that has the address.
        network: Network,
    },
    /// A value is missing that has to be there.
    Missing,
    /// No option of `serve` names a listener.
    NoListener,
    /// No option of `expire` says what is old.
    NoBound,
    /// No option of `seal` says which days are sealed.
    NoSealTime,
    /// An option was given beside another that excludes it.
    Excluded {
        /// The option.
        option: OptionRow,
        /// The other one.
        other: OptionRow,
    },
    /// The number of an option is greater than that of another.
    Above {
        /// The option.
        option: OptionRow,
        /// The option whose number bounds it.
        bound: OptionRow,
    },
}

impl OptionRow {
    /// The refusal of a value of the option, which would have to be of this kind.
    pub fn refuses<'a>(&self, kind: Kind, text: &'a str) -> Refusal<'a> {
        Refusal::Value {
            option: *self,
            kind,
            text,
        }
    }
}

// What a value of a kind is, as a text for the user.
fn expected(alloc: Global, kind: Kind) -> Result<String, AllocError> {
    match kind {
        Kind::Text => String::from_str(alloc, "a text"),
        Kind::File => String::from_str(alloc, "the name of a file"),
        Kind::Folder => String::from_str(alloc, "the name of a folder"),
        Kind::Number(first, last) => format!(in alloc; "a number from {first} to {last}"),
        Kind::Year(first, last) => format!(in alloc; "a year from {first} to {last}"),
        Kind::Size => String::from_str(alloc, "a number from 0 to 18446744073709551615"),
        Kind::Hash => String::from_str(alloc, "64 hexadecimal digits"),
        Kind::Keys => String::from_str(
            alloc,
            "one or more of host, app, proc, msgid, facility, severity, day, hour and minute, \
             with commas between them",
        ),
        Kind::Zone => String::from_str(
            alloc,
            "E or W, then hours and minutes in two digits each, such as E0130",
        ),
        Kind::Time => String::from_str(
            alloc,
            "a time in the years 0 to 9999 of UTC, such as 2026-11-25T10:00:00Z, \
             2026-11-25T10:00 or 2026-11-25",
        ),
        Kind::Address => String::from_str(
            alloc,
            "an address and a port, such as 127.0.0.1:514 or [::1]:514",
        ),
        Kind::Network => String::from_str(
            alloc,
            "an address or a network, such as 192.0.2.1, 192.0.2.0/24 or 2001:db8::/32",
        ),
        Kind::Facility => String::from_str(
            alloc,
            "kern, user, mail, daemon, auth, syslog, lpr, news, uucp, cron, authpriv, ftp, ntp, \
             audit, alert, clock or local0 to local7",
        ),
        Kind::Words(words) => String::from_str(alloc, words),
        Kind::Word(most) => format!(in alloc;
            "1 to {most} printable ASCII characters without spaces, or - for none"
        ),
        Kind::Id => String::from_str(
            alloc,
            "1 to 32 printable ASCII characters without spaces, =, ] and \"",
        ),
        Kind::NonEmpty => String::from_str(alloc, "a text that is not empty"),
        Kind::Pattern => format!(in alloc;
            "1 to {PATTERN_MAX} octets, of which * stands for any number of others and ? for one"
        ),
    }
}

// What stands before the name of an option, but not before that of a value by its place.
fn dashes(form: Form) -> &'static str {
    match form {
        Form::Positional | Form::Several => "",
        Form::Flag | Form::Single | Form::List | Form::Default(_) => "--",
    }
}

/// The text of a refusal. It fails only when out of memory.
pub fn refusal_text(alloc: Global, refusal: Refusal<'_>) -> Result<String, AllocError> {
    match refusal {
        Refusal::Value { option, kind, text } => {
            let dashes = dashes(option.form);
            let name = option.name;
            let expected = expected(alloc, kind)?;
            format!(in alloc;
                "error: invalid value '{text}' for {dashes}{name}: expected {expected}\n"
            )
        }
        Refusal::HostBits {
            option,
            text,
            network,
        } => {
            let name = option.name;
            let fault = NetworkFault::HostBits(network);
            format!(in alloc; "error: invalid value '{text}' for --{name}: {fault}\n")
        }
        Refusal::Missing => String::from_str(alloc, "error: a value is missing\n"),
        Refusal::NoListener => String::from_str(
            alloc,
            "error: serve needs a listener: --udp, --counted, --lf, --unix or --inherited\n",
        ),
        Refusal::NoBound => String::from_str(
            alloc,
            "error: expire needs one of --before, --keep and --room\n",
        ),
        Refusal::NoSealTime => String::from_str(alloc, "error: seal needs a time: --before\n"),
        Refusal::Excluded { option, other } => {
            let name = option.name;
            let other = other.name;
            format!(in alloc; "error: --{name} cannot be used with --{other}\n")
        }
        Refusal::Above { option, bound } => {
            let name = option.name;
            let most = bound.name;
            format!(in alloc; "error: the value of --{name} is greater than that of --{most}\n")
        }
    }
}
