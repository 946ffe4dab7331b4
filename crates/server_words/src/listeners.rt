//! What a server listens on, by the options that name it.

ghost use Rattle.std.specs.Prelude.{◌≡◌, ◌++◌, IfOk, map, option_map};
ghost use Rattle.std.specs.Result.{result_ok};
ghost use Rattle.clap.specs.Words.{found_of, rows_of};
ghost use Rattle.server_words.specs.Listeners.{all_asked, asked_in, inherited_of, listener_asked, listener_of};
ghost use Rattle.option_values.specs.Values.{all_given};
ghost use Rattle.server_words.specs.Listeners.{listeners_in, name_of};

use crate::address::address;
use clap::ArgMatches;
use option_values::options::{COUNTED, INHERITED, LF, UDP, UNIX};
use option_values::{OptionRow, Refusal, values};
use std::alloc::{AllocError, Global};
use std::net::SocketAddr;

/// What kind of descriptor a service manager hands over.
#[derive(Clone, Copy, Debug, PartialEq, Eq)]
pub enum InheritedKind {
    /// A datagram socket, of UDP or at a path.
    Udp,
    /// A listening TCP socket, whose streams are octet-counted.
    Counted,
    /// A listening TCP socket, whose streams are lines.
    Lf,
}

/// A socket that a server is to listen on. A path is lent by the words.
#[derive(Clone, Copy, Debug, PartialEq, Eq)]
pub enum ListenerWords<'a> {
    /// `--udp`: datagrams to an address.
    Udp(SocketAddr),
    /// `--counted`: connections to an address, whose streams are octet-counted.
    Counted(SocketAddr),
    /// `--lf`: connections to an address, whose streams are lines.
    Lf(SocketAddr),
    /// `--unix`: datagrams to a socket at a path.
    Unix(&'a str),
    /// `--inherited`: a descriptor that is handed over; the first of them is descriptor 3.
    Inherited(InheritedKind),
}

// The options that name listeners.
#[derive(Clone, Copy)]
pub(crate) enum ListenerOption {
    Udp,
    Counted,
    Lf,
    Unix,
    Inherited,
}

// The row of an option.
fn row_of(option: ListenerOption) -> OptionRow
    ensures { result.name.now ≡ name_of option }
{
    match option {
        ListenerOption::Udp => UDP,
        ListenerOption::Counted => COUNTED,
        ListenerOption::Lf => LF,
        ListenerOption::Unix => UNIX,
        ListenerOption::Inherited => INHERITED,
    }
}

// The kind of descriptor with this name, `udp`, `counted` or `lf`; None for any other text.
fn inherited(name: &str) -> Option<InheritedKind>
    ensures { result ≡ inherited_of name.now }
{
    match name {
        "udp" => Some(InheritedKind::Udp),
        "counted" => Some(InheritedKind::Counted),
        "lf" => Some(InheritedKind::Lf),
        _ => None,
    }
}

// What the value of an option asks to listen on.
fn listener<'a>(option: ListenerOption, text: &'a str) -> Option<ListenerWords<'a>>
    ensures { option_map listener_asked result ≡ listener_of option text.now }
{
    match option {
        ListenerOption::Udp => Some(ListenerWords::Udp(address(text)?)),
        ListenerOption::Counted => Some(ListenerWords::Counted(address(text)?)),
        ListenerOption::Lf => Some(ListenerWords::Lf(address(text)?)),
        ListenerOption::Unix if text.is_empty() => None,
        ListenerOption::Unix => Some(ListenerWords::Unix(text)),
        ListenerOption::Inherited => Some(ListenerWords::Inherited(inherited(text)?)),
    }
}

// The listeners with those of an option's values behind them.
fn with_texts<'a>(
    option: ListenerOption,
    texts: &[&'a str],
    listeners: Vec<ListenerWords<'a>>,
) -> Result<Result<Vec<ListenerWords<'a>>, Refusal<'a>>, AllocError>
    ensures { IfOk result (λ r. option_map (λ v. map listener_asked v.items) (result_ok r)
        ≡ option_map (λ more. map listener_asked listeners.entry.items ++ more)
        (all_given (map (λ s. listener_of option s.now) texts.now))) }
{
    let mut listeners = listeners;
    for text in texts {
        let Some(listener) = listener(option, text) else {
            let row = row_of(option);
            return Ok(Err(row.refuses(row.kind, text)));
        };
        listeners.push(listener)?;
    }
    Ok(Ok(listeners))
}

// The listeners with those of an option behind them.
fn with_option<'a>(
    option: ListenerOption,
    matches: &ArgMatches<'a>,
    listeners: Vec<ListenerWords<'a>>,
) -> Result<Result<Vec<ListenerWords<'a>>, Refusal<'a>>, AllocError>
    ensures { IfOk result (λ r. option_map (λ v. map listener_asked v.items) (result_ok r)
        ≡ option_map (λ more. map listener_asked listeners.entry.items ++ more)
        (all_given (asked_in option (rows_of (found_of matches.now))))) }
{
    match values(matches, row_of(option).name) {
        Some(texts) => with_texts(option, texts, listeners),
        None => Ok(Ok(listeners)),
    }
}

// The listeners with those of these options behind them.
fn with_options<'a>(
    options: &[ListenerOption],
    matches: &ArgMatches<'a>,
    listeners: Vec<ListenerWords<'a>>,
) -> Result<Result<Vec<ListenerWords<'a>>, Refusal<'a>>, AllocError>
    ensures { IfOk result (λ r. option_map (λ v. map listener_asked v.items) (result_ok r)
        ≡ option_map (λ more. map listener_asked listeners.entry.items ++ more)
        (all_given (all_asked options.now (rows_of (found_of matches.now))))) }
{
    let mut listeners = listeners;
    for option in options {
        match with_option(*option, matches, listeners)? {
            Ok(more) => listeners = more,
            Err(refusal) => return Ok(Err(refusal)),
        }
    }
    Ok(Ok(listeners))
}

/// What the options ask to listen on: those of `--udp`, then `--counted`, `--lf`, `--unix` and
/// `--inherited`, each in the order of its values; there may be none.
pub(crate) fn listeners<'a>(
    alloc: Global,
    matches: &ArgMatches<'a>,
) -> Result<Result<Vec<ListenerWords<'a>>, Refusal<'a>>, AllocError>
    ensures { IfOk result (λ r. option_map (λ v. map listener_asked v.items) (result_ok r)
        ≡ listeners_in (rows_of (found_of matches.now))) }
{
    let options = [
        ListenerOption::Udp,
        ListenerOption::Counted,
        ListenerOption::Lf,
        ListenerOption::Unix,
        ListenerOption::Inherited,
    ];
    with_options(&options, matches, Vec::new(alloc))
}
