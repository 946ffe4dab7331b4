//! The words of the program.

mod archives;
mod collecting;
mod conditions;
mod frames;
mod quiet;
mod reading;
mod refusals;
mod servers;
mod sites;
mod stores;

use command_line::{Invocation, Request, WordsFault, read_words};
use std::test::Fail;

// what words ask for
pub(crate) fn asked<'a>(rt: &HostRuntime, words: &'a [&'a str]) -> Result<Request<'a>, WordsFault> {
    match read_words(rt.alloc(), words) {
        Ok(Invocation { request, .. }) => Ok(request),
        Err(fault) => Err(fault),
    }
}

// whether words ask for nothing to be told of how far it is
pub(crate) fn is_quiet(rt: &HostRuntime, words: &[&str]) -> Option<bool> {
    match read_words(rt.alloc(), words) {
        Ok(Invocation { is_quiet, .. }) => Some(is_quiet),
        Err(_) => None,
    }
}

// whether the words are no request
pub(crate) fn refuses(rt: &HostRuntime, words: &[&str]) -> bool {
    matches!(asked(rt, words), Err(WordsFault::Usage(_)))
}

// fails at the first row that is a request
pub(crate) fn refuses_all(rt: &HostRuntime, rows: &[&[&str]]) -> Result<(), Fail> {
    for words in rows {
        if !refuses(rt, words) {
            return Err(Fail::new(format_args!("taken: {words:?}")));
        }
    }
    Ok(())
}
