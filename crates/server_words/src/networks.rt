//! Whom a server takes records from.

ghost use Rattle.std.specs.Prelude.{◌≡◌, ◌++◌, IfOk, map, option_map};
ghost use Rattle.std.specs.Result.{result_ok};
ghost use Rattle.clap.specs.Words.{found_of, rows_of};
ghost use Rattle.option_values.specs.Values.{all_given};
ghost use Rattle.server_words.specs.Networks.{network_asked, network_in, networks_in};

use clap::ArgMatches;
use option_values::options::ALLOW;
use option_values::{Refusal, values};
use peer_rules::{Network, NetworkFault};
use std::alloc::{AllocError, Global};

// The network that a text writes.
fn network(text: &str) -> Result<Network, Refusal<'_>>
    ensures { option_map network_asked (result_ok result) ≡ network_in text.now }
{
    match text.parse::<Network>() {
        Ok(network) => Ok(network),
        Err(NetworkFault::HostBits(network)) => Err(Refusal::HostBits {
            option: ALLOW,
            text,
            network,
        }),
        Err(NetworkFault::Address | NetworkFault::Length) => Err(ALLOW.refuses(ALLOW.kind, text)),
    }
}

// The networks of these texts.
fn networks_of<'a>(
    alloc: Global,
    texts: &[&'a str],
) -> Result<Result<Vec<Network>, Refusal<'a>>, AllocError>
    ensures { IfOk result (λ r. option_map (λ v. map network_asked v.items) (result_ok r)
        ≡ all_given (map (λ s. network_in s.now) texts.now)) }
{
    let mut networks = Vec::new(alloc);
    for text in texts {
        match network(text) {
            Ok(network) => networks.push(network)?,
            Err(refusal) => return Ok(Err(refusal)),
        }
    }
    Ok(Ok(networks))
}

/// The networks of `--allow`, in the order of its values; there may be none.
pub(crate) fn networks<'a>(
    alloc: Global,
    matches: &ArgMatches<'a>,
) -> Result<Result<Vec<Network>, Refusal<'a>>, AllocError>
    ensures { IfOk result (λ r. option_map (λ v. map network_asked v.items) (result_ok r)
        ≡ networks_in (rows_of (found_of matches.now))) }
{
    match values(matches, ALLOW.name) {
        Some(texts) => networks_of(alloc, texts),
        None => Ok(Ok(Vec::new(alloc))),
    }
}
