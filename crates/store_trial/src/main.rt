//! Trials of stores on the system's files, for scripts. `keep` does what a server does with its disk,
//! driven by standard input and without sockets; `crashed` opens folders as a crash left them.
//!
//! Each line of the output is written before anything else is done, so a script that ends the
//! process knows what was reported as committed.
#![tactic(auto)]

mod crashed;
mod folder;
mod keeper;
mod keeping;

use anyhow::{Context, Result, bail};
use std::env;
use std::process::ExitCode;

const USAGE: &str = "usage: store_trial keep DIR BATCH CHECKPOINT
       store_trial read DIR
       store_trial crashed";

// A number among the words.
fn number(word: &str) -> Result<u64> {
    word.parse::<u64>().context("a number is wanted")
}

fn run(rt: &HostRuntime, words: &[String]) -> Result<()> {
    match words {
        [mode, dir, batch, checkpoint] if mode.as_str() == "keep" => {
            let limits = keeping::Limits {
                batch: number(batch.as_str())?,
                checkpoint: number(checkpoint.as_str())?,
            };
            keeping::keep(rt, dir.as_str(), limits)
        }
        [mode, dir] if mode.as_str() == "read" => folder::print_archive(rt, dir.as_str()),
        [mode] if mode.as_str() == "crashed" => crashed::open_each(rt),
        _ => bail!("{USAGE}"),
    }
}

fn main(rt: HostRuntime) -> ExitCode {
    let Ok(args) = env::args(&rt) else {
        return ExitCode::from(2);
    };
    let Ok(words) = args.skip(1).collect::<Vec<String>>(rt.alloc()) else {
        return ExitCode::from(3);
    };
    match run(&rt, &words) {
        Ok(()) => ExitCode::SUCCESS,
        Err(error) => {
            let _ = eprintln!(rt; "{error:#}");
            ExitCode::from(2)
        }
    }
}
