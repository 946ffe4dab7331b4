//! Trials of the libraries, for scripts: a call to be timed, or a run in which an allocation may
//! fail. No trial reports a time; the script that runs it measures the process.
#![tactic(auto)]

mod archive;
mod collect;
mod collect_pace;
mod collecting;
mod collector_calls;
mod grammar;
mod grow;
mod headline;
mod interleavings;
mod joining;
mod pace;
mod random;
mod record_set;
mod room;
mod route;
mod rows;
mod sample;
mod sampling;
mod turns;
mod value;

use std::alloc::Global;
use std::process::ExitCode;
use std::{env, io};

const USAGE: &str = "usage: fault_injection time scan counted|lf SIZE ROUNDS
       fault_injection time copy SIZE ROUNDS
       fault_injection time collect run|scan|add plain|elements ROUNDS
       fault_injection grow frame|value|grammar|archive|streams|migrate|collect
       fault_injection headline SEED ROUNDS
       fault_injection turns SEED
       fault_injection turns every PART PARTS";

/// The word at an index, or an empty word if there is none.
fn word(words: &[String], index: usize) -> &str {
    match words.get(index) {
        Some(word) => word.as_str(),
        None => "",
    }
}

/// Runs the trial that the words name.
fn run(rt: &impl Print, alloc: Global, words: &[String]) -> io::Result<()> {
    match (word(words, 0), word(words, 1)) {
        ("time", "scan") => {
            pace::scan(rt, alloc, word(words, 2), word(words, 3), word(words, 4))
        }
        ("time", "copy") => pace::copy(rt, alloc, word(words, 2), word(words, 3)),
        ("time", "collect") => {
            collect_pace::collect(rt, alloc, word(words, 2), word(words, 3), word(words, 4))
        }
        ("grow", "frame") => grow::frame(rt, alloc),
        ("grow", "value") => value::value(rt, alloc),
        ("grow", "grammar") => grammar::grammar(rt, alloc),
        ("grow", "archive") => archive::archive(rt, alloc),
        ("grow", "streams") => joining::streams(rt, alloc),
        ("grow", "migrate") => joining::migration(rt, alloc),
        ("grow", "collect") => collect::collect(rt, alloc),
        ("headline", seed) => headline::headline(rt, alloc, seed, word(words, 2)),
        ("turns", "every") => interleavings::every_turn(rt, alloc, word(words, 2), word(words, 3)),
        ("turns", seed) => interleavings::turns(rt, alloc, seed),
        _ => println!(rt; "{USAGE}"),
    }
}

fn main(rt: HostRuntime) -> ExitCode {
    let Ok(args) = env::args(&rt) else {
        return ExitCode::from(2);
    };
    let Ok(words) = args.skip(1).collect::<Vec<String>>(rt.alloc()) else {
        return ExitCode::from(3);
    };
    match run(&rt, rt.alloc(), &words) {
        Ok(()) => ExitCode::SUCCESS,
        Err(_) => ExitCode::from(2),
    }
}
