//! Reads syslog records and writes them in their one canonical form.
#![tactic(auto)]

mod adding;
mod ago;
mod askers;
mod collect;
mod colors;
mod columns;
mod copies;
mod copy_disk;
mod descriptors;
mod disk_files;
mod entries;
mod errors;
mod flushing;
mod follow;
mod followed_folder;
mod ledgers;
mod meter;
mod metered_store;
mod notes;
mod opening;
mod outputs;
mod refused;
mod rooms;
mod serve;
mod service_manager;
mod shared_disk;
mod sites;
mod spill;
mod stores;
mod telling;
mod time;
mod timed_pipe;
mod watched;

use command_line::{FileRequest, FrameCommand, FrameRequest, Invocation, Request, read_words};
use commands::{answer_words_fault, run_request};
use descriptors::{can_be_written, occupy_closed_descriptors};
use disk_files::{DiskFiles, UnopenedFile};
use driver::{FAULT, NO_MEMORY, report};
use errors::QuietErrors;
use meter::{ClearedWriter, Meter, MeteredOutput, MeteredReader, SharedMeter, stdin_octets};
use octet_devices::{FromRead, ToWrite};
use std::cell::RefCell;
use std::io::{Stderr, Stdout};
use std::process::ExitCode;
use std::{env, io};
use store_engine::line_on;

// The arguments without the program's name, with timestamps for times that count back from now; or the
// exit status where they cannot be read.
fn program_args(rt: &HostRuntime) -> Result<Vec<String>, u8> {
    let args = match env::args(rt) {
        Ok(args) => args,
        Err(error) if error.kind() == io::ErrorKind::OutOfMemory => return Err(NO_MEMORY),
        Err(_) => return Err(FAULT),
    };
    let words = args.skip(1).collect(rt.alloc());
    match words.and_then(|words| ago::with_times(rt, rt.alloc(), words)) {
        Ok(words) => Ok(words),
        Err(_) => Err(NO_MEMORY),
    }
}

// Whether the reason may follow the line on a file that was not opened. What `merge` and `migrate` print
// is that line alone.
fn may_tell_why(request: &Request<'_>) -> bool {
    match request {
        Request::Files(FileRequest::Merge { .. } | FileRequest::Migrate { .. }) => false,
        Request::Files(_) | Request::Prove { .. } | Request::Confirm { .. } => true,
        _ => false,
    }
}

// The meter of a request on archives; None for others, and where no line is wanted or can be drawn.
fn meter_of<'r>(
    rt: &'r HostRuntime,
    request: &Request<'_>,
    is_quiet: bool,
) -> Option<RefCell<Meter<'r>>> {
    match request {
        Request::Files(_) => Meter::of_files(rt, is_quiet),
        Request::Frames(
            FrameRequest {
                command: FrameCommand::Archive,
                ..
            },
        )
        | Request::Select { .. }
        | Request::Digest { .. }
        | Request::Count { .. }
        | Request::Root
        | Request::Prove { .. }
        | Request::Confirm { .. } => Meter::of_input(rt, is_quiet),
        _ => None,
    }
}

// Runs a request on standard input and files, whose octets a meter counts, and tells why a file was not
// opened. Returns the exit status.
fn on_metered_files(rt: &HostRuntime, request: Request<'_>, meter: SharedMeter<'_, '_>) -> u8 {
    let tells_why = may_tell_why(&request);
    if !matches!(request, Request::Files(_)) {
        meter.expect_more(stdin_octets(rt));
    }
    let mut input = FromRead::new(MeteredReader {
        reader: rt.stdin(),
        meter,
    });
    let mut output = ToWrite::new(MeteredOutput::new(rt.stdout(), meter));
    let mut diagnostics = ToWrite::new(ClearedWriter {
        writer: rt.stderr(),
        meter,
    });
    let mut files = DiskFiles::new(rt, rt.alloc(), meter);
    let status = run_request(
        rt.alloc(),
        request,
        &mut input,
        &mut output,
        &mut diagnostics,
        &mut files,
    );
    meter.clear();
    match files.unopened() {
        Some(UnopenedFile { name, error }) if tells_why => {
            match line_on(rt.alloc(), name.as_str(), error) {
                Ok(line) => report(&mut diagnostics, line.as_bytes(), status),
                Err(_) => status,
            }
        }
        _ => status,
    }
}

// The same, with a meter where the request has one.
fn on_files(rt: &HostRuntime, request: Request<'_>, is_quiet: bool) -> u8 {
    let meter = meter_of(rt, &request, is_quiet);
    on_metered_files(rt, request, SharedMeter::new(meter.as_ref()))
}

// The same command on frames, which colors what it shows always or never, as the terminal and the environment
// have it.
fn colored(rt: &HostRuntime, command: FrameCommand) -> FrameCommand {
    match command {
        FrameCommand::Show { json, color } => FrameCommand::Show {
            json,
            color: colors::settled(rt, color),
        },
        command => command,
    }
}

// Runs a request on a store, or one on standard input and files. Returns the exit status.
fn run_on_store(
    rt: &HostRuntime,
    request: Request<'_>,
    is_quiet: bool,
    output: &mut ToWrite<Stdout>,
    diagnostics: &mut ToWrite<Stderr>,
) -> u8 {
    let alloc = rt.alloc();
    match request {
        Request::Read {
            dir,
            conditions,
            words,
        } => {
            let mut diagnostics = ToWrite::new(QuietErrors::new(rt));
            let options = stores::read_options(rt, conditions, words);
            stores::read(rt, alloc, dir, &options, output, &mut diagnostics)
        }
        Request::Follow {
            dir,
            conditions,
            words,
        } => follow::follow(rt, alloc, dir, &conditions, words, output, diagnostics),
        Request::Verify { dir, against } => stores::verify(rt, alloc, dir, against, is_quiet),
        Request::Stat { dir } => stores::stat(rt, alloc, dir, output, diagnostics),
        Request::Compact { dir } => stores::compact(rt, alloc, dir, is_quiet),
        Request::Expire { dir, words } => stores::expire(rt, alloc, dir, words, is_quiet),
        Request::Seal { dir, before } => stores::seal(rt, alloc, dir, before, is_quiet),
        Request::Add { dir } => adding::add(rt, alloc, dir, is_quiet),
        Request::Reconcile { dir, words } => sites::reconcile(rt, alloc, dir, &words),
        Request::Answer { dir, words } => sites::answer(rt, alloc, dir, &words),
        Request::Backup { dir, to } => copies::backup(rt, alloc, dir, to, diagnostics),
        request => on_files(rt, request, is_quiet),
    }
}

// Runs a request, and returns the exit status.
fn run(
    rt: &HostRuntime,
    request: Request<'_>,
    is_quiet: bool,
    output: &mut ToWrite<Stdout>,
    diagnostics: &mut ToWrite<Stderr>,
) -> u8 {
    match request {
        Request::Frames(frames) => {
            let command = colored(rt, frames.command);
            let frames = FrameRequest { command, ..frames };
            on_files(rt, Request::Frames(frames), is_quiet)
        }
        Request::SpillArchive {
            input_framing,
            reading,
            dir,
            memory_mib,
        } => {
            let room = spill::Room { dir, memory_mib };
            spill::archive(rt, rt.alloc(), input_framing, reading, &room, is_quiet)
        }
        Request::Count { options } => {
            let options = columns::fitted(rt, options);
            on_files(rt, Request::Count { options }, is_quiet)
        }
        Request::Collect { .. } if !can_be_written(rt) => {
            report(diagnostics, b"write fault\n", FAULT)
        }
        Request::Collect { words } => {
            collect::collect(rt, rt.alloc(), &words, output, diagnostics)
        }
        Request::Serve { words } => serve::serve(rt, &words),
        request => run_on_store(rt, request, is_quiet, output, diagnostics),
    }
}

fn main(rt: HostRuntime) -> ExitCode {
    let mut diagnostics = ToWrite::new(rt.stderr());
    if occupy_closed_descriptors(&rt).is_err() {
        let line = b"error: a standard descriptor is closed, and /dev/null cannot be opened\n";
        return ExitCode::from(report(&mut diagnostics, line, FAULT));
    }
    let args = match program_args(&rt) {
        Ok(args) => args,
        Err(NO_MEMORY) => {
            return ExitCode::from(report(&mut diagnostics, b"want of memory\n", NO_MEMORY));
        }
        Err(_) => {
            let line = b"error: an argument is not UTF-8\n";
            return ExitCode::from(report(&mut diagnostics, line, FAULT));
        }
    };
    let mut output = ToWrite::new(rt.stdout());
    let status = match read_words(rt.alloc(), args.as_slice()) {
        Ok(Invocation { request, is_quiet }) => {
            run(&rt, request, is_quiet, &mut output, &mut diagnostics)
        }
        Err(fault) => answer_words_fault(&fault, &mut output, &mut diagnostics),
    };
    ExitCode::from(status)
}
