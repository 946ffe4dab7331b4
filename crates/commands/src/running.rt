//! The program over any devices and files.

ghost use Rattle.std.specs.Prelude.{◌≡◌, Some, None, false, map, string_bytes, true};
ghost use Rattle.driver.specs.Devices.{devices};
ghost use Rattle.driver.specs.Run.{RanWithin, limits_by};
ghost use Rattle.frame_engine.specs.Checked.{check_handling, refused_line};
ghost use Rattle.frame_engine.specs.Converted.{noted_line};
ghost use Rattle.frame_engine.specs.Handling.{nothing_at_end};
ghost use Rattle.frame_engine.specs.Sessions.{handler_meaning};
ghost use Rattle.frame_engine.specs.Summaries.{check_end};
ghost use Rattle.octet_devices.specs.Device.{InputState};
ghost use Rattle.command_line.specs.Requests.{Asked, IsHelp, asked_by, asks_help, files_asked, frames_asked};
ghost use Rattle.command_line.specs.Requests.{may_ask_help, parsed};
ghost use Rattle.commands.specs.Runs.{RanAs, RanDigestBy, RanMergeFiles, RanMigrateFile, ReadsInput, TellsHelp, TellsUsage};
ghost use Rattle.commands.specs.Runs.{TellsWordsFault, WritesHelp, fields_by, show_by};
ghost use Rattle.commands.specs.Stored.{Stored};

use crate::files::Files;
use crate::joining::join_files;
use crate::proving::{confirm_file, prove_file};
use archive_engine::{archive_input, merge_archives, migrate_archive};
use archive_text::Period;
use colored_show::ColoredShow;
use command_line::{
    ColorWhen, FileRequest, FrameCommand, FrameRequest, Invocation, Request, WordsFault, read_words,
};
use driver::{DONE, FAULT, NO_MEMORY, report};
use frame_engine::{Check, CheckSummary, Convert, FrameSource, Show, ShowJson, Tally, scan_source};
use octet_devices::{Input, Output, write_all};
use proof_engine::root_archive;
use send_engine::send_text;
use set_engine::{
    Combination, count_archive, digest_archive, digest_archive_with_roots, select_archive,
};
use std::alloc::Global;
use syslog_legacy::FrameReading;

// Joins the archives of two files. Both are opened before either is read.
fn merge_files<W: Output, N: Output, F: Files>(
    alloc: Global,
    left: &str,
    right: &str,
    output: &mut W,
    diagnostics: &mut N,
    files: &mut F,
) -> u8
    ensures { RanMergeFiles (F.stored files.old) left.now right.now (W.state output.old)
        (W.state output.new) (N.state diagnostics.old) (N.state diagnostics.new) result }
{
    let Some(mut left) = files.reader(left) else {
        return report(diagnostics, b"left no file\n", FAULT);
    };
    let Some(mut right) = files.reader(right) else {
        return report(diagnostics, b"right no file\n", FAULT);
    };
    merge_archives(alloc, &mut left, &mut right, output, diagnostics)
}

// Brings the old archive of a file into the present form.
fn migrate_file<W: Output, N: Output, F: Files>(
    alloc: Global,
    file: &str,
    output: &mut W,
    diagnostics: &mut N,
    files: &mut F,
) -> u8
    ensures { RanMigrateFile (F.stored files.old) file.now (W.state output.old)
        (W.state output.new) (N.state diagnostics.old) (N.state diagnostics.new) result }
{
    let Some(mut old) = files.reader(file) else {
        return report(diagnostics, b"old no file\n", FAULT);
    };
    migrate_archive(alloc, &mut old, output, diagnostics)
}

// Writes the text that is asked for.
fn write_help<W: Output, N: Output>(text: &[u8], output: &mut W, diagnostics: &mut N) -> u8
    ensures { WritesHelp text.now (W.state output.old) (W.state output.new)
        (N.state diagnostics.old) (N.state diagnostics.new) result }
{
    match write_all(output, text) {
        Ok(()) => DONE,
        Err(_) => report(diagnostics, b"write fault\n", FAULT),
    }
}

/// Answers arguments that are no request, and returns the exit status: `DONE` if they ask for the help
/// or the version of a command, which goes to the output; else `FAULT`, or `NO_MEMORY` if memory ran
/// out, and the diagnostics say why.
pub fn answer_words_fault<W: Output, N: Output>(
    fault: &WordsFault,
    output: &mut W,
    diagnostics: &mut N,
) -> u8
    ensures tells { TellsWordsFault fault.now (W.state output.old) (W.state output.new)
        (N.state diagnostics.old) (N.state diagnostics.new) result }
    ensures kept { ¬ (IsHelp fault.now) → output.new ≡ output.old }
{
    match fault {
        WordsFault::Usage(text) => report(diagnostics, text.as_bytes(), FAULT),
        WordsFault::Help(text) => write_help(text.as_bytes(), output, diagnostics),
        WordsFault::Memory => report(diagnostics, b"want of memory\n", NO_MEMORY),
    }
}

// Says of each frame whether it is a record, and last, where that is asked for, how many were legacy
// packets.
fn check_input<R: Input, W: Output, N: Output>(
    alloc: Global,
    source: FrameSource,
    reading: FrameReading,
    summary: bool,
    input: &mut R,
    output: &mut W,
    diagnostics: &mut N,
) -> u8
    ensures { RanWithin (limits_by source.limit)
        (handler_meaning (check_handling reading) refused_line (check_end reading summary) source.framing)
        (devices (R.state input.old) (W.state output.old) (N.state diagnostics.old))
        (devices (R.state input.new) (W.state output.new) (N.state diagnostics.new)) result }
{
    if summary {
        let check = CheckSummary {
            reading,
            tally: Tally::new(),
        };
        return scan_source(alloc, source, check, input, output, diagnostics);
    }
    let check = Check { reading };
    scan_source(alloc, source, check, input, output, diagnostics)
}

// Writes the fields of each record, in color where that is always asked for.
fn show_fields<R: Input, W: Output, N: Output>(
    alloc: Global,
    source: FrameSource,
    reading: FrameReading,
    color: ColorWhen,
    input: &mut R,
    output: &mut W,
    diagnostics: &mut N,
) -> u8
    ensures { RanWithin (limits_by source.limit)
        (handler_meaning (fields_by reading color) noted_line nothing_at_end source.framing)
        (devices (R.state input.old) (W.state output.old) (N.state diagnostics.old))
        (devices (R.state input.new) (W.state output.new) (N.state diagnostics.new)) result }
{
    match color {
        ColorWhen::Always => {
            let show = ColoredShow {
                show: Show { alloc, reading },
            };
            scan_source(alloc, source, show, input, output, diagnostics)
        }
        ColorWhen::Auto | ColorWhen::Never => {
            let show = Show { alloc, reading };
            scan_source(alloc, source, show, input, output, diagnostics)
        }
    }
}

// Writes the fields of each record, or each record as a line of JSON.
fn show_input<R: Input, W: Output, N: Output>(
    alloc: Global,
    source: FrameSource,
    reading: FrameReading,
    json: bool,
    color: ColorWhen,
    input: &mut R,
    output: &mut W,
    diagnostics: &mut N,
) -> u8
    ensures { RanWithin (limits_by source.limit)
        (handler_meaning (show_by reading json color) noted_line nothing_at_end source.framing)
        (devices (R.state input.old) (W.state output.old) (N.state diagnostics.old))
        (devices (R.state input.new) (W.state output.new) (N.state diagnostics.new)) result }
{
    if json {
        let show = ShowJson { alloc, reading };
        return scan_source(alloc, source, show, input, output, diagnostics);
    }
    show_fields(alloc, source, reading, color, input, output, diagnostics)
}

// Does what is asked for with the frames of the standard input.
fn run_on_frames<R: Input, W: Output, N: Output>(
    alloc: Global,
    request: FrameRequest,
    input: &mut R,
    output: &mut W,
    diagnostics: &mut N,
) -> u8
    ensures { (stored : Stored) → RanAs (frames_asked request) stored
        (devices (R.state input.old) (W.state output.old) (N.state diagnostics.old))
        (devices (R.state input.new) (W.state output.new) (N.state diagnostics.new)) result }
{
    let FrameRequest {
        input_framing,
        limit,
        reading,
        command,
    } = request;
    let source = FrameSource {
        framing: input_framing,
        limit,
    };
    match command {
        FrameCommand::Check { summary } => {
            check_input(alloc, source, reading, summary, input, output, diagnostics)
        }
        FrameCommand::Show { json, color } => {
            show_input(
                alloc,
                source,
                reading,
                json,
                color,
                input,
                output,
                diagnostics,
            )
        }
        FrameCommand::Convert { to } => {
            let convert = Convert { alloc, reading, to };
            scan_source(alloc, source, convert, input, output, diagnostics)
        }
        FrameCommand::Archive => {
            archive_input(alloc, input_framing, reading, input, output, diagnostics)
        }
    }
}

// Does what is asked for with the archives of files. The standard input is left as it is.
fn run_on_files<W: Output, N: Output, F: Files>(
    alloc: Global,
    request: FileRequest<'_>,
    output: &mut W,
    diagnostics: &mut N,
    files: &mut F,
) -> u8
    ensures { (input : InputState) → RanAs (files_asked request.entry) (F.stored files.old)
        (devices input (W.state output.old) (N.state diagnostics.old))
        (devices input (W.state output.new) (N.state diagnostics.new)) result }
{
    match request {
        FileRequest::Merge { left, right } => {
            merge_files(alloc, left, right, output, diagnostics, files)
        }
        FileRequest::Migrate { file } => migrate_file(alloc, file, output, diagnostics, files),
        FileRequest::Union { files: names } => {
            let how = Combination::Union;
            join_files(alloc, how, names.as_slice(), output, diagnostics, files)
        }
        FileRequest::Common { left, right } => {
            let how = Combination::Common;
            join_files(alloc, how, &[left, right], output, diagnostics, files)
        }
        FileRequest::Minus { left, right } => {
            let how = Combination::Minus;
            join_files(alloc, how, &[left, right], output, diagnostics, files)
        }
        FileRequest::Diff { left, right } => {
            let how = Combination::Diff;
            join_files(alloc, how, &[left, right], output, diagnostics, files)
        }
    }
}

// Sums up the archive on the input, period by period, with the roots or without them.
fn run_digest<R: Input, W: Output, N: Output>(
    alloc: Global,
    period: Period,
    has_roots: bool,
    input: &mut R,
    output: &mut W,
    diagnostics: &mut N,
) -> u8
    ensures { RanDigestBy has_roots period
        (devices (R.state input.old) (W.state output.old) (N.state diagnostics.old))
        (devices (R.state input.new) (W.state output.new) (N.state diagnostics.new)) result }
{
    if has_roots {
        digest_archive_with_roots(alloc, period, input, output, diagnostics)
    } else {
        digest_archive(alloc, period, input, output, diagnostics)
    }
}

/// Does what a request asks for and returns the exit status: 0 done, 1 something was refused, 2 a
/// device failed, 3 out of memory. Records go to the output, reports of what went wrong to the
/// diagnostics. Nothing is known of a terminal, so records are colored only where that is asked for
/// always. Commands that need sockets, a store or room on a disk, which only a program has, are a
/// fault here.
pub fn run_request<R: Input, W: Output, N: Output, F: Files>(
    alloc: Global,
    request: Request<'_>,
    input: &mut R,
    output: &mut W,
    diagnostics: &mut N,
    files: &mut F,
) -> u8
    ensures ran { RanAs (asked_by request.entry) (F.stored files.old)
        (devices (R.state input.old) (W.state output.old) (N.state diagnostics.old))
        (devices (R.state input.new) (W.state output.new) (N.state diagnostics.new)) result }

    // commands that do not read the standard input leave it as it is
    ensures unread { ¬ (ReadsInput (asked_by request.entry)) → input.new ≡ input.old }
{
    match request {
        Request::Frames(frames) => run_on_frames(alloc, frames, input, output, diagnostics),
        Request::Files(names) => run_on_files(alloc, names, output, diagnostics, files),
        Request::Select { conditions } => {
            select_archive(alloc, &conditions, input, output, diagnostics)
        }
        Request::Digest { period, has_roots } => {
            run_digest(alloc, period, has_roots, input, output, diagnostics)
        }
        Request::Count { options } => count_archive(alloc, &options, input, output, diagnostics),
        Request::Root => root_archive(alloc, input, output, diagnostics),
        Request::Prove { records } => {
            prove_file(alloc, records, input, output, diagnostics, files)
        }
        Request::Confirm { head, records } => {
            confirm_file(alloc, &head, records, input, output, diagnostics, files)
        }
        Request::Send { options } => send_text(alloc, &options, output, diagnostics),
        // only `main` has these
        Request::SpillArchive { .. } => report(diagnostics, b"spill fault\n", FAULT),
        Request::Read { .. } => report(diagnostics, b"store fault\n", FAULT),
        Request::Follow { .. } => report(diagnostics, b"store fault\n", FAULT),
        Request::Verify { .. } => report(diagnostics, b"store fault\n", FAULT),
        Request::Stat { .. } => report(diagnostics, b"store fault\n", FAULT),
        Request::Compact { .. } => report(diagnostics, b"store fault\n", FAULT),
        Request::Add { .. } => report(diagnostics, b"store fault\n", FAULT),
        Request::Expire { .. } => report(diagnostics, b"store fault\n", FAULT),
        Request::Seal { .. } => report(diagnostics, b"store fault\n", FAULT),
        Request::Reconcile { .. } => report(diagnostics, b"store fault\n", FAULT),
        Request::Answer { .. } => report(diagnostics, b"store fault\n", FAULT),
        Request::Backup { .. } => report(diagnostics, b"store fault\n", FAULT),
        Request::Collect { .. } => report(diagnostics, b"socket fault\n", FAULT),
        Request::Serve { .. } => report(diagnostics, b"socket fault\n", FAULT),
    }
}

/// Does what the arguments ask for and returns the exit status: 0 done, 1 something was refused, 2
/// the arguments are wrong or a device failed, 3 out of memory. The arguments do not begin with the
/// program's name.
///
/// Records go to the output, reports of what went wrong to the diagnostics. If the arguments are no
/// request, or ask for the program's help or version, a text goes to the diagnostics and the status
/// is 2. The help and the version of a command go to the output, and the status is 0. It is 3 if
/// there is no memory for the text.
pub fn run<R: Input, W: Output, N: Output, F: Files>(
    alloc: Global,
    args: &[String],
    input: &mut R,
    output: &mut W,
    diagnostics: &mut N,
    files: &mut F,
) -> u8
    // what each command does
    ensures ran { (asked : Asked) → parsed (map string_bytes args.now) ≡ Some asked →
        RanAs asked (F.stored files.old)
        (devices (R.state input.old) (W.state output.old) (N.state diagnostics.old))
        (devices (R.state input.new) (W.state output.new) (N.state diagnostics.new)) result }

    // commands that do not read the standard input leave it as it is
    ensures unread { (asked : Asked) → parsed (map string_bytes args.now) ≡ Some asked →
        ¬ (ReadsInput asked) → input.new ≡ input.old }

    // arguments that are no request: nothing is touched but the diagnostics
    ensures usage { parsed (map string_bytes args.now) ≡ None →
        may_ask_help (map string_bytes args.now) ≡ false →
        TellsUsage (N.state diagnostics.old) (N.state diagnostics.new) result
        × (output.new ≡ output.old) }

    // the help of a command goes to the output
    ensures help { asks_help (map string_bytes args.now) ≡ true →
        TellsHelp (W.state output.old) (W.state output.new) (N.state diagnostics.old)
        (N.state diagnostics.new) result }

    ensures untouched { parsed (map string_bytes args.now) ≡ None →
        (input.new ≡ input.old) × (files.new ≡ files.old) }
{
    match read_words(alloc, args) {
        Ok(invocation) => {
            let Invocation {
                request,
                is_quiet: _,
            } = invocation;
            run_request(alloc, request, input, output, diagnostics, files)
        }
        Err(fault) => answer_words_fault(&fault, output, diagnostics),
    }
}
