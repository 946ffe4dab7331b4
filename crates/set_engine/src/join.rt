//! `union`, `common`, `minus` and `diff`: archives are joined.

ghost use Rattle.std.specs.Prelude.{◌≡◌, ◌++◌, IfOk, codes, map};
ghost use Rattle.set_engine.specs.Combining.{RanJoin, RanJoinBy, input_words, join_telling};
ghost use Rattle.set_engine.specs.Combining.{joined_status, refused_status};
ghost use Rattle.archive_reports.specs.FaultLines.{fault_words};
ghost use Rattle.driver.specs.Ended.{Tells, TellsLine};

use crate::combination::Combination;
use archive_join::{Common, Diff, JoinFault, Kept, Minus, Union, join_streams};
use archive_reports::report_archive_fault;
use archive_text::ArchiveFault;
use driver::{DONE, FAULT, NO_MEMORY, REFUSED, report};
use itoa::Buffer;
use octet_devices::{Input, Output};
use std::alloc::{AllocError, Global};

// The words on an input.
fn input_words(alloc: Global, how: Combination, input: usize) -> Result<Vec<u8>, AllocError>
    ensures { IfOk result (λ words. words.items ≡ input_words how input) }
{
    let mut words = Vec::new(alloc);
    match how {
        Combination::Union => {
            words.extend_from_slice(b"file ")?;
            words.extend_from_slice(Buffer::new().format(input as u128 + 1).as_bytes())?;
            words.extend_from_slice(b" ")?;
        }
        _ if input == 0 => words.extend_from_slice(b"left ")?,
        _ => words.extend_from_slice(b"right ")?,
    }
    Ok(words)
}

// The words on an input, and others behind them.
fn words_on(
    alloc: Global,
    how: Combination,
    input: usize,
    words: &[u8],
) -> Result<Vec<u8>, AllocError>
    ensures { IfOk result (λ line. line.items ≡ input_words how input ++ words.now) }
{
    let mut line = input_words(alloc, how, input)?;
    line.extend_from_slice(words)?;
    Ok(line)
}

/// Reports what is wrong with an input, by words behind those that name the input, and returns
/// `FAULT`, or `NO_MEMORY` if memory runs out for the line.
pub fn report_on_input<N: Output>(
    alloc: Global,
    how: Combination,
    input: usize,
    words: &[u8],
    diagnostics: &mut N,
) -> u8
    ensures { TellsLine (input_words how input ++ words.now) FAULT (N.state diagnostics.old)
        (N.state diagnostics.new) result }
{
    match words_on(alloc, how, input, words) {
        Ok(line) => report(diagnostics, line.as_slice(), FAULT),
        Err(_) => report(diagnostics, b"want of memory\n", NO_MEMORY),
    }
}

// The status where an input is no archive.
fn refused_status(how: Combination) -> u8
    ensures { result ≡ refused_status how }
{
    match how {
        Combination::Union | Combination::Common | Combination::Minus => REFUSED,
        Combination::Diff => FAULT,
    }
}

// Reports that an input is no archive.
fn report_refused<N: Output>(
    alloc: Global,
    how: Combination,
    input: usize,
    fault: ArchiveFault,
    diagnostics: &mut N,
) -> u8
    ensures { TellsLine (input_words how input ++ fault_words fault) (refused_status how)
        (N.state diagnostics.old) (N.state diagnostics.new) result }
{
    let Ok(words) = input_words(alloc, how, input) else {
        return report(diagnostics, b"want of memory\n", NO_MEMORY);
    };
    report_archive_fault(
        alloc,
        words.as_slice(),
        fault,
        refused_status(how),
        diagnostics,
    )
}

// Reports what stopped the joining, and returns the exit status.
fn report_join_fault<N: Output>(
    alloc: Global,
    how: Combination,
    fault: JoinFault,
    diagnostics: &mut N,
) -> u8
    ensures { Tells (join_telling how) fault (N.state diagnostics.old) (N.state diagnostics.new)
        result }
{
    match fault {
        JoinFault::Archive { input, fault } => {
            report_refused(alloc, how, input, fault, diagnostics)
        }
        JoinFault::Read { input } => {
            report_on_input(alloc, how, input, b"read fault\n", diagnostics)
        }
        JoinFault::Endless { input } => {
            report_on_input(alloc, how, input, b"endless input\n", diagnostics)
        }
        JoinFault::Write { .. } => report(diagnostics, b"write fault\n", FAULT),
        JoinFault::Memory => report(diagnostics, b"want of memory\n", NO_MEMORY),
    }
}

// The status where so many entries are kept.
fn joined_status(how: Combination, kept: u64) -> u8
    ensures { result ≡ joined_status how kept }
{
    match how {
        Combination::Diff if kept > 0 => REFUSED,
        _ => DONE,
    }
}

// Joins archives by what is kept.
fn join_by<K: Kept, R: Input, W: Output, N: Output>(
    alloc: Global,
    kept: &K,
    how: Combination,
    inputs: &mut [R],
    output: &mut W,
    diagnostics: &mut N,
) -> u8
    ensures { RanJoinBy (K.keeps kept.now) (K.text kept.now) how (map R.state inputs.old)
        (map R.state inputs.new) (W.state output.old) (W.state output.new)
        (N.state diagnostics.old) (N.state diagnostics.new) result }
{
    match join_streams(alloc, kept, inputs, output) {
        Ok(count) => joined_status(how, count),
        Err(fault) => report_join_fault(alloc, how, fault, diagnostics),
    }
}

/// Joins archives, and writes what is kept of their records, depending on who has them. Returns the
/// exit status: `DONE`, but for `Diff` `REFUSED` if the archives differ; if an input is no archive,
/// `REFUSED`, but for `Diff` `FAULT`; `FAULT` if a device failed or an input has no end;
/// `NO_MEMORY` if memory ran out. A line says what was refused or failed, and for which input:
/// `left` or `right`, or for `Union` `file` and its number from 1.
pub fn join_archives<R: Input, W: Output, N: Output>(
    alloc: Global,
    how: Combination,
    inputs: &mut [R],
    output: &mut W,
    diagnostics: &mut N,
) -> u8
    ensures { RanJoin how (map R.state inputs.old) (map R.state inputs.new) (W.state output.old)
        (W.state output.new) (N.state diagnostics.old) (N.state diagnostics.new) result }
{
    match how {
        Combination::Union => join_by(alloc, &Union, how, inputs, output, diagnostics),
        Combination::Common => join_by(alloc, &Common, how, inputs, output, diagnostics),
        Combination::Minus => join_by(alloc, &Minus, how, inputs, output, diagnostics),
        Combination::Diff => join_by(alloc, &Diff, how, inputs, output, diagnostics),
    }
}
