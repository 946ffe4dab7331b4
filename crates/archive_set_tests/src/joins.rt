//! Archives joined by each rule.

use crate::support::{A, AB, AC, ALL, C, CB, Limits, WORKS, reader, see, taken, writer};
use archive_join::{Common, Diff, JoinFault, Kept, Minus, Union, join_streams};
use archive_text::ArchiveFault;
use std::alloc::Global;
use std::process::Abort;
use std::test::Fail;

const QUOTED: &[u8] = b"28 <0>1 - - - - - [b c=\"\\\\\"] \xc3\xa9";

const LINE_OF_QUOTED: &[u8] = b"< <0>1 - - - - - [b c=\\x22\\x5c\\x5c\\x22] \\xc3\\xa9\n";

const LINES_OF_A_AND_C: &[u8] =
    b"< <13>1 - h a - - - x\n> <12>1 2024-02-29T23:00:00.000000Z h a - - - z\n";

#[derive(Clone, Copy)]
enum Rule {
    Union,
    Common,
    Minus,
    Diff,
}

// a rule, the texts that are joined by it, and what comes of it
type Row<'a> = (Rule, &'a [&'a [u8]], Result<u64, JoinFault>, &'a [u8]);

// the limits of the readers, and of those behind them
type Readers<'a> = &'a [Limits];

// what is answered for texts, and what is written then
fn joined_by<K: Kept>(
    alloc: Global,
    kept: &K,
    texts: &[&[u8]],
    of_readers: Readers<'_>,
    of_writer: Limits,
) -> Result<(Result<u64, JoinFault>, Vec<u8>), Fail> {
    let mut inputs = Vec::new(alloc);
    for (n, text) in texts.iter().enumerate() {
        let limits = of_readers.get(n).copied().unwrap_or(WORKS);
        inputs.push(reader(*text, limits))?;
    }
    let mut writer = writer(alloc, of_writer);
    let answer = join_streams(alloc, kept, inputs.as_mut_slice(), &mut writer);
    Ok((answer, taken(writer)))
}

fn joined(
    alloc: Global,
    rule: Rule,
    texts: &[&[u8]],
    of_readers: Readers<'_>,
    of_writer: Limits,
) -> Result<(Result<u64, JoinFault>, Vec<u8>), Fail> {
    match rule {
        Rule::Union => joined_by(alloc, &Union, texts, of_readers, of_writer),
        Rule::Common => joined_by(alloc, &Common, texts, of_readers, of_writer),
        Rule::Minus => joined_by(alloc, &Minus, texts, of_readers, of_writer),
        Rule::Diff => joined_by(alloc, &Diff, texts, of_readers, of_writer),
    }
}

fn see_joins(rt: &(impl Abort + AllocGlobal), rows: &[Row<'_>]) -> Result<(), Fail> {
    for (n, (rule, texts, answer, octets)) in rows.iter().enumerate() {
        let found = joined(rt.alloc(), *rule, texts, &[], WORKS)?;
        see(rt, n, &found, answer, octets);
    }
    Ok(())
}

#[test]
fn each_record_of_many_archives_is_written_once(rt: HostRuntime) -> Result<(), Fail> {
    see_joins(
        &rt,
        &[
            (Rule::Union, &[AC, CB, b"", A, CB], Ok(3), ALL),
            (Rule::Union, &[], Ok(0), b""),
        ],
    )
}

#[test]
fn two_archives_have_records_in_common_and_alone(rt: HostRuntime) -> Result<(), Fail> {
    see_joins(
        &rt,
        &[
            (Rule::Common, &[AC, CB], Ok(1), C),
            (Rule::Minus, &[AC, CB], Ok(1), A),
            (Rule::Minus, &[AC, ALL], Ok(0), b""),
        ],
    )
}

#[test]
fn the_lines_of_a_difference_say_which_side_has_it(rt: HostRuntime) -> Result<(), Fail> {
    see_joins(
        &rt,
        &[
            (Rule::Diff, &[A, C], Ok(2), LINES_OF_A_AND_C),
            (Rule::Diff, &[QUOTED, b""], Ok(1), LINE_OF_QUOTED),
            (Rule::Diff, &[ALL, ALL], Ok(0), b""),
        ],
    )
}

fn bad_frame(input: usize, at: u64) -> Result<u64, JoinFault> {
    let fault = ArchiveFault::BadFrame { at };
    Err(JoinFault::Archive { input, fault })
}

#[test]
fn a_fault_is_told_of_its_input_behind_what_was_joined(rt: HostRuntime) -> Result<(), Fail> {
    see_joins(
        &rt,
        &[
            (Rule::Union, &[CB, &ALL[..75], CB], bad_frame(1, 75), AC),
            (Rule::Union, &[A, b"1"], bad_frame(1, 1), b""),
        ],
    )
}

#[test]
fn a_device_that_fails_is_told(rt: HostRuntime) -> Result<(), Fail> {
    let found = joined(
        rt.alloc(),
        Rule::Minus,
        &[CB, ALL],
        &[(500, 9), (75, 9)],
        WORKS,
    )?;
    see(&rt, 0, &found, &Err(JoinFault::Read { input: 1 }), b"");
    let found = joined(rt.alloc(), Rule::Union, &[AB, CB], &[], (5, 9))?;
    see(
        &rt,
        1,
        &found,
        &Err(JoinFault::Write { sent: 5 }),
        &ALL[..5],
    );
    Ok(())
}
