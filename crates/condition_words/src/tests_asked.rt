//! The tests that options ask for.

ghost use Rattle.std.specs.Prelude.{◌≡◌, ◌++◌, [], IfOk, map, option_map};
ghost use Rattle.std.specs.Result.{result_ok};
ghost use Rattle.clap.specs.Words.{found_of, rows_of};
ghost use Rattle.option_values.specs.Values.{all_given};
ghost use Rattle.condition_words.specs.Tests.{all_asked, asked_in, lists_asked, lists_in, name_of, put, test_asked};
ghost use Rattle.condition_words.specs.Tests.{test_of, tests_asked};

use crate::word_tests::{
    element_test, facility_test, like_test, message_test, severity_test, word_test,
};
use archive_sets::{FieldTest, WordField};
use clap::ArgMatches;
use option_values::options::{
    APP, APP_LIKE, FACILITY, HOST, HOST_LIKE, ID, MSGID, NOT_APP, NOT_HOST, NOT_MESSAGE, PROC,
    RECORD_MESSAGE, SEVERITY,
};
use option_values::{OptionRow, Refusal, values};
use std::alloc::{AllocError, Global};

// The options that ask for tests.
#[derive(Clone, Copy)]
pub(crate) enum ConditionOption {
    Severity,
    Facility,
    Host,
    App,
    Proc,
    MsgId,
    Id,
    Message,
    HostLike,
    AppLike,
    NotHost,
    NotApp,
    NotMessage,
}

// The row of an option.
fn row_of(option: ConditionOption) -> OptionRow
    ensures { result.name.now ≡ name_of option }
{
    match option {
        ConditionOption::Severity => SEVERITY,
        ConditionOption::Facility => FACILITY,
        ConditionOption::Host => HOST,
        ConditionOption::App => APP,
        ConditionOption::Proc => PROC,
        ConditionOption::MsgId => MSGID,
        ConditionOption::Id => ID,
        ConditionOption::Message => RECORD_MESSAGE,
        ConditionOption::HostLike => HOST_LIKE,
        ConditionOption::AppLike => APP_LIKE,
        ConditionOption::NotHost => NOT_HOST,
        ConditionOption::NotApp => NOT_APP,
        ConditionOption::NotMessage => NOT_MESSAGE,
    }
}

// What the value of an option asks of a record; None where no record can have it.
fn test<'a>(
    alloc: Global,
    option: ConditionOption,
    text: &'a str,
) -> Result<Option<FieldTest<'a>>, AllocError>
    ensures { IfOk result (λ r. option_map test_asked r ≡ test_of option text.entry.now) }
{
    match option {
        ConditionOption::Severity => Ok(severity_test(text)),
        ConditionOption::Facility => Ok(facility_test(text)),
        ConditionOption::Host | ConditionOption::NotHost => {
            word_test::<255>(alloc, WordField::Hostname, text)
        }
        ConditionOption::App | ConditionOption::NotApp => {
            word_test::<48>(alloc, WordField::AppName, text)
        }
        ConditionOption::Proc => word_test::<128>(alloc, WordField::ProcId, text),
        ConditionOption::MsgId => word_test::<32>(alloc, WordField::MsgId, text),
        ConditionOption::Id => element_test(alloc, text),
        ConditionOption::Message | ConditionOption::NotMessage => Ok(message_test(text)),
        ConditionOption::HostLike => Ok(like_test(WordField::Hostname, text)),
        ConditionOption::AppLike => Ok(like_test(WordField::AppName, text)),
    }
}

// The tests with those of an option's values behind them.
fn with_texts<'a>(
    alloc: Global,
    option: ConditionOption,
    texts: &[&'a str],
    tests: Vec<FieldTest<'a>>,
) -> Result<Result<Vec<FieldTest<'a>>, Refusal<'a>>, AllocError>
    ensures { IfOk result (λ r. option_map (λ v. tests_asked v.items) (result_ok r)
        ≡ option_map (λ more. tests_asked tests.entry.items ++ more)
        (all_given (map (λ s. test_of option s.now) texts.now))) }
{
    let mut tests = tests;
    for text in texts {
        let Some(test) = test(alloc, option, text)? else {
            let row = row_of(option);
            return Ok(Err(row.refuses(row.kind, text)));
        };
        tests.push(test)?;
    }
    Ok(Ok(tests))
}

// The tests with those of an option behind them.
fn with_option<'a>(
    alloc: Global,
    option: ConditionOption,
    matches: &ArgMatches<'a>,
    tests: Vec<FieldTest<'a>>,
) -> Result<Result<Vec<FieldTest<'a>>, Refusal<'a>>, AllocError>
    ensures { IfOk result (λ r. option_map (λ v. tests_asked v.items) (result_ok r)
        ≡ option_map (λ more. tests_asked tests.entry.items ++ more)
        (all_given (asked_in option (rows_of (found_of matches.now))))) }
{
    match values(matches, row_of(option).name) {
        Some(texts) => with_texts(alloc, option, texts, tests),
        None => Ok(Ok(tests)),
    }
}

/// The tests of these options, one option after the other.
pub(crate) fn tests<'a>(
    alloc: Global,
    options: &[ConditionOption],
    matches: &ArgMatches<'a>,
) -> Result<Result<Vec<FieldTest<'a>>, Refusal<'a>>, AllocError>
    ensures { IfOk result (λ r. option_map (λ v. tests_asked v.items) (result_ok r)
        ≡ all_given (all_asked options.now (rows_of (found_of matches.now)))) }
{
    let mut tests = Vec::new(alloc);
    for option in options {
        match with_option(alloc, *option, matches, tests)? {
            Ok(more) => tests = more,
            Err(refusal) => return Ok(Err(refusal)),
        }
    }
    Ok(Ok(tests))
}

// The lists with this one behind them, unless it is empty.
fn with_list<'a>(
    tests: Vec<FieldTest<'a>>,
    lists: Vec<Vec<FieldTest<'a>>>,
) -> Result<Vec<Vec<FieldTest<'a>>>, AllocError>
    ensures { IfOk result (λ v.
        lists_asked v.items ≡ lists_asked lists.entry.items ++ put (tests_asked tests.entry.items) []) }
{
    let mut lists = lists;
    if !tests.is_empty() {
        lists.push(tests)?;
    }
    Ok(lists)
}

/// The tests of these options, in a list of its own for each option that is given.
pub(crate) fn lists<'a>(
    alloc: Global,
    options: &[ConditionOption],
    matches: &ArgMatches<'a>,
) -> Result<Result<Vec<Vec<FieldTest<'a>>>, Refusal<'a>>, AllocError>
    ensures { IfOk result (λ r. option_map (λ v. lists_asked v.items) (result_ok r)
        ≡ lists_in options.now (rows_of (found_of matches.now))) }
{
    let mut lists = Vec::new(alloc);
    for option in options {
        match with_option(alloc, *option, matches, Vec::new(alloc))? {
            Ok(tests) => lists = with_list(tests, lists)?,
            Err(refusal) => return Ok(Err(refusal)),
        }
    }
    Ok(Ok(lists))
}
