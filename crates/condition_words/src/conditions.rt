//! The conditions that words ask for.

ghost use Rattle.std.specs.Prelude.{◌≡◌, IfOk, option_map};
ghost use Rattle.std.specs.Result.{result_ok};
ghost use Rattle.clap.specs.Words.{found_of, rows_of};
ghost use Rattle.condition_words.specs.Conditions.{any_in, conditions_asked, conditions_in, none_in};
ghost use Rattle.condition_words.specs.Tests.{lists_asked, tests_asked};

use crate::tests_asked::{ConditionOption, lists, tests};
use crate::times::times;
use archive_sets::{Conditions, FieldTest};
use clap::ArgMatches;
use option_values::Refusal;
use std::alloc::{AllocError, Global};

// The lists of which a record passes one test each.
fn any<'a>(
    alloc: Global,
    matches: &ArgMatches<'a>,
) -> Result<Result<Vec<Vec<FieldTest<'a>>>, Refusal<'a>>, AllocError>
    ensures { IfOk result (λ r. option_map (λ v. lists_asked v.items) (result_ok r)
        ≡ any_in (rows_of (found_of matches.now))) }
{
    let options = [
        ConditionOption::Severity,
        ConditionOption::Facility,
        ConditionOption::Host,
        ConditionOption::App,
        ConditionOption::Proc,
        ConditionOption::MsgId,
        ConditionOption::Id,
        ConditionOption::Message,
        ConditionOption::HostLike,
        ConditionOption::AppLike,
    ];
    lists(alloc, &options, matches)
}

// The tests of which a record passes none.
fn none<'a>(
    alloc: Global,
    matches: &ArgMatches<'a>,
) -> Result<Result<Vec<FieldTest<'a>>, Refusal<'a>>, AllocError>
    ensures { IfOk result (λ r. option_map (λ v. tests_asked v.items) (result_ok r)
        ≡ none_in (rows_of (found_of matches.now))) }
{
    let options = [
        ConditionOption::NotHost,
        ConditionOption::NotApp,
        ConditionOption::NotMessage,
    ];
    tests(alloc, &options, matches)
}

/// The conditions that the words ask for: the values of one option mean any of them, the values of
/// the options that begin with `not` mean none of them, and a record meets all conditions. A word
/// that no record can have is refused, and so is a bound on times beside `--only-undated`. It fails
/// only when out of memory.
pub fn read_conditions<'a>(
    alloc: Global,
    matches: &ArgMatches<'a>,
) -> Result<Result<Conditions<'a>, Refusal<'a>>, AllocError>
    ensures { IfOk result (λ r. option_map conditions_asked (result_ok r)
        ≡ conditions_in (rows_of (found_of matches.now))) }
{
    let times = match times(matches) {
        Ok(times) => times,
        Err(refusal) => return Ok(Err(refusal)),
    };
    let any = match any(alloc, matches)? {
        Ok(any) => any,
        Err(refusal) => return Ok(Err(refusal)),
    };
    let none = match none(alloc, matches)? {
        Ok(none) => none,
        Err(refusal) => return Ok(Err(refusal)),
    };
    Ok(Ok(Conditions { times, any, none }))
}
