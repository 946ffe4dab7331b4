//! The command line as `clap` parses it, built from the tables of commands and options.

ghost use Rattle.std.specs.Prelude.{◌≡◌, codes, false, IfOk};
ghost use Rattle.clap.specs.Words.{app_of, rule_of};
ghost use Rattle.clap.specs.Simple.{new_app, with_rule, with_subcommand};
ghost use Rattle.clap.specs.declared.builder.command.Command.TheViews.{out-Command as fields_of};
ghost use Rattle.command_line.specs.CommandLine.{command_app, empty_app, line_app, option_rule};
ghost use Rattle.command_line.specs.Tables.{app_by, rule_by, with_apps, with_rules};

use clap::{Arg, ArgAction, Command};
use option_values::commands::COMMANDS;
use option_values::{CommandRow, FILES_MAX, Form, OptionRow};
use std::alloc::{AllocError, Global};

/// The version of the program, which `--version` tells.
pub const VERSION: &str = "0.13.0";

// An option that takes a value.
fn single<'a>(alloc: Global, name: &'a str) -> Arg<'a>
    ensures rule { rule_of result ≡ option_rule name.entry.now }
    ensures local { result.global ≡ false }
{
    Arg::new(alloc, name).long(name)
}

// A value by its place, which has to be given.
fn positional<'a>(alloc: Global, name: &'a str) -> Arg<'a>
    ensures rule { rule_of result ≡ rule_by name.entry.now Form.Positional }
    ensures local { result.global ≡ false }
{
    Arg::new(alloc, name).required(true)
}

// An option that is given in this form.
fn formed<'a>(alloc: Global, name: &'a str, form: Form) -> Arg<'a>
    ensures rule { rule_of result ≡ rule_by name.entry.now form }
    ensures local { result.global ≡ false }
{
    match form {
        Form::Positional => positional(alloc, name),
        Form::Several => positional(alloc, name).num_args(1..=FILES_MAX),
        Form::Flag => single(alloc, name).action(ArgAction::SetTrue),
        Form::Single => single(alloc, name),
        Form::List => single(alloc, name).action(ArgAction::Append),
        Form::Default(value) => single(alloc, name).default_value(value),
    }
}

// The option of a row, with its help text.
fn argument<'a>(alloc: Global, row: &OptionRow) -> Arg<'a>
    ensures rule { rule_of result ≡ rule_by row.now.name.now row.now.form }
    ensures local { result.global ≡ false }
{
    formed(alloc, row.name, row.form).help(row.help)
}

// The command with one more argument.
fn with_arg<'a>(command: Command<'a>, arg: Arg<'a>) -> Result<Command<'a>, AllocError>
    requires arg_local { arg.global ≡ false }
    requires local { (fields_of command).has_globals ≡ false }
    ensures app { IfOk result (λ c.
        app_of c ≡ with_rule (app_of command.entry) (rule_of arg.entry)) }
    ensures local { IfOk result (λ c. (fields_of c).has_globals ≡ false) }
{
    command.arg(arg)
}

// The command with the options of these rows.
fn with_options<'a>(
    alloc: Global,
    command: Command<'a>,
    rows: &[OptionRow],
) -> Result<Command<'a>, AllocError>
    requires { (fields_of command).has_globals ≡ false }
    ensures app { IfOk result (λ c. app_of c ≡ with_rules (app_of command.entry) rows.now) }
    ensures local { IfOk result (λ c. (fields_of c).has_globals ≡ false) }
{
    let mut command = command;
    for row in rows {
        command = with_arg(command, argument(alloc, row))?;
    }
    Ok(command)
}

// A command with its help text and the version, and no options yet.
fn new_command<'a>(alloc: Global, name: &'a str, about: &'a str) -> Command<'a>
    ensures app { app_of result ≡ command_app name.entry.now }
    ensures local { (fields_of result).has_globals ≡ false }
{
    Command::new(alloc, name).about(about).version(VERSION)
}

// The command of a row.
fn command<'a>(alloc: Global, row: &CommandRow) -> Result<Command<'a>, AllocError>
    ensures app { IfOk result (λ c. app_of c ≡ app_by row.now) }
    ensures local { IfOk result (λ c. (fields_of c).has_globals ≡ false) }
{
    with_options(alloc, new_command(alloc, row.name, row.about), row.options)
}

// The program's command, by whose name the usage of each subcommand begins.
fn program<'a>(alloc: Global) -> Result<Command<'a>, AllocError>
    ensures { IfOk result (λ c. app_of c ≡ new_app (codes "syslogbox")) }
{
    Command::new(alloc, "syslogbox").bin_name("syslogbox")
}

// The command line with no subcommand yet.
fn empty_line<'a>(program: Command<'a>) -> Command<'a>
    ensures { app_of program.entry ≡ new_app (codes "syslogbox") → app_of result ≡ empty_app }
{
    program
        .version(VERSION)
        .no_binary_name(true)
        .subcommand_required(true)
}

// The command line with one more subcommand.
fn with_command<'a>(line: Command<'a>, command: Command<'a>) -> Result<Command<'a>, AllocError>
    requires { (fields_of command).has_globals ≡ false }
    ensures { IfOk result (λ c.
        app_of c ≡ with_subcommand (app_of line.entry) (app_of command.entry).top) }
{
    line.subcommand(command)
}

// The command line with the commands of these rows.
fn with_commands<'a>(
    alloc: Global,
    line: Command<'a>,
    rows: &[CommandRow],
) -> Result<Command<'a>, AllocError>
    ensures { IfOk result (λ c. app_of c ≡ with_apps (app_of line.entry) rows.now) }
{
    let mut line = line;
    for row in rows {
        line = with_command(line, command(alloc, row)?)?;
    }
    Ok(line)
}

/// The whole command line. It fails only when out of memory.
pub fn whole_line<'a>(alloc: Global) -> Result<Command<'a>, AllocError>
    ensures { IfOk result (λ c. app_of c ≡ line_app) }
{
    with_commands(alloc, empty_line(program(alloc)?), &COMMANDS)
}
