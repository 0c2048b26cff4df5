//! The command line that the program knows, and its help.
ghost use Rattle.std.specs.Prelude.{◌≡◌, IfOk, false, map, true};
ghost use Rattle.std.specs.List.{fold};
ghost use Rattle.clap.specs.Words.{app_of, new_app, rule_of, with_rule};
ghost use Rattle.clap.specs.declared.builder.command.Command.TheViews.{out-Command};
ghost use Rattle.cell_command.specs.Shape.{IsCommand, IsLocal, cellctl, for_people, program, with_command, with_rules};
ghost use Rattle.cell_command.specs.Table.{argument_rule, words_app};

use crate::help::{ABOUT, AFTER, CommandTexts, FAIL_HELP, FILE_HELP, JOURNALS_HELP, VERSION};
use crate::table::{Argument, COMMANDS, CommandWords};
use clap::{Arg, ArgAction, Command};
use std::alloc::{AllocError, Global};

// A command with its texts.
fn described<'a>(alloc: Global, name: &'a str, texts: &CommandTexts) -> Command<'a>
    ensures { IsCommand (new_app name.entry.now) result }
{
    Command::new(alloc, name)
        .about(texts.about)
        .long_about(texts.help)
        .after_help(texts.example)
}

// What clap is told of an argument.
#[tactic(auto, unfolding(crate::specs::Shape::path_rule, crate::specs::Shape::flag_rule, crate::specs::Shape::file_rule, crate::specs::Shape::optional_rule, crate::specs::Shape::journal_rule, crate::specs::Shape::several_rule, crate::specs::Shape::repeated_rule))]
fn arg_of<'a>(alloc: Global, argument: &Argument) -> Arg<'a>
    ensures rule { rule_of result ≡ argument_rule argument.now }
    ensures local { result.global ≡ false }
{
    match *argument {
        Argument::Path(id, name, help) => {
            Arg::new(alloc, id)
                .required(true)
                .value_name(name)
                .help(help)
        }
        Argument::Flag(id, help) => {
            Arg::new(alloc, id)
                .long(id)
                .action(ArgAction::SetTrue)
                .help(help)
        }
        Argument::File(id, name, help) => {
            Arg::new(alloc, id).long(id).value_name(name).help(help)
        }
        Argument::Word(id, name, help) => Arg::new(alloc, id).value_name(name).help(help),
        Argument::Journal => {
            Arg::new(alloc, "file")
                .short('f')
                .long("file")
                .value_name("FILE")
                .help(FILE_HELP)
        }
        Argument::Journals => {
            Arg::new(alloc, "journals")
                .required(true)
                .value_name("JOURNAL")
                .action(ArgAction::Append)
                .help(JOURNALS_HELP)
        }
        Argument::Failing => {
            Arg::new(alloc, "fail")
                .long("fail")
                .value_name("MACHINE")
                .action(ArgAction::Append)
                .help(FAIL_HELP)
        }
    }
}

// Adds an argument to a command.
fn with_argument<'a>(
    alloc: Global,
    command: Command<'a>,
    argument: &Argument,
) -> Result<Command<'a>, AllocError>
    requires { IsLocal command }
    ensures { IfOk result (IsCommand (with_rule (app_of command.entry) (argument_rule argument.now))) }
{
    command.arg(arg_of(alloc, argument))
}

// Adds arguments to a command, one behind the other.
fn with_arguments<'a>(
    alloc: Global,
    command: Command<'a>,
    arguments: &[Argument],
) -> Result<Command<'a>, AllocError>
    requires { IsLocal command }
    ensures { IfOk result (IsCommand (with_rules (app_of command.entry) (map argument_rule arguments.now))) }
{
    let mut made = command;
    for argument in arguments {
        made = with_argument(alloc, made, argument)?;
    }
    Ok(made)
}

// A command with its texts, and with no argument yet.
fn begun<'a>(alloc: Global, words: &CommandWords) -> Command<'a>
    ensures { IsCommand (new_app words.now.name.now) result }
{
    let command = described(alloc, words.name, &words.texts);
    match words.usage {
        Some(usage) => command.override_usage(usage),
        None => command,
    }
}

// A command with its arguments.
fn command_of<'a>(alloc: Global, words: &CommandWords) -> Result<Command<'a>, AllocError>
    ensures { IfOk result (IsCommand (words_app words.now)) }
{
    let command = begun(alloc, words);
    with_arguments(alloc, command, words.arguments)
}

// Adds a command to the program.
fn with_command<'a>(
    alloc: Global,
    whole: Command<'a>,
    words: &CommandWords,
) -> Result<Command<'a>, AllocError>
    requires { IsLocal whole }
    ensures { IfOk result (IsCommand (with_command (app_of whole.entry) (words_app words.now))) }
{
    whole.subcommand(command_of(alloc, words)?)
}

// Adds commands to the program, one behind the other.
fn with_commands<'a>(
    alloc: Global,
    whole: Command<'a>,
    all: &[CommandWords],
) -> Result<Command<'a>, AllocError>
    requires { IsLocal whole }
    ensures { IfOk result (IsCommand (fold with_command (app_of whole.entry) (map words_app all.now))) }
{
    let mut made = whole;
    for words in all {
        made = with_command(alloc, made, words)?;
    }
    Ok(made)
}

// The program with its commands.
fn program<'a>(alloc: Global) -> Result<Command<'a>, AllocError>
    ensures { IfOk result (IsCommand program) }
{
    with_commands(alloc, Command::new(alloc, "cellctl"), &COMMANDS)
}

// A command with what is printed of it: its line, its version, and what stands behind its help.
fn with_texts<'a>(command: Command<'a>) -> Command<'a>
    ensures app { app_of result
        ≡ record (app_of command.entry) { top = record ((app_of command.entry).top) { has_version = true } } }
    ensures local { (out-Command result).has_globals ≡ (out-Command command.entry).has_globals }
{
    command.about(ABOUT).version(VERSION).after_help(AFTER)
}

// A command whose name alone asks for help, and which tells its version.
fn made_for_people<'a>(command: Command<'a>) -> Command<'a>
    ensures app { app_of result ≡ record (app_of command.entry) { top = for_people (app_of command.entry).top } }
    ensures local { (out-Command result).has_globals ≡ (out-Command command.entry).has_globals }
{
    with_texts(command)
        .subcommand_required(true)
        .arg_required_else_help(true)
}

/// The command line of the program.
pub(crate) fn command<'a>(alloc: Global) -> Result<Command<'a>, AllocError>
    ensures { IfOk result (IsCommand cellctl) }
{
    Ok(made_for_people(program(alloc)?))
}
