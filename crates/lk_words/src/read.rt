//! Words as a command.

ghost use Rattle.std.specs.Prelude.{◌≡◌, Some, IfErr, IfOk, map, option_and_then, option_map, string_bytes};
ghost use Rattle.clap.specs.Walk.{first_of, rows_of};
ghost use Rattle.clap.specs.Words.{found_of, subcommand_rows_of};
ghost use Rattle.lk_words.specs.Refused.{IsRefused};
ghost use Rattle.lk_words.specs.Words.{check_of, command_of, form_of, labels_of, number_of, number_or, source_of, sql_of};

use crate::command::{CheckCommand, Command, LabelsCommand, SourceCommand, SqlCommand};
use crate::error::WordsError;
use crate::line::links_command;
use clap::ArgMatches;
use clap::error::ErrorKind;
use lk_ast::{NoMemory, Text};
use std::alloc::Global;

/// The fuel of `source` where the words ask for none.
const DEFAULT_FUEL: u64 = 1_000_000;

/// The store of `source` where the words name none.
const DEFAULT_STORE: &str = "memory";

/// The most fuel that the words may ask for.
const MOST_FUEL: u64 = 1_000_000_000;

/// The command that the words ask for.
pub fn read_words(alloc: Global, words: &[String]) -> Result<Command, WordsError>
    ensures found { IfOk result (λ command. Some command ≡ form_of (map string_bytes words.now)) }
    ensures refused { IfErr result (IsRefused (map string_bytes words.now)) }
{
    match form(alloc, words)? {
        Some(command) => Ok(command),
        None => Err(WordsError::NoForm),
    }
}

/// The command that the words ask for, where they have a form.
fn form(alloc: Global, words: &[String]) -> Result<Option<Command>, NoMemory>
    ensures { IfOk result (λ command. command ≡ form_of (map string_bytes words.now)) }
{
    let command = links_command(alloc)?;
    match command.try_get_matches_from(words) {
        Ok(matches) => command_of(alloc, &matches),
        Err(error) => match error.kind() {
            ErrorKind::OutOfMemory => Err(NoMemory),
            _ => Ok(None),
        },
    }
}

/// The subcommand that was met.
fn command_of(alloc: Global, matches: &ArgMatches<'_>) -> Result<Option<Command>, NoMemory>
    ensures { IfOk result (λ command. command ≡ option_and_then command_of (subcommand_rows_of matches.now)) }
{
    match matches.subcommand() {
        Some(("check", matches)) => check_of(alloc, matches),
        Some(("sql", matches)) => sql_of(alloc, matches),
        Some(("labels", matches)) => labels_of(alloc, matches),
        Some(("source", matches)) => source_of(alloc, matches),
        _ => Ok(None),
    }
}

/// `check`, from the value of its argument.
#[tactic(auto, unfolding(crate::specs::Words::check_of))]
fn check_of(alloc: Global, matches: &ArgMatches<'_>) -> Result<Option<Command>, NoMemory>
    ensures { IfOk result (λ command. command ≡ check_of (rows_of (found_of matches.now))) }
{
    let Some(program) = value_of(matches, "program") else {
        return Ok(None);
    };
    let program = Text::from_str(alloc, program)?;
    Ok(Some(Command::Check(CheckCommand { program })))
}

/// `sql`, from the value of its argument.
#[tactic(auto, unfolding(crate::specs::Words::sql_of))]
fn sql_of(alloc: Global, matches: &ArgMatches<'_>) -> Result<Option<Command>, NoMemory>
    ensures { IfOk result (λ command. command ≡ sql_of (rows_of (found_of matches.now))) }
{
    let Some(program) = value_of(matches, "program") else {
        return Ok(None);
    };
    let program = Text::from_str(alloc, program)?;
    Ok(Some(Command::Sql(SqlCommand { program })))
}

/// `labels`, from the value of its argument.
#[tactic(auto, unfolding(crate::specs::Words::labels_of))]
fn labels_of(alloc: Global, matches: &ArgMatches<'_>) -> Result<Option<Command>, NoMemory>
    ensures { IfOk result (λ command. command ≡ labels_of (rows_of (found_of matches.now))) }
{
    let Some(program) = value_of(matches, "program") else {
        return Ok(None);
    };
    let program = Text::from_str(alloc, program)?;
    Ok(Some(Command::Labels(LabelsCommand { program })))
}

/// `source`, from the values of its arguments.
#[tactic(auto, unfolding(crate::specs::Words::source_of))]
fn source_of(alloc: Global, matches: &ArgMatches<'_>) -> Result<Option<Command>, NoMemory>
    ensures { IfOk result (λ command. command ≡ source_of (rows_of (found_of matches.now))) }
{
    let Some(program) = value_of(matches, "program") else {
        return Ok(None);
    };
    let Some(arg) = value_of(matches, "arg") else {
        return Ok(None);
    };
    let Some(fuel) = number_or(DEFAULT_FUEL, value_of(matches, "fuel")) else {
        return Ok(None);
    };
    let program = Text::from_str(alloc, program)?;
    let arg = Text::from_str(alloc, arg)?;
    let tables = some_text(alloc, value_of(matches, "tables"))?;
    let store = Text::from_str(alloc, value_of(matches, "store").unwrap_or(DEFAULT_STORE))?;
    Ok(Some(Command::Source(SourceCommand {
        program,
        arg,
        tables,
        store,
        fuel,
    })))
}

/// The value of an argument, by its name.
fn value_of<'a>(matches: &ArgMatches<'a>, name: &str) -> Option<&'a str>
    ensures { option_map (λ value. value.now) result ≡ first_of name.now (rows_of (found_of matches.now)) }
{
    matches.get_str(name)
}

/// The text of an option, where it is there.
fn some_text(alloc: Global, text: Option<&str>) -> Result<Option<Text>, NoMemory>
    ensures { IfOk result (λ copy. copy ≡ option_map (λ value. value.now) text.entry) }
{
    match text {
        Some(text) => Ok(Some(Text::from_str(alloc, text)?)),
        None => Ok(None),
    }
}

/// The number of an option, or its default where it isn't there.
fn number_or(default: u64, text: Option<&str>) -> Option<u64>
    ensures { result ≡ number_or default (option_map (λ value. value.now) text.entry) }
{
    match text {
        Some(text) => number_of(text),
        None => Some(default),
    }
}

/// The number of a text, where it has one.
fn number_of(text: &str) -> Option<u64>
    ensures { result ≡ number_of text.now }
{
    // No number begins with a sign or with a zero; both come before the other digits.
    let first = *text.as_bytes().first()?;
    if first <= b'0' {
        return None;
    }
    match text.parse::<u64>() {
        Ok(number) if number <= MOST_FUEL => Some(number),
        Ok(_) => None,
        Err(_) => None,
    }
}
