//! The command line as clap has it.

ghost use Rattle.std.specs.Prelude.{◌≡◌, false, IfOk};
ghost use Rattle.clap.specs.Walk.{rule_of};
ghost use Rattle.clap.specs.Words.{app_of};
ghost use Rattle.clap.specs.declared.builder.command.Command.TheViews.{out-Command as fields_of};
ghost use Rattle.lk_words.specs.Words.{bare_app, bare_source_app, check_app, labels_app, links_app, needed, optional, programs_app, source_app, sql_app};

use clap::{Arg, ArgAction};
use std::alloc::{AllocError, Global};

/// The command line.
pub fn links_command<'a>(alloc: Global) -> Result<clap::Command<'a>, AllocError>
    ensures { IfOk result (λ command. app_of command ≡ links_app) }
{
    programs_command(alloc)?.subcommand(source_command(alloc)?)
}

/// The command line without `source`: its subcommands take a program alone.
fn programs_command<'a>(alloc: Global) -> Result<clap::Command<'a>, AllocError>
    ensures { IfOk result (λ command. app_of command ≡ programs_app) }
{
    bare_command(alloc)
        .subcommand(check_command(alloc)?)?
        .subcommand(sql_command(alloc)?)?
        .subcommand(labels_command(alloc)?)
}

/// A command line without its subcommands, one of which has to be there.
fn bare_command<'a>(alloc: Global) -> clap::Command<'a>
    ensures { app_of result ≡ bare_app }
{
    clap::Command::new(alloc, "links")
        .no_binary_name(true)
        .disable_help_flag(true)
        .disable_version_flag(true)
        .disable_help_subcommand(true)
        .subcommand_required(true)
}

/// `check PROGRAM`.
fn check_command<'a>(alloc: Global) -> Result<clap::Command<'a>, AllocError>
    ensures { IfOk result (λ command. (app_of command ≡ check_app) × ((fields_of command).has_globals ≡ false)) }
{
    clap::Command::new(alloc, "check").arg(needed(alloc, "program"))
}

/// `sql PROGRAM`.
fn sql_command<'a>(alloc: Global) -> Result<clap::Command<'a>, AllocError>
    ensures { IfOk result (λ command. (app_of command ≡ sql_app) × ((fields_of command).has_globals ≡ false)) }
{
    clap::Command::new(alloc, "sql").arg(needed(alloc, "program"))
}

/// `labels PROGRAM`.
fn labels_command<'a>(alloc: Global) -> Result<clap::Command<'a>, AllocError>
    ensures { IfOk result (λ command. (app_of command ≡ labels_app) × ((fields_of command).has_globals ≡ false)) }
{
    clap::Command::new(alloc, "labels").arg(needed(alloc, "program"))
}

/// `source PROGRAM ARG`, with `--tables FILE`, `--store NAME` and `--fuel N`.
fn source_command<'a>(alloc: Global) -> Result<clap::Command<'a>, AllocError>
    ensures { IfOk result (λ command. (app_of command ≡ source_app) × ((fields_of command).has_globals ≡ false)) }
{
    bare_source(alloc)?
        .arg(optional(alloc, "tables"))?
        .arg(optional(alloc, "store"))?
        .arg(optional(alloc, "fuel"))
}

/// `source PROGRAM ARG`, without its options.
fn bare_source<'a>(alloc: Global) -> Result<clap::Command<'a>, AllocError>
    ensures { IfOk result (λ command. (app_of command ≡ bare_source_app) × ((fields_of command).has_globals ≡ false)) }
{
    clap::Command::new(alloc, "source")
        .arg(needed(alloc, "program"))?
        .arg(needed(alloc, "arg"))
}

/// An argument that has to be there, at its place among the others.
fn needed<'a>(alloc: Global, name: &'a str) -> Arg<'a>
    ensures { (rule_of result ≡ needed name.entry.now) × (result.global ≡ false) }
{
    Arg::new(alloc, name).required(true).action(ArgAction::Set)
}

/// An option with one value.
fn optional<'a>(alloc: Global, name: &'a str) -> Arg<'a>
    ensures { (rule_of result ≡ optional name.entry.now) × (result.global ≡ false) }
{
    Arg::new(alloc, name).long(name).action(ArgAction::Set)
}
