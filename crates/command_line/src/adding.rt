//! Arguments and subcommands, added to a command that want of memory may have kept from being made.
ghost use Rattle.std.specs.Prelude.{◌≡◌, IfOk, true};
ghost use Rattle.clap.specs.Words.{App, app_of, with_rule, with_subcommand};
ghost use Rattle.clap.specs.declared.builder.value_parser.ValueParser.{ValueParser as Parser};
ghost use Rattle.command_line.specs.Rules.{file_rule, flag_rule, number_rule, option_rule, optional_rule};

use crate::{file, flag, number, optional, other};
use clap::Command;
use clap::builder::ValueParser;
use std::alloc::{AllocError, Global};

/// A file that has to be named.
pub(crate) fn add_file<'a>(
    alloc: Global,
    command: Result<Command<'a>, AllocError>,
    name: &'a str,
    help: &'a str,
) -> Result<Command<'a>, AllocError>
    ensures { (app : App) → IfOk command.entry (λ c. app_of c ≡ app)
        → IfOk result (λ c. app_of c ≡ with_rule app (file_rule name.now)) }
{
    match command {
        Ok(command) => command.arg(file(alloc, name, help)),
        Err(error) => Err(error),
    }
}

/// A number with a default.
pub(crate) fn add_number<'a>(
    alloc: Global,
    command: Result<Command<'a>, AllocError>,
    name: &'a str,
    default: &'a str,
    parser: ValueParser<'a>,
    help: &'a str,
) -> Result<Command<'a>, AllocError>
    ensures { (app : App) → IfOk command.entry (λ c. app_of c ≡ app)
        → (p : Parser) → parser.entry ≡ p
        → IfOk result (λ c. app_of c ≡ with_rule app (number_rule name.now default.now p)) }
{
    match command {
        Ok(command) => command.arg(number(alloc, name, default, parser, help)),
        Err(error) => Err(error),
    }
}

/// A number that may be left out.
pub(crate) fn add_optional<'a>(
    alloc: Global,
    command: Result<Command<'a>, AllocError>,
    name: &'a str,
    parser: ValueParser<'a>,
    help: &'a str,
) -> Result<Command<'a>, AllocError>
    ensures { (app : App) → IfOk command.entry (λ c. app_of c ≡ app)
        → (p : Parser) → parser.entry ≡ p
        → IfOk result (λ c. app_of c ≡ with_rule app (optional_rule name.now p)) }
{
    match command {
        Ok(command) => command.arg(optional(alloc, name, parser, help)),
        Err(error) => Err(error),
    }
}

/// Another file.
pub(crate) fn add_other<'a>(
    alloc: Global,
    command: Result<Command<'a>, AllocError>,
    name: &'a str,
    help: &'a str,
) -> Result<Command<'a>, AllocError>
    ensures { (app : App) → IfOk command.entry (λ c. app_of c ≡ app)
        → IfOk result (λ c. app_of c ≡ with_rule app (option_rule name.now)) }
{
    match command {
        Ok(command) => command.arg(other(alloc, name, help)),
        Err(error) => Err(error),
    }
}

/// What is asked for by its name alone.
pub(crate) fn add_flag<'a>(
    alloc: Global,
    command: Result<Command<'a>, AllocError>,
    name: &'a str,
    help: &'a str,
) -> Result<Command<'a>, AllocError>
    ensures { (app : App) → IfOk command.entry (λ c. app_of c ≡ app)
        → IfOk result (λ c. app_of c ≡ with_rule app (flag_rule name.now)) }
{
    match command {
        Ok(command) => command.arg(flag(alloc, name, help)),
        Err(error) => Err(error),
    }
}

/// A subcommand that has no global argument.
pub(crate) fn add_subcommand<'a>(
    command: Result<Command<'a>, AllocError>,
    subcommand: Result<Command<'a>, AllocError>,
) -> Result<Command<'a>, AllocError>
    ensures { (app sub : App) → IfOk command.entry (λ c. app_of c ≡ app)
        → IfOk subcommand.entry (λ c. app_of c ≡ sub) → sub.top.is_plain ≡ true
        → IfOk result (λ c. app_of c ≡ with_subcommand app sub.top) }
{
    match command {
        Ok(command) => match subcommand {
            Ok(subcommand) => command.subcommand(subcommand),
            Err(error) => {
                drop(command);
                Err(error)
            }
        },
        Err(error) => {
            drop(subcommand);
            Err(error)
        }
    }
}
