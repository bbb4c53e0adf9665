//! The table of commands, as `clap` is told of it.
ghost use Rattle.std.specs.Prelude.{◌≡◌, IfOk, map, false};
ghost use Rattle.clap.specs.Words.{app_of, rule_of};
ghost use Rattle.clap.specs.Simple.{App, Shape, with_subcommand};
ghost use Rattle.saber_words.specs.Demo.{positional_rule};
ghost use Rattle.saber_words.specs.Numbers.{numeric_of};
ghost use Rattle.saber_words.specs.Table.{bare_saber, rule_by, shape_by, with_rules, HasShape, IsLocal};

use crate::flags::flag_arg;
use crate::numbers::{NumberOption, number_arg};
use clap::builder::ValueParser;
use clap::{Arg, Command};
use std::alloc::{AllocError, Global};

/// An argument of a subcommand.
#[derive(Clone, Copy)]
pub(crate) enum Argument {
    /// A positional that has to be given.
    Needed(&'static str),
    /// One that may be left out.
    Optional(&'static str),
    /// One of a whole number, which has to be given.
    Numeral(NumberOption),
    /// `--name N`
    Number(NumberOption),
    /// `--name`
    Flag(&'static str),
}

/// The program, without a subcommand. It has neither a flag nor a subcommand for help or the
/// version, so words that ask for these are as unknown as any other.
pub(crate) fn bare_saber<'a>(alloc: Global) -> Command<'a>
    ensures { app_of result ≡ bare_saber }
{
    Command::new(alloc, "saber")
        .disable_help_flag(true)
        .disable_help_subcommand(true)
        .disable_version_flag(true)
        .subcommand_required(true)
}

/// The program with one subcommand more, if that was made.
pub(crate) fn with_subcommand<'a>(
    app: Command<'a>,
    made: Result<Command<'a>, AllocError>,
) -> Result<Command<'a>, AllocError>
    ensures { (s : Shape) → IfOk made.entry (HasShape s) → IfOk result (λ new. app_of new ≡ with_subcommand (app_of app.entry) s) }
{
    let sub = made?;
    app.subcommand(sub)
}

/// The subcommand of this name with these arguments.
pub(crate) fn subcommand<'a>(
    alloc: Global,
    name: &'static str,
    arguments: &[Argument],
) -> Result<Command<'a>, AllocError>
    ensures { IfOk result (HasShape (shape_by name.now arguments.now)) }
{
    with_arguments(alloc, Command::new(alloc, name), arguments)
}

// The command with these arguments too.
fn with_arguments<'a>(
    alloc: Global,
    app: Command<'a>,
    arguments: &[Argument],
) -> Result<Command<'a>, AllocError>
    ensures { (a : App) → IsLocal app.entry a → IfOk result (λ new. IsLocal new (with_rules a (map rule_by arguments.now))) }
{
    let Some((argument, rest)) = arguments.split_first() else {
        return Ok(app);
    };
    let more = app.arg(arg_of(alloc, *argument))?;
    with_arguments(alloc, more, rest)
}

// The argument, for `clap`.
fn arg_of<'a>(alloc: Global, argument: Argument) -> Arg<'a>
    ensures rule { rule_of result ≡ rule_by argument }
    ensures local { result.global ≡ false }
{
    match argument {
        Argument::Needed(name) => Arg::new(alloc, name).required(true),
        Argument::Optional(name) => Arg::new(alloc, name),
        Argument::Numeral(option) => numeral_arg(alloc, option),
        Argument::Number(option) => number_arg(alloc, option),
        Argument::Flag(name) => flag_arg(alloc, name),
    }
}

// The positional of one number, for `clap`.
fn numeral_arg<'a>(alloc: Global, option: NumberOption) -> Arg<'a>
    ensures rule { rule_of result ≡ positional_rule (numeric_of option) }
    ensures local { result.global ≡ false }
{
    Arg::new(alloc, option.name)
        .required(true)
        .value_parser(ValueParser::unsigned(option.least, option.most))
}
