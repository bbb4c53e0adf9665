//! The reading of the words, by `clap`.
ghost use Rattle.std.specs.Prelude.{◌≡◌, IfOk, Some, None, map, option_map, option_and_then};
ghost use Rattle.std.specs.Prelude.{◌↔◌};
ghost use Rattle.clap.specs.Words.{app_of, found_of, rows_of, subcommand_rows_of};
ghost use Rattle.saber_words.specs.Commands.{asked_command, asked_by, check_by, check_shape, command_of};
ghost use Rattle.saber_words.specs.Commands.{run_by, run_shape, saber_app, IsSized};
ghost use Rattle.saber_words.specs.Table.{HasShape};

use crate::chain::{chain, chain_app};
use crate::demo::{demo, demo_app};
use crate::flags::is_given;
use crate::numbers::{max_lines, ring, sizes, slack, task, threads};
use crate::table::{Argument, bare_saber, subcommand, with_subcommand};
use crate::{Check, Command, RowNames, Run, WordsFault};
use clap::ArgMatches;
use clap::error::ErrorKind;
use std::alloc::{AllocError, Global};

/// The command that `words` ask for, of which the first is the name of the program. The words are a
/// command exactly where `clap` takes them for the program's table of commands (this project's
/// rule). Every other refusal than for want of memory is `Usage`.
pub fn read_words<'a>(alloc: Global, words: &'a [&'a str]) -> Result<Command<'a>, WordsFault>
    ensures taken { IfOk result (λ command.
        command_of (map (λ word. word.now) words.entry.now) ≡ Some (asked_command command)) }
    ensures sizes { IfOk result (λ command. IsSized (asked_command command)) }
    ensures usage { result ≡ Err WordsFault.Usage
        → command_of (map (λ word. word.now) words.entry.now) ≡ None }
{
    let app = saber(alloc)?;
    match app.try_get_matches_from(words) {
        Ok(matches) => command(&matches).ok_or(WordsFault::Usage),
        Err(error) => Err(fault(error.kind())),
    }
}

// Why no command was read, by what `clap` says.
pub(crate) fn fault(kind: ErrorKind) -> WordsFault
    ensures { (result ≡ WordsFault.NoMemory) ↔ (kind ≡ ErrorKind.OutOfMemory) }
{
    match kind {
        ErrorKind::OutOfMemory => WordsFault::NoMemory,
        _ => WordsFault::Usage,
    }
}

// The program with its subcommands.
fn saber<'a>(alloc: Global) -> Result<clap::Command<'a>, AllocError>
    ensures { IfOk result (λ app. app_of app ≡ saber_app) }
{
    let one = with_subcommand(bare_saber(alloc), run_app(alloc))?;
    let two = with_subcommand(one, check_app(alloc))?;
    let three = with_subcommand(two, demo_app(alloc))?;
    with_subcommand(three, chain_app(alloc))
}

fn run_app<'a>(alloc: Global) -> Result<clap::Command<'a>, AllocError>
    ensures { IfOk result (HasShape run_shape) }
{
    let arguments = [
        Argument::Needed("query"),
        Argument::Needed("left"),
        Argument::Optional("right"),
        Argument::Number(task()),
        Argument::Number(ring()),
        Argument::Number(threads()),
        Argument::Number(max_lines()),
        Argument::Number(slack()),
        Argument::Flag("final"),
    ];
    subcommand(alloc, "run", arguments.as_slice())
}

fn check_app<'a>(alloc: Global) -> Result<clap::Command<'a>, AllocError>
    ensures { IfOk result (HasShape check_shape) }
{
    let arguments = [Argument::Needed("query")];
    subcommand(alloc, "check", arguments.as_slice())
}

// What the subcommand that was met asks for.
fn command<'a>(matches: &ArgMatches<'a>) -> Option<Command<'a>>
    ensures { option_map asked_command result ≡ option_and_then asked_by (subcommand_rows_of matches.now) }
{
    let (name, values) = matches.subcommand()?;
    match name {
        "run" => run(values),
        "check" => check(values),
        "demo" => demo(values),
        "chain" => chain(values),
        _ => None,
    }
}

fn run<'a>(values: &ArgMatches<'a>) -> Option<Command<'a>>
    ensures { option_map asked_command result ≡ run_by (rows_of (found_of values.now)) }
{
    let query = values.get_str("query")?;
    let left = values.get_str("left")?;
    let right = values.get_str("right");
    let flush = is_given(values, "final");
    let sizes = sizes(values, threads(), flush)?;
    Some(Command::Run(Run {
        query,
        rows: RowNames { left, right },
        sizes,
    }))
}

fn check<'a>(values: &ArgMatches<'a>) -> Option<Command<'a>>
    ensures { option_map asked_command result ≡ check_by (rows_of (found_of values.now)) }
{
    let query = values.get_str("query")?;
    Some(Command::Check(Check { query }))
}
