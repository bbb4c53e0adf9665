//! The words of `chain`.
ghost use Rattle.std.specs.Prelude.{◌≡◌, IfOk, option_map};
ghost use Rattle.clap.specs.Words.{found_of, rows_of};
ghost use Rattle.saber_words.specs.Commands.{asked_command, chain_by, chain_shape};
ghost use Rattle.saber_words.specs.Table.{HasShape};

use crate::numbers::{max_lines, ring, sizes, slack, task, threads};
use crate::table::{Argument, subcommand};
use crate::{Chain, Command, RowNames};
use clap::ArgMatches;
use std::alloc::{AllocError, Global};

/// The subcommand, for `clap`.
pub(crate) fn chain_app<'a>(alloc: Global) -> Result<clap::Command<'a>, AllocError>
    ensures { IfOk result (HasShape chain_shape) }
{
    let arguments = [
        Argument::Needed("first"),
        Argument::Needed("second"),
        Argument::Needed("left"),
        Argument::Optional("right"),
        Argument::Number(task()),
        Argument::Number(ring()),
        Argument::Number(threads()),
        Argument::Number(max_lines()),
        Argument::Number(slack()),
    ];
    subcommand(alloc, "chain", arguments.as_slice())
}

/// What its words ask for.
pub(crate) fn chain<'a>(values: &ArgMatches<'a>) -> Option<Command<'a>>
    ensures { option_map asked_command result ≡ chain_by (rows_of (found_of values.now)) }
{
    let first = values.get_str("first")?;
    let second = values.get_str("second")?;
    let left = values.get_str("left")?;
    let right = values.get_str("right");
    let sizes = sizes(values, threads(), false)?;
    Some(Command::Chain(Chain {
        first,
        second,
        rows: RowNames { left, right },
        sizes,
    }))
}
