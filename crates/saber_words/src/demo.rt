//! The words of `demo`.
ghost use Rattle.std.specs.Prelude.{◌≡◌, IfOk, option_map};
ghost use Rattle.clap.specs.Words.{found_of, rows_of};
ghost use Rattle.saber_words.specs.Numbers.{numeric_of};
ghost use Rattle.saber_words.specs.Demo.{rows, seed};
ghost use Rattle.saber_words.specs.Commands.{asked_command, demo_by, demo_shape, generated_by};
ghost use Rattle.saber_words.specs.Table.{HasShape};

use crate::numbers::{NumberOption, number, ring, task, threads};
use crate::table::{Argument, subcommand};
use crate::{Command, Demo};
use clap::ArgMatches;
use saber_plan::Sizes;
use std::alloc::{AllocError, Global};

// What the generator begins with.
fn seed() -> NumberOption
    ensures { numeric_of result ≡ seed }
{
    NumberOption {
        name: "seed",
        least: 0,
        most: 2_147_483_647,
        usual: "",
    }
}

// How many rows there are.
fn rows() -> NumberOption
    ensures { numeric_of result ≡ rows }
{
    NumberOption {
        name: "rows",
        least: 0,
        most: 1_048_576,
        usual: "",
    }
}

/// The subcommand, for `clap`.
pub(crate) fn demo_app<'a>(alloc: Global) -> Result<clap::Command<'a>, AllocError>
    ensures { IfOk result (HasShape demo_shape) }
{
    let arguments = [
        Argument::Numeral(seed()),
        Argument::Numeral(rows()),
        Argument::Number(task()),
        Argument::Number(ring()),
        Argument::Number(threads()),
    ];
    subcommand(alloc, "demo", arguments.as_slice())
}

// The sizes that were asked for. There are fewer rows than a file may have lines.
fn generated_sizes(values: &ArgMatches<'_>) -> Option<Sizes>
    ensures { result ≡ generated_by (rows_of (found_of values.now)) }
{
    let size = number(values, task())?;
    let cells = number(values, ring())?;
    let count = number(values, threads())?;
    Some(Sizes {
        task: size as u32,
        ring: cells as u32,
        threads: count as u32,
        max_lines: 1_099_511_627_776,
        slack: 0,
        flush: false,
    })
}

/// What its words ask for.
pub(crate) fn demo<'a>(values: &ArgMatches<'a>) -> Option<Command<'a>>
    ensures { option_map asked_command result ≡ demo_by (rows_of (found_of values.now)) }
{
    let first = number(values, seed())?;
    let second = number(values, rows())?;
    let sizes = generated_sizes(values)?;
    Some(Command::Demo(Demo {
        seed: first as u32,
        rows: second as u32,
        sizes,
    }))
}
