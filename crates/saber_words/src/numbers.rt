//! The options that take a whole number.
ghost use Rattle.std.specs.Prelude.{◌≡◌, ◌≤◌, false, IfSome};
ghost use Rattle.clap.specs.Words.{found_of, rows_of, rule_of};
ghost use Rattle.saber_words.specs.Numbers.{number_by, number_rule, numeric_of, within};
ghost use Rattle.saber_words.specs.Commands.{max_lines, ring, sizes_by, slack, task, threads};

use clap::builder::ValueParser;
use clap::{Arg, ArgMatches};
use saber_plan::Sizes;
use std::alloc::Global;

/// An option of one value, a whole number: `--name N`.
#[derive(Clone, Copy)]
pub(crate) struct NumberOption {
    /// What stands behind `--`, and the option's id.
    pub(crate) name: &'static str,
    /// The least number that it takes.
    pub(crate) least: u64,
    /// The most that it takes.
    pub(crate) most: u64,
    /// The value where the words give none.
    pub(crate) usual: &'static str,
}

/// The rows of a task.
pub(crate) fn task() -> NumberOption
    ensures { numeric_of result ≡ task }
{
    NumberOption {
        name: "task",
        least: 1,
        most: 65_536,
        usual: "1024",
    }
}

/// The cells of the ring.
pub(crate) fn ring() -> NumberOption
    ensures { numeric_of result ≡ ring }
{
    NumberOption {
        name: "ring",
        least: 1,
        most: 1024,
        usual: "64",
    }
}

/// The threads beside the caller's.
pub(crate) fn threads() -> NumberOption
    ensures { numeric_of result ≡ threads }
{
    NumberOption {
        name: "threads",
        least: 0,
        most: 64,
        usual: "2",
    }
}

/// The lines that a file may have.
pub(crate) fn max_lines() -> NumberOption
    ensures { numeric_of result ≡ max_lines }
{
    NumberOption {
        name: "max-lines",
        least: 1,
        most: 1_099_511_627_776,
        usual: "1099511627776",
    }
}

/// By how much a timestamp of a file may fall.
pub(crate) fn slack() -> NumberOption
    ensures { numeric_of result ≡ slack }
{
    NumberOption {
        name: "slack",
        least: 0,
        most: 1_099_511_627_776,
        usual: "0",
    }
}

/// The option, for `clap`.
pub(crate) fn number_arg<'a>(alloc: Global, option: NumberOption) -> Arg<'a>
    ensures rule { rule_of result ≡ number_rule (numeric_of option) }
    ensures local { result.global ≡ false }
{
    Arg::new(alloc, option.name)
        .long(option.name)
        .value_parser(ValueParser::unsigned(option.least, option.most))
        .default_value(option.usual)
}

/// The sizes that were asked for, with this option for the threads, where the end of the input closes
/// the windows that are begun or doesn't.
pub(crate) fn sizes(values: &ArgMatches<'_>, crew: NumberOption, flush: bool) -> Option<Sizes>
    requires { crew.most ≤ 64 }
    ensures { result ≡ sizes_by (numeric_of crew) (rows_of (found_of values.now)) flush }
{
    let rows = number(values, task())?;
    let cells = number(values, ring())?;
    let count = number(values, crew)?;
    let lines = number(values, max_lines())?;
    let slack = number(values, slack())?;
    Some(Sizes {
        task: rows as u32,
        ring: cells as u32,
        threads: count as u32,
        max_lines: lines,
        slack,
        flush,
    })
}

/// The number of the option, of those that it takes.
pub(crate) fn number(values: &ArgMatches<'_>, option: NumberOption) -> Option<u64>
    ensures value { result ≡ number_by (numeric_of option) (rows_of (found_of values.now)) }
    ensures bounds { IfSome result (λ n. (option.least ≤ n) × (n ≤ option.most)) }
{
    let number = values.get_one::<u64>(option.name)?;
    within(number, option)
}

// The number, where the option takes it.
fn within(number: u64, option: NumberOption) -> Option<u64>
    ensures { result ≡ within (numeric_of option) number }
{
    if option.least <= number && number <= option.most {
        Some(number)
    } else {
        None
    }
}
