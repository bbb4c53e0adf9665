//! The options without a value.
ghost use Rattle.std.specs.Prelude.{◌≡◌, false};
ghost use Rattle.clap.specs.Words.{found_of, rows_of, rule_of};
ghost use Rattle.saber_words.specs.Flags.{flag_by, flag_rule};

use clap::{Arg, ArgAction, ArgMatches};
use std::alloc::Global;

/// The option `--name`, for `clap`.
pub(crate) fn flag_arg<'a>(alloc: Global, name: &'static str) -> Arg<'a>
    ensures rule { rule_of result ≡ flag_rule name.now }
    ensures local { result.global ≡ false }
{
    Arg::new(alloc, name).long(name).action(ArgAction::SetTrue)
}

/// Whether the option was given.
pub(crate) fn is_given(values: &ArgMatches<'_>, name: &str) -> bool
    ensures { result ≡ flag_by name.now (rows_of (found_of values.now)) }
{
    match values.get_str(name) {
        Some(value) => value == "true",
        None => false,
    }
}
