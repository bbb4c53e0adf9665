//! The words of `many`.
ghost use Rattle.std.specs.Prelude.{◌≡◌, ◌++◌, IfOk, Some, None, OnOk, map, option_map, option_and_then, option_to_list, string_bytes};
ghost use Rattle.clap.specs.Walk.{first_of};
ghost use Rattle.clap.specs.Words.{app_of, found_of, rows_of, subcommand_rows_of};
ghost use Rattle.saber_words.specs.Numbers.{numeric_of};
ghost use Rattle.saber_words.specs.Table.{HasShape};
ghost use Rattle.saber_words.specs.Many.{asked_many, few_threads, many_app, many_by, many_in, many_of, many_shape, queries_in, many_with, out_name, HasManySizes};

use crate::flags::is_given;
use crate::numbers::{NumberOption, max_lines, ring, sizes, slack, task};
use crate::reading::fault;
use crate::table::{Argument, bare_saber, subcommand, with_subcommand};
use crate::{Many, WordsFault};
use clap::ArgMatches;
use saber_plan::Sizes;
use std::alloc::{AllocError, Global};

/// What `many LEFT QUERY..` asks for, by the words of the command line, of which the first is the
/// name of the program. The words are this command exactly where `clap` takes them for it (this
/// project's rule). Every other refusal than for want of memory is `Usage`.
pub fn read_many<'a>(alloc: Global, words: &'a [&'a str]) -> Result<Many<'a>, WordsFault>
    ensures taken { IfOk result (λ many. many_of (map (λ word. word.now) words.entry.now) ≡ Some (asked_many many)) }
    ensures sizes { IfOk result (λ many. HasManySizes (asked_many many)) }
    ensures usage { result ≡ Err WordsFault.Usage → many_of (map (λ word. word.now) words.entry.now) ≡ None }
{
    let app = program(alloc)?;
    match app.try_get_matches_from(words) {
        Ok(matches) => asked(alloc, &matches)?.ok_or(WordsFault::Usage),
        Err(error) => Err(fault(error.kind())),
    }
}

/// The name of the file that a query of `many` writes to: the name of its own file with `.out`
/// behind it (this project's rule).
pub fn out_name(alloc: Global, query: &str) -> Result<String, AllocError>
    ensures { IfOk result (λ name. string_bytes name ≡ out_name query.now) }
{
    let mut name = String::from_str(alloc, query)?;
    name.push_str(".out")?;
    Ok(name)
}

// The threads for each query.
fn few_threads() -> NumberOption
    ensures { numeric_of result ≡ few_threads }
{
    NumberOption {
        name: "threads",
        least: 0,
        most: 8,
        usual: "2",
    }
}

// The program with this subcommand alone.
fn program<'a>(alloc: Global) -> Result<clap::Command<'a>, AllocError>
    ensures { IfOk result (λ app. app_of app ≡ many_app) }
{
    with_subcommand(bare_saber(alloc), many_app(alloc))
}

// The subcommand, for `clap`.
fn many_app<'a>(alloc: Global) -> Result<clap::Command<'a>, AllocError>
    ensures { IfOk result (HasShape many_shape) }
{
    let arguments = [
        Argument::Needed("left"),
        Argument::Needed("first"),
        Argument::Optional("second"),
        Argument::Optional("third"),
        Argument::Optional("fourth"),
        Argument::Optional("fifth"),
        Argument::Optional("sixth"),
        Argument::Optional("seventh"),
        Argument::Optional("eighth"),
        Argument::Number(task()),
        Argument::Number(ring()),
        Argument::Number(few_threads()),
        Argument::Number(max_lines()),
        Argument::Number(slack()),
        Argument::Flag("final"),
    ];
    subcommand(alloc, "many", arguments.as_slice())
}

// What the subcommand that was met asks for.
fn asked<'a>(alloc: Global, matches: &ArgMatches<'a>) -> Result<Option<Many<'a>>, AllocError>
    ensures { IfOk result (λ read. option_map asked_many read ≡ option_and_then many_in (subcommand_rows_of matches.now)) }
{
    let Some((name, values)) = matches.subcommand() else {
        return Ok(None);
    };
    if name == "many" {
        many(alloc, values)
    } else {
        Ok(None)
    }
}

// What its words ask for.
fn many<'a>(alloc: Global, values: &ArgMatches<'a>) -> Result<Option<Many<'a>>, AllocError>
    ensures { IfOk result (λ read. option_map asked_many read ≡ many_by (rows_of (found_of values.now))) }
{
    let names = [
        "first", "second", "third", "fourth", "fifth", "sixth", "seventh", "eighth",
    ];
    let mut queries = Vec::new(alloc);
    take_queries(&mut queries, values, names.as_slice())?;
    let flush = is_given(values, "final");
    let sizes = sizes(values, few_threads(), flush);
    Ok(with(values.get_str("left"), queries, sizes))
}

// These, where all that is wanted was found.
fn with<'a>(left: Option<&'a str>, queries: Vec<&'a str>, sizes: Option<Sizes>) -> Option<Many<'a>>
    ensures { option_map asked_many result ≡ many_with (option_map (λ name. name.now) left.entry) (map (λ query. query.now) queries.entry.items) sizes }
{
    let left = left?;
    let sizes = sizes?;
    if queries.is_empty() {
        return None;
    }
    Some(Many {
        left,
        queries,
        sizes,
    })
}

// Puts the value of this positional behind the queries, if it was given.
fn take_query<'a>(
    queries: &mut Vec<&'a str>,
    values: &ArgMatches<'a>,
    name: &'static str,
) -> Result<(), AllocError>
    ensures { OnOk result (map (λ query. query.now) queries.new.items
        ≡ map (λ query. query.now) queries.old.items ++ option_to_list (first_of name.now (rows_of (found_of values.now)))) }
{
    if let Some(query) = values.get_str(name) {
        queries.push(query)?;
    }
    Ok(())
}

// Puts those of these positionals behind the queries.
fn take_queries<'a>(
    queries: &mut Vec<&'a str>,
    values: &ArgMatches<'a>,
    names: &[&'static str],
) -> Result<(), AllocError>
    ensures { OnOk result (map (λ query. query.now) queries.new.items
        ≡ map (λ query. query.now) queries.old.items ++ queries_in (map (λ name. name.now) names.now) (rows_of (found_of values.now))) }
{
    let Some((name, rest)) = names.split_first() else {
        return Ok(());
    };
    take_query(queries, values, *name)?;
    take_queries(queries, values, rest)
}
