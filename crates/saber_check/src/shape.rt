// What kind of query it is, and the tests of its parts.
ghost use Rattle.std.specs.Prelude.{◌≡◌, ◌≤◌, ◌^◌, ◌&&◌, ◌||◌, not, is_some, false};
ghost use Rattle.std.specs.Option.{option_map_or, option_copied};
ghost use Rattle.saber_query.specs.Trees.{query_of};
ghost use Rattle.saber_query.specs.declared.tree.Factor.TheVariants as f;
ghost use Rattle.saber_check.specs.Faults.{any_aggregate, is_aggregate, is_join, is_group, is_selection, same_measure, is_apart, is_out, most_windows, is_overlapping, has_windows, may_partition, measure_keys, partition_of, is_range, own_name, is_of_one, same_second, same_words, same_column, among_columns, is_listed, is_column_key, is_key, keys};

use crate::names::{is_of_first, is_of_second};
use saber_plan::overlap;
use saber_query::{Column, Expr, Factor, Item, Keys, Measure, Name, Select, Source, Window};

/// COUNT, SUM, MIN or MAX.
pub(crate) fn is_aggregate(item: &Item) -> bool
    ensures { result ≡ is_aggregate item.now }
{
    match item {
        Item::Count => true,
        Item::Sum(_) => true,
        Item::Min(_) => true,
        Item::Max(_) => true,
        Item::Value(_) => false,
    }
}

fn any_aggregate(items: &[Item]) -> bool
    ensures { result ≡ any_aggregate items.now }
{
    for item in items {
        if is_aggregate(item) {
            return true;
        }
    }
    false
}

/// FROM has two streams.
pub(crate) fn is_join(query: &Select) -> bool
    ensures { result ≡ is_join (query_of query.now) }
{
    query.second.is_some()
}

/// One stream, with an aggregate or GROUP BY.
pub(crate) fn is_group(query: &Select) -> bool
    ensures { result ≡ is_group (query_of query.now) }
{
    if is_join(query) {
        return false;
    }
    is_aggregate(&query.item) || any_aggregate(query.items.as_slice()) || query.group.is_some()
}

/// Neither a join nor a group query.
pub(crate) fn is_selection(query: &Select) -> bool
    ensures { result ≡ is_selection (query_of query.now) }
{
    !is_join(query) && !is_group(query)
}

/// The streams of every query have windows, but for a selection without a word.
pub(crate) fn has_windows(query: &Select) -> bool
    ensures { result ≡ has_windows (query_of query.now) }
{
    !is_selection(query) || query.word.is_some()
}

/// Only a group query without a word may have its rows parted by keys.
pub(crate) fn may_partition(query: &Select) -> bool
    ensures { result ≡ may_partition (query_of query.now) }
{
    is_group(query) && !query.word.is_some()
}

fn measure_keys(measure: &Measure) -> Option<&Keys>
    ensures { option_copied result ≡ measure_keys measure.now }
{
    match measure {
        Measure::Rows => None,
        Measure::Range => None,
        Measure::Partition(keys) => Some(keys),
    }
}

/// The columns by whose values the stream's rows are parted, if its window says so.
pub(crate) fn partition_of(source: &Source) -> Option<&Keys>
    ensures { option_copied result ≡ partition_of source.now }
{
    match &source.window {
        Some(window) => measure_keys(&window.measure),
        None => None,
    }
}

/// It has a window, and the query's streams have none.
pub(crate) fn is_stray(query: &Select, source: &Source) -> bool
    ensures { result ≡ is_some source.now.window && not (has_windows (query_of query.now)) }
{
    source.window.is_some() && !has_windows(query)
}

/// It has none, and they have.
pub(crate) fn is_bare(query: &Select, source: &Source) -> bool
    ensures { result ≡ has_windows (query_of query.now) && not (is_some source.now.window) }
{
    has_windows(query) && !source.window.is_some()
}

/// Its rows are parted by keys, and the query's may not be.
pub(crate) fn is_parted_amiss(query: &Select, source: &Source) -> bool
    ensures { result ≡ is_some (partition_of source.now) && not (may_partition (query_of query.now)) }
{
    partition_of(source).is_some() && !may_partition(query)
}

fn is_range(measure: &Measure) -> bool
    ensures { result ≡ is_range measure.now }
{
    match measure {
        Measure::Rows => false,
        Measure::Range => true,
        Measure::Partition(_) => false,
    }
}

fn same_measure(measure: &Measure, other: &Measure) -> bool
    ensures { result ≡ same_measure measure.now other.now }
{
    if is_range(measure) {
        is_range(other)
    } else {
        !is_range(other)
    }
}

/// Whether there are two windows that differ in measure or slide.
pub(crate) fn is_apart(first: &Option<Window>, second: &Option<Window>) -> bool
    ensures { result ≡ is_apart first.now second.now }
{
    match first {
        Some(window) => match second {
            Some(other) => {
                !(same_measure(&window.measure, &other.measure) && window.slide == other.slide)
            }
            None => false,
        },
        None => false,
    }
}

/// A size or slide that no window has.
pub(crate) fn is_out(number: u64) -> bool
    ensures { result ≡ is_out number }
{
    number < 1 || 1_099_511_627_776 < number
}

/// In how many windows a point may lie: this project's limit, and that for each stream of a join.
pub(crate) fn most_windows(query: &Select) -> u64
    ensures { result ≡ most_windows (query_of query.now) }
{
    if is_join(query) { 1024 } else { 65_536 }
}

/// A point lies in too many windows.
pub(crate) fn is_overlapping(most: u64, window: &Window) -> bool
    ensures { result ≡ is_overlapping most window.now }
{
    if is_out(window.size) || is_out(window.slide) {
        return false;
    }
    most < overlap(window.size, window.slide)
}

pub(crate) fn own_name(column: &Column) -> &Name
    ensures { result.now ≡ own_name column.now }
{
    match &column.second {
        Some(name) => name,
        None => &column.first,
    }
}

fn is_of_one(query: &Select, column: &Column, other: &Column) -> bool
    ensures { result ≡ is_of_one (query_of query.now) column.now other.now }
{
    is_of_first(query, column) && is_of_first(query, other)
        || is_of_second(query, column) && is_of_second(query, other)
}

// Neither has a second name, or both have the same.
fn same_second(column: &Column, other: &Column) -> bool
    ensures { result ≡ same_second column.now.second other.now.second }
{
    match &column.second {
        Some(name) => match &other.second {
            Some(same) => name.is(same),
            None => false,
        },
        None => other.second.is_none(),
    }
}

// Two names of the same words, whatever they name.
fn same_words(column: &Column, other: &Column) -> bool
    ensures { result ≡ same_words column.now other.now }
{
    column.first.is(&other.first) && same_second(column, other)
}

/// Two names of the same words, or of one column of a stream of FROM, qualified or not.
pub(crate) fn same_column(query: &Select, column: &Column, other: &Column) -> bool
    ensures { result ≡ same_column (query_of query.now) column.now other.now }
{
    same_words(column, other)
        || own_name(column).is(own_name(other)) && is_of_one(query, column, other)
}

pub(crate) fn is_among_columns(query: &Select, column: &Column, columns: &[Column]) -> bool
    ensures { result ≡ among_columns (query_of query.now) column.now columns.now }
{
    for other in columns {
        if same_column(query, other, column) {
            return true;
        }
    }
    false
}

fn is_among_keys(query: &Select, column: &Column, list: &Keys) -> bool
    ensures { result ≡ among_columns (query_of query.now) column.now (keys list.now) }
{
    same_column(query, &list.first, column) || is_among_columns(query, column, list.more.as_slice())
}

fn is_grouped(query: &Select, column: &Column) -> bool
    ensures { result ≡ is_listed (query_of query.now) column.now query.now.group }
{
    match &query.group {
        Some(keys) => is_among_keys(query, column, keys),
        None => false,
    }
}

fn is_parted(query: &Select, column: &Column) -> bool
    ensures { result ≡ is_listed (query_of query.now) column.now (partition_of query.now.from) }
{
    match partition_of(&query.from) {
        Some(keys) => is_among_keys(query, column, keys),
        None => false,
    }
}

// A column that GROUP BY or PARTITION BY names.
fn is_column_key(query: &Select, column: &Column) -> bool
    ensures { result ≡ is_column_key (query_of query.now) (f.Column column.now) }
{
    is_grouped(query, column) || is_parted(query, column)
}

/// A single column of GROUP BY or PARTITION BY.
pub(crate) fn is_key(query: &Select, expr: &Expr) -> bool
    ensures { result ≡ is_key (query_of query.now) expr.now }
{
    if !expr.more.as_slice().is_empty() || !expr.first.more.as_slice().is_empty() {
        return false;
    }
    match &expr.first.first {
        Factor::Column(column) => is_column_key(query, column),
        Factor::Number(_) => false,
        Factor::Negative(_) => false,
    }
}
