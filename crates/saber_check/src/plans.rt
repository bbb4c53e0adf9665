// The plan of a query.
ghost use Rattle.std.specs.Prelude.{◌≡◌, ◌+◌, ◌≤◌, ◌^◌, map, option_map, length, IfOk};
ghost use Rattle.saber_plan.specs.Trees as t;
ghost use Rattle.saber_plan.specs.Checked.{IsChecked};
ghost use Rattle.saber_query.specs.Trees.{tests_of, query_of};
ghost use Rattle.saber_check.specs.Widths.{decl_width, span};
ghost use Rattle.saber_check.specs.Names.{decls, names};
ghost use Rattle.saber_check.specs.Faults.{keys};
ghost use Rattle.saber_check.specs.Plans.{columns, plan_place, plan_measure, plan_window, plan_stream, plan_shape, places, plan_keys, plan_partition, plan_word, plan_tests, plan_tree, streams, Small};

use crate::expressions::plan_place;
use crate::outputs::{Outputs, plan_outputs};
use crate::predicates::plan_pred;
use crate::shape::{is_group, is_join, partition_of};
use saber_plan::{NoMemory, Plan, Shape, Stream, Word};
use saber_query::{Decl, Keys, Measure, Name, Select, Source, StreamWord, Window};
use std::alloc::Global;

fn count(decl: &Decl) -> u32
    requires { decl_width decl.now ≤ 2 ^ 30 }
    ensures { result ≡ length (names decl.now) }
{
    decl.more.as_slice().len() as u32 + 1
}

fn columns_among(decls: &[Decl], stream: &Name) -> u32
    requires { span decl_width decls.now ≤ 2 ^ 30 }
    ensures { result ≡ columns decls.now stream.now }
{
    for decl in decls {
        if decl.name.is(stream) {
            return count(decl);
        }
    }
    0
}

fn columns(query: &Select, stream: &Name) -> u32
    requires { Small (query_of query.now) }
    ensures { result ≡ columns (decls (query_of query.now)) stream.now }
{
    if query.decl.name.is(stream) {
        return count(&query.decl);
    }
    columns_among(query.decls.as_slice(), stream)
}

fn measure(measure: &Measure) -> saber_plan::Measure
    ensures { result ≡ plan_measure measure.now }
{
    match measure {
        Measure::Rows => saber_plan::Measure::Rows,
        Measure::Range => saber_plan::Measure::Range,
        Measure::Partition(_) => saber_plan::Measure::Rows,
    }
}

fn window(window: &Option<Window>) -> Option<saber_plan::Window>
    ensures { result ≡ option_map plan_window window.now }
{
    match window {
        Some(inner) => Some(saber_plan::Window {
            measure: measure(&inner.measure),
            size: inner.size,
            slide: inner.slide,
        }),
        None => None,
    }
}

fn stream(query: &Select, source: &Source) -> Stream
    requires { Small (query_of query.now) }
    ensures { result ≡ plan_stream (query_of query.now) source.now }
{
    Stream {
        columns: columns(query, &source.name),
        window: window(&source.window),
    }
}

fn plan_streams(alloc: Global, query: &Select) -> Result<Vec<Stream>, NoMemory>
    requires { Small (query_of query.now) }
    ensures { IfOk result (λ v. v.items ≡ map (plan_stream (query_of query.now))
        (streams (query_of query.now))) }
{
    let mut list = Vec::new(alloc);
    list.push(stream(query, &query.from))?;
    match &query.second {
        Some(source) => {
            list.push(stream(query, source))?;
            Ok(list)
        }
        None => Ok(list),
    }
}

fn plan_keys(alloc: Global, query: &Select) -> Result<Vec<u32>, NoMemory>
    requires { Small (query_of query.now) }
    ensures { IfOk result (λ v. v.items ≡ plan_keys (query_of query.now)) }
{
    match &query.group {
        Some(keys) => places(alloc, query, keys),
        None => Ok(Vec::new(alloc)),
    }
}

fn places(alloc: Global, query: &Select, group: &Keys) -> Result<Vec<u32>, NoMemory>
    requires { Small (query_of query.now) }
    ensures { IfOk result (λ v. v.items ≡ map (plan_place (query_of query.now)) (keys group.now)) }
{
    let mut list = Vec::new(alloc);
    list.push(plan_place(query, &group.first))?;
    let columns = group.more.as_slice();
    for column in columns {
        list.push(plan_place(query, column))?;
    }
    Ok(list)
}

fn plan_partition(alloc: Global, query: &Select) -> Result<Vec<u32>, NoMemory>
    requires { Small (query_of query.now) }
    ensures { IfOk result (λ v. v.items ≡ plan_partition (query_of query.now)) }
{
    match partition_of(&query.from) {
        Some(keys) => places(alloc, query, keys),
        None => Ok(Vec::new(alloc)),
    }
}

fn plan_word(word: StreamWord) -> Word
    ensures { result ≡ plan_word word }
{
    match word {
        StreamWord::Rstream => Word::Rstream,
        StreamWord::Istream => Word::Istream,
        StreamWord::Dstream => Word::Dstream,
    }
}

fn word(query: &Select) -> Option<Word>
    ensures { result ≡ option_map plan_word (query_of query.now).word }
{
    match query.word {
        Some(word) => Some(plan_word(word)),
        None => None,
    }
}

fn plan_where(alloc: Global, query: &Select) -> Result<Option<saber_plan::Pred>, NoMemory>
    requires { Small (query_of query.now) }
    ensures { IfOk result (λ p. option_map t.tests_of p ≡ option_map
        (plan_tests (query_of query.now)) (option_map tests_of query.now.predicate)) }
{
    match &query.predicate {
        Some(pred) => Ok(Some(plan_pred(alloc, query, pred)?)),
        None => Ok(None),
    }
}

fn shape(query: &Select) -> Shape
    ensures { result ≡ plan_shape (query_of query.now) }
{
    if is_join(query) {
        return Shape::Join;
    }
    if is_group(query) {
        return Shape::Group;
    }
    Shape::Select
}

/// The plan of a query without a fault.
pub(crate) fn plan(alloc: Global, query: &Select) -> Result<Plan, NoMemory>
    requires small { Small (query_of query.now) }
    requires checked { IsChecked (plan_tree (query_of query.now)) }
    ensures { IfOk result (λ p. t.tree_of p ≡ plan_tree (query_of query.now)) }
{
    let streams = plan_streams(alloc, query)?;
    let keys = plan_keys(alloc, query)?;
    let Outputs { aggregates, items } = plan_outputs(alloc, query, &keys)?;
    let predicate = plan_where(alloc, query)?;
    let partition = plan_partition(alloc, query)?;
    Ok(Plan::new(
        shape(query),
        streams,
        aggregates,
        items,
        keys,
        predicate,
        partition,
        word(query),
    ))
}
