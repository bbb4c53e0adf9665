// What the groups of a query gather, and what a query prints.
ghost use Rattle.std.specs.Prelude.{◌≡◌, ◌+◌, ◌≤◌, ◌<◌, ◌^◌, ◌∷◌, ◌++◌, ◌==◌, [], map, length, IfOk, OnOk};
ghost use Rattle.std.specs.List.{position};
ghost use Rattle.saber_query.specs.Trees.{query_of};
ghost use Rattle.saber_check.specs.Faults.{items};
ghost use Rattle.saber_check.specs.declared.outputs.Output.TheVariants as out;
ghost use Rattle.saber_check.specs.Plans.{plan_expr, plan_value, key_place, plan_output, gathered_aggregates, printed_numbers, plan_outputs, plan_aggregates, plan_items, plan_keys, Small};

use crate::expressions::{expr, plan_place};
use crate::shape::is_group;
use saber_plan::{Aggregate, Expr, Fold, NoMemory};
use saber_query::{Factor, Item, Select};
use std::alloc::Global;

/// What an item of a group query prints: the number at a place that each group has, or an aggregate
/// that is gathered for it.
#[derive(Drop)]
pub(crate) enum Output {
    Place(u32),
    Aggregate(Aggregate),
}

/// What the groups of a query gather, and its items.
#[derive(Drop)]
pub(crate) struct Outputs {
    pub aggregates: Vec<Aggregate>,
    pub items: Vec<Expr>,
}

fn value(alloc: Global, query: &Select, item: &Item) -> Result<Expr, NoMemory>
    requires { Small (query_of query.now) }
    ensures { IfOk result (λ e. e ≡ plan_value (query_of query.now) item.now) }
{
    match item {
        Item::Count => Ok(Expr::from_vec(Vec::new(alloc))),
        Item::Sum(inner) => expr(alloc, query, inner),
        Item::Min(inner) => expr(alloc, query, inner),
        Item::Max(inner) => expr(alloc, query, inner),
        Item::Value(inner) => expr(alloc, query, inner),
    }
}

fn values(alloc: Global, query: &Select) -> Result<Vec<Expr>, NoMemory>
    requires { Small (query_of query.now) }
    ensures { IfOk result (λ v. v.items ≡ map (plan_value (query_of query.now))
        (items (query_of query.now))) }
{
    let mut list = Vec::new(alloc);
    list.push(value(alloc, query, &query.item)?)?;
    let others = query.items.as_slice();
    for next in others {
        list.push(value(alloc, query, next)?)?;
    }
    Ok(list)
}

fn place_among(place: u32, keys: &[u32]) -> Option<usize>
    ensures { result ≡ position (λ k. k == place) keys.now }
{
    keys.iter().position(|key| *key == place)
}

// The place of a column among those of GROUP BY.
fn key_place(query: &Select, keys: &[u32], factor: &Factor) -> Option<usize>
    requires small { Small (query_of query.now) }
    requires keys { keys.now ≡ plan_keys (query_of query.now) }
    ensures { result ≡ key_place (query_of query.now) factor.now }
{
    match factor {
        Factor::Column(column) => place_among(plan_place(query, column), keys),
        Factor::Number(_) => None,
        Factor::Negative(_) => None,
    }
}

fn aggregate(
    alloc: Global,
    query: &Select,
    fold: Fold,
    inner: &saber_query::Expr,
) -> Result<Output, NoMemory>
    requires { Small (query_of query.now) }
    ensures { IfOk result (λ o. o ≡ out.Aggregate (record { fold = fold; expr = plan_expr (query_of query.now) inner.now })) }
{
    Ok(Output::Aggregate(Aggregate {
        fold,
        expr: expr(alloc, query, inner)?,
    }))
}

fn item_output(alloc: Global, query: &Select, keys: &[u32], item: &Item) -> Result<Output, NoMemory>
    requires small { Small (query_of query.now) }
    requires keys { keys.now ≡ plan_keys (query_of query.now) }
    ensures { IfOk result (λ o. o ≡ plan_output (query_of query.now) item.now) }
{
    match item {
        Item::Count => Ok(Output::Place(keys.len() as u32)),
        Item::Sum(inner) => aggregate(alloc, query, Fold::Sum, inner),
        Item::Min(inner) => aggregate(alloc, query, Fold::Min, inner),
        Item::Max(inner) => aggregate(alloc, query, Fold::Max, inner),
        Item::Value(inner) => match key_place(query, keys, &inner.first.first) {
            Some(place) => Ok(Output::Place(place as u32)),
            None => aggregate(alloc, query, Fold::First, inner),
        },
    }
}

impl Outputs {
    // One output more, where the first aggregate stands at the place.
    fn put(&mut self, alloc: Global, first: u32, output: Output) -> Result<(), NoMemory>
        requires { first + length self.old.aggregates.items < 2 ^ 32 }
        ensures aggregates { OnOk result (self.new.aggregates.items ≡ self.old.aggregates.items ++ gathered_aggregates (output ∷ [])) }
        ensures items { OnOk result (self.new.items.items ≡ self.old.items.items
            ++ printed_numbers (first + length self.old.aggregates.items) (output ∷ [])) }
    {
        match output {
            Output::Place(place) => self.items.push(Expr::lone(alloc, place)?)?,
            Output::Aggregate(aggregate) => {
                let place = first + self.aggregates.len() as u32;
                self.aggregates.push(aggregate)?;
                self.items.push(Expr::lone(alloc, place)?)?;
            }
        }
        Ok(())
    }

    // What one item more prints.
    fn put_item(
        &mut self,
        alloc: Global,
        query: &Select,
        keys: &[u32],
        item: &Item,
    ) -> Result<(), NoMemory>
        requires small { Small (query_of query.now) }
        requires keys { keys.now ≡ plan_keys (query_of query.now) }
        requires room { length self.old.aggregates.items ≤ 2 ^ 30 }
        ensures aggregates { OnOk result (self.new.aggregates.items ≡ self.old.aggregates.items ++ gathered_aggregates (plan_output (query_of query.now) item.now ∷ [])) }
        ensures items { OnOk result (self.new.items.items ≡ self.old.items.items
            ++ printed_numbers (length keys.now + 1 + length self.old.aggregates.items) (plan_output (query_of query.now) item.now ∷ [])) }
    {
        let output = item_output(alloc, query, keys, item)?;
        self.put(alloc, keys.len() as u32 + 1, output)
    }
}

fn group_outputs(alloc: Global, query: &Select, keys: &[u32]) -> Result<Outputs, NoMemory>
    requires small { Small (query_of query.now) }
    requires keys { keys.now ≡ plan_keys (query_of query.now) }
    ensures aggregates { IfOk result (λ o. o.aggregates.items ≡ gathered_aggregates (plan_outputs (query_of query.now))) }
    ensures items { IfOk result (λ o. o.items.items ≡ printed_numbers (length keys.now + 1) (plan_outputs (query_of query.now))) }
{
    let mut outputs = Outputs {
        aggregates: Vec::new(alloc),
        items: Vec::new(alloc),
    };
    outputs.put_item(alloc, query, keys, &query.item)?;
    let others = query.items.as_slice();
    for next in others {
        outputs.put_item(alloc, query, keys, next)?;
    }
    Ok(outputs)
}

/// What the query gathers and prints, given the columns of GROUP BY.
pub(crate) fn plan_outputs(alloc: Global, query: &Select, keys: &[u32]) -> Result<Outputs, NoMemory>
    requires small { Small (query_of query.now) }
    requires keys { keys.now ≡ plan_keys (query_of query.now) }
    ensures aggregates { IfOk result (λ o. o.aggregates.items ≡ plan_aggregates (query_of query.now)) }
    ensures items { IfOk result (λ o. o.items.items ≡ plan_items (query_of query.now)) }
{
    if is_group(query) {
        return group_outputs(alloc, query, keys);
    }
    Ok(Outputs {
        aggregates: Vec::new(alloc),
        items: values(alloc, query)?,
    })
}
