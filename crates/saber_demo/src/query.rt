// The query's plan.
ghost use Rattle.std.specs.Prelude.{◌≡◌, IfOk};
ghost use Rattle.saber_plan.specs.Trees.{tree_of};
ghost use Rattle.saber_demo.specs.Query.{demo_tree};

use saber_plan::{Aggregate, Expr, Fold, Measure, NoMemory, Plan, Shape, Stream, Window};
use std::alloc::Global;

// SUM(v)
fn aggregates(alloc: Global) -> Result<Vec<Aggregate>, NoMemory>
    ensures { IfOk result (λ v. v.items ≡ demo_tree.aggregates) }
{
    let mut aggregates = Vec::new(alloc);
    aggregates.push(Aggregate {
        fold: Fold::Sum,
        expr: Expr::lone(alloc, 2)?,
    })?;
    Ok(aggregates)
}

// What a group has, in order: g, COUNT(*), SUM(v)
fn items(alloc: Global) -> Result<Vec<Expr>, NoMemory>
    ensures { IfOk result (λ v. v.items ≡ demo_tree.items) }
{
    let mut items = Vec::new(alloc);
    items.push(Expr::lone(alloc, 0)?)?;
    items.push(Expr::lone(alloc, 1)?)?;
    items.push(Expr::lone(alloc, 2)?)?;
    Ok(items)
}

// D [RANGE 8 SLIDE 4]
fn streams(alloc: Global) -> Result<Vec<Stream>, NoMemory>
    ensures { IfOk result (λ v. v.items ≡ demo_tree.streams) }
{
    let mut streams = Vec::new(alloc);
    streams.push(Stream {
        columns: 3,
        window: Some(Window {
            measure: Measure::Range,
            size: 8,
            slide: 4,
        }),
    })?;
    Ok(streams)
}

/// The plan of `STREAM D(t,g,v); SELECT g, COUNT(*), SUM(v) FROM D [RANGE 8 SLIDE 4] GROUP BY g`.
#[tactic(auto, using(crate::proofs::DemoQuery::demo_parts_checked))]
pub fn demo_plan(alloc: Global) -> Result<Plan, NoMemory>
    ensures { IfOk result (λ p. tree_of p ≡ demo_tree) }
{
    let streams = streams(alloc)?;
    let aggregates = aggregates(alloc)?;
    let items = items(alloc)?;
    let mut keys = Vec::new(alloc);
    keys.push(1)?;
    Ok(Plan::new(
        Shape::Group,
        streams,
        aggregates,
        items,
        keys,
        None,
        Vec::new(alloc),
        None,
    ))
}
