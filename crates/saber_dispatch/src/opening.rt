// What a cutter begins with.
ghost use Rattle.std.specs.Prelude.{◌≡◌, ◌≤◌, ℕ, [], IfOk};
ghost use Rattle.saber_plan.specs.Trees.{tree_of};
ghost use Rattle.saber_plan.specs.Checked.{IsChecked};
ghost use Rattle.saber_plan.specs.Sizes.{SizesFit, limits_of};
ghost use Rattle.saber_dispatch.specs.Readings.{reading_of, one_new, two_new};
ghost use Rattle.saber_dispatch.specs.Cutting.{LooksBack, end_counts, fresh};

use crate::lasts::Lasts;
use crate::letting::let_lines_go;
use crate::reader::Reader;
use saber_plan::{NoMemory, Plan, Shape, Side, Sizes};
use saber_rows::{Lines, Merge};
use saber_window::Windows;
use std::alloc::Global;
use std::collections::VecDeque;

// A reader of one input.
fn one_reader(alloc: Global, columns: u32, sizes: &Sizes) -> Result<Reader, NoMemory>
    requires some_columns { 1 ≤ columns }
    requires most_columns { columns ≤ 32 }
    requires sizes { SizesFit sizes.now }
    ensures { IfOk result (λ r. reading_of r ≡ one_new columns (limits_of sizes.now)) }
{
    let lines = Lines::new(alloc, Side::Left, columns, sizes.max_lines, sizes.slack)?;
    Ok(Reader::One(lines))
}

// The merge of two.
fn two_readers(alloc: Global, left: u32, right: u32, sizes: &Sizes) -> Result<Reader, NoMemory>
    requires some_left { 1 ≤ left }
    requires most_left { left ≤ 32 }
    requires some_right { 1 ≤ right }
    requires most_right { right ≤ 32 }
    requires sizes { SizesFit sizes.now }
    ensures { IfOk result (λ r. reading_of r ≡ two_new left right (limits_of sizes.now)) }
{
    let left = Lines::new(alloc, Side::Left, left, sizes.max_lines, sizes.slack)?;
    match Lines::new(alloc, Side::Right, right, sizes.max_lines, sizes.slack) {
        Ok(right) => Ok(Reader::Two(Merge::new(left, right))),
        Err(stop) => {
            let_lines_go(left);
            Err(stop)
        }
    }
}

/// The reader of a plan's inputs.
pub(crate) fn reader_for(alloc: Global, plan: &Plan, sizes: &Sizes) -> Result<Reader, NoMemory>
    requires sizes { SizesFit sizes.now }
    ensures fresh { IfOk result (λ r. reading_of r ≡ fresh (tree_of plan.now) (limits_of sizes.now)) }
    ensures checked { IsChecked (tree_of plan.now) }
{
    match plan.streams() {
        [] => unreachable!(),
        [stream] => one_reader(alloc, stream.columns, sizes),
        [left, right, ..] => two_readers(alloc, left.columns, right.columns, sizes),
    }
}

/// What is kept to tell how far back tasks look, before the first block.
pub(crate) fn lasts_for(alloc: Global, plan: &Plan) -> Option<Lasts>
    ensures { (n : ℕ) → LooksBack (tree_of plan.now) n [] 0 result }
{
    match plan.shape() {
        Shape::Select => None,
        Shape::Group => None,
        Shape::Join => Some(Lasts {
            windows: Windows::of_plan(plan),
            first: 0,
            list: VecDeque::new(alloc),
        }),
    }
}

/// Whether the end of the input is a task of a plan: that is asked for, and the query has
/// windows.
#[tactic(auto, using(crate::proofs::EndCounts::counts))]
pub fn end_counts(plan: &Plan, sizes: &Sizes) -> bool
    ensures counts { result ≡ end_counts (tree_of plan.now) sizes.now }
    ensures checked { IsChecked (tree_of plan.now) }
{
    match plan.shape() {
        Shape::Select => match plan.word() {
            None => false,
            Some(_) => sizes.flush,
        },
        Shape::Group => sizes.flush,
        Shape::Join => sizes.flush,
    }
}
