// What a query's blocks have beside their own rows: rows of the block before, and where rows stand
// among those of their key lists.
ghost use Rattle.std.specs.Prelude.{◌≡◌, ◌++◌, [], None, List, IfOk, OnOk, IfSome};
ghost use Rattle.saber_plan.specs.declared.rows.Row.{Row};
ghost use Rattle.saber_plan.specs.Trees.{Tree, tree_of};
ghost use Rattle.saber_plan.specs.GivenRows.{RowsFit};
ghost use Rattle.saber_plan.specs.Windows.{no_rows};
ghost use Rattle.saber_dispatch.specs.Keeping.{CountsRows, GivesLast, KeepsOn, OnlyAdded, PlacesNext, IsCopyOf, HasKept};

use saber_fragment::{Block, Earlier};
use saber_places::{Places, places_of};
use saber_plan::{NoMemory, Plan, Shape, Sizes, Stream};
use saber_window::may_lie_in_two;
use std::alloc::Global;

/// Gives the blocks of one query what they have beside their own rows. Each has a copy of the rows
/// of the block before it, where that lets its task answer windows that lie in both: else they
/// would be put together under the turn, by one thread at a time. With PARTITION BY each tells
/// where its rows stand among those of their key lists. A cutter knows nothing of either.
#[derive(Drop)]
pub struct Keeper {
    pub(crate) alloc: Global,
    // whether rows are kept at all
    pub(crate) keeps: bool,
    // those of the last block
    pub(crate) kept: Option<Earlier>,
    // of a query with PARTITION BY
    pub(crate) places: Option<Places>,
}

// Whether many windows of the one stream lie whole in two tasks and not in one.
fn has_such(streams: &[Stream], task: u32) -> bool {
    match streams {
        [stream] => match &stream.window {
            Some(window) => may_lie_in_two(window, task),
            None => false,
        },
        _ => false,
    }
}

// Whether a query's tasks are to have the rows of the task before: with no thread beside the
// caller's nothing waits for the turn, and with PARTITION BY no task answers a window by itself.
fn helps(plan: &Plan, sizes: &Sizes) -> bool {
    match plan.shape() {
        Shape::Select => false,
        Shape::Group => {
            sizes.threads > 0 && plan.partition().is_empty() && has_such(plan.streams(), sizes.task)
        }
        Shape::Join => false,
    }
}

// The block with these rows before its own, if there are any, and with these places of its own.
fn with_kept(block: Block, kept: Option<Earlier>, places: Vec<u64>) -> Block
    ensures same { OnlyAdded block result }
    ensures has { HasKept block kept result }
    ensures places { result.places ≡ places }
{
    let mut block = block;
    block.places = places;
    match kept {
        Some(earlier) => {
            block.earlier = earlier;
            block
        }
        None => block,
    }
}

impl Keeper {
    /// For the blocks of a checked plan's tasks, of which none was given. Memory is taken for the
    /// columns of PARTITION BY.
    pub fn new(alloc: Global, plan: &Plan, sizes: &Sizes) -> Result<Keeper, NoMemory>
        ensures kept { IfOk result (λ k. k.kept ≡ None) }
        ensures counted { IfOk result (λ k. CountsRows k (tree_of plan.now) []) }
    {
        let places = Places::of_plan(alloc, plan)?;
        Ok(Keeper {
            alloc,
            keeps: helps(plan, sizes),
            kept: None,
            places,
        })
    }

    // A copy of a block's rows, where they are wanted and memory serves.
    fn copy_of(&self, block: &Block) -> Option<Earlier>
        ensures { IfSome result (IsCopyOf block.now) }
    {
        if !self.keeps {
            return None;
        }
        match block.rows.copy(self.alloc) {
            Ok(rows) => Some(Earlier {
                before: block.before,
                rows,
            }),
            Err(_) => None,
        }
    }

    /// The next block, with the rows of the one before it where they are kept, and with where its
    /// own stand among those of their key lists where the plan has PARTITION BY: a key list that is
    /// new takes memory. Want of memory for a copy is no error: then the next block has none of
    /// these rows.
    pub fn pass_on(&mut self, block: Block) -> Result<Block, NoMemory>
        requires { (q : Tree) × (xs : List Row) × CountsRows self.old q xs × RowsFit q no_rows (xs ++ block.rows) }
        ensures same { IfOk result (OnlyAdded block) }
        ensures gives { IfOk result (GivesLast self.old block) }
        ensures keeps { OnOk result (KeepsOn self.old block self.new) }
        ensures places { IfOk result (λ c. PlacesNext self.old c self.new) }
    {
        let places = places_of(&mut self.places, self.alloc, &block.rows)?;
        let copy = self.copy_of(&block);
        let kept = self.kept.take();
        self.kept = copy;
        Ok(with_kept(block, kept, places))
    }
}
