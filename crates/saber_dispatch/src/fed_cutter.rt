// Blocks of a feed, one after another.
ghost use Rattle.std.specs.Prelude.{◌≡◌};
ghost use Rattle.saber_dispatch.specs.Feeding.{step_of};

use crate::cutter::{Cut, Cutter, USUAL_COLUMNS};
use crate::ends::End;
use crate::fed_fill::{Progress, fill_fed};
use saber_flat::Rows;
use saber_fragment::Block;
use saber_io::Feed;
use saber_plan::{Mark, NoMemory, Plan, Sizes};
use std::alloc::Global;

// A block that isn't whole: what stands before it, and those of its rows that came.
#[derive(Drop)]
pub(crate) struct Begun {
    pub(crate) before: Mark,
    pub(crate) rows: Rows,
}

/// Cuts the rows of a feed into blocks, for a query of one stream. A block that isn't whole is kept
/// from call to call. Contracts see it by `CutsFed`: which tasks its blocks were, of what was taken
/// of the feed so far. It is called with the same feed each time, and the feed may be refilled in
/// between.
#[derive(Drop)]
pub struct FedCutter {
    pub(crate) cutter: Cutter,
    // the block that is begun, if one is
    pub(crate) begun: Option<Begun>,
}

/// What a call of a cutter over a feed comes to.
#[derive(Drop)]
pub enum Step {
    /// The next task's block.
    Block(Block),
    /// The next block isn't whole, and nothing is there as yet. A later call goes on with its rows.
    Dry,
    /// No more blocks come.
    Ended(End),
}

// A block of a cutter, or an end, as a step.
fn step_of(cut: Cut) -> Step
    ensures { result ≡ step_of cut }
{
    match cut {
        Cut::Block(block) => Step::Block(block),
        Cut::Ended(end) => Step::Ended(end),
    }
}

impl FedCutter {
    ghost use Rattle.std.specs.Prelude.{◌≡◌, ◌≢◌, ◌≤◌, IfOk, OnErr, IfSome, Some, None, length};
    ghost use Rattle.saber_io.specs.declared.feeds.EndMark.TheVariants as marks;
    ghost use Rattle.saber_plan.specs.Outputs.{Rose};
    ghost use Rattle.saber_plan.specs.declared.rows.Side.{Side};
    ghost use Rattle.saber_plan.specs.declared.sizes.Sizes.{Sizes};
    ghost use Rattle.saber_plan.specs.Trees.{Tree, tree_of};
    ghost use Rattle.saber_plan.specs.Checked.{IsChecked};
    ghost use Rattle.saber_plan.specs.Inputs.{Input};
    ghost use Rattle.saber_plan.specs.Sizes.{SizesFit};
    ghost use Rattle.saber_fragment.specs.declared.blocks.Block.{Block};
    ghost use Rattle.saber_dispatch.specs.declared.ends.End.{End};
    ghost use Rattle.saber_dispatch.specs.declared.fed_cutter.Step.{Step};
    ghost use Rattle.saber_dispatch.specs.Feeding.{Agrees, Begins, BeginsOn, CutsFed, CutsNothingFed, IsShort, IsWaiting, StepsFrom, TakenBackFed, WaitsIfFew, StepsOn, begun_count, fed_end_of};
    ghost use Rattle.saber_dispatch.specs.FedReadings.{NothingWaits, IsCutOff};

    /// A cutter of a plan of one stream, which was given nothing. A block has `sizes.task`
    /// rows, and no task may need more than `sizes.ring` blocks, its own counted. With
    /// `sizes.flush` the end of the feed is a block too, where the query has windows. The memory of
    /// the reader's buffer is taken here.
    pub fn new(alloc: Global, plan: &Plan, sizes: &Sizes) -> Result<FedCutter, NoMemory>
        requires one { length (tree_of plan.now).streams ≡ 1 }
        requires sizes { SizesFit sizes.now }
        ensures checked { IsChecked (tree_of plan.now) }
        ensures cuts { IfOk result (CutsNothingFed (tree_of plan.now) sizes.now) }
        ensures goes { IfOk result (λ c. fed_end_of c ≡ None) }
    {
        let cutter = Cutter::new(alloc, plan, sizes)?;
        Ok(FedCutter {
            cutter,
            begun: None,
        })
    }

    /// Takes back the block that was given last, as `Cutter::take_back`.
    pub fn take_back(&mut self, number: u64, ended: bool)
        ensures cuts { TakenBackFed number ended self.old self.new }
    {
        self.cutter.take_back(number, ended);
    }

    // The block that is begun, else one with no rows yet.
    fn begin(&mut self) -> Result<Begun, NoMemory>
        requires { self.old.cutter.ended ≡ None }
        ensures begins { IfOk result (BeginsOn self.old) }
        ensures cutter { self.new.cutter ≡ self.old.cutter }
        ensures begun { self.new.begun ≡ None }
        ensures none { OnErr result (self.old.begun ≡ None) }
        ensures count { IfOk result (λ b. length b.rows ≡ begun_count self.old.begun) }
    {
        match self.begun.take() {
            Some(begun) => Ok(begun),
            None => {
                let room = self.cutter.size.saturating_mul(USUAL_COLUMNS);
                let rows = Rows::with_capacity(self.cutter.alloc, self.cutter.size, room)?;
                Ok(Begun {
                    before: self.cutter.mark,
                    rows,
                })
            }
        }
    }

    // Goes on with a block that was begun.
    fn fill_begun<F: Feed>(&mut self, begun: Begun, feed: &mut F) -> Step
        requires none { self.old.begun ≡ None }
        requires agrees { Agrees self.old.cutter (F.waiting feed.old) (F.mark feed.old) }
        requires begins { (q : Tree) × (s : Sizes) × (r : Input) × Begins q s (F.taken feed.old) (F.waiting feed.old) self.old.cutter r begun.before begun.rows }
        ensures cuts { StepsFrom begun result (F.taken feed.old) (F.waiting feed.old) (F.waiting feed.new) (F.mark feed.old) self.old.cutter self.new }
        ensures stands { (F.taken feed.new ≡ F.taken feed.old) × (F.mark feed.new ≡ F.mark feed.old) }
        ensures short { WaitsIfFew self.old.cutter begun (F.waiting feed.old) (F.mark feed.old) result }
        ensures cause { (side : Side) → result ≡ Step.Ended (End.ReadFault side) → Rose (F.faults feed.old) (F.faults feed.new) }
        ensures sound { (b : Block) → result ≡ Step.Block b → (side : Side) → self.new.cutter.ended ≢ Some (End.ReadFault side) }
        ensures good { ((side : Side) → result ≢ Step.Ended (End.ReadFault side)) → F.faults feed.new ≡ F.faults feed.old }
        ensures count { F.faults feed.old ≤ F.faults feed.new }
        ensures none { (b : Block) → result ≡ Step.Block b → self.new.begun ≡ None }
    {
        let Begun { before, mut rows } = begun;
        let cutter = &mut self.cutter;
        match fill_fed(
            &mut cutter.reader,
            feed,
            &mut cutter.mark,
            &mut rows,
            cutter.size,
        ) {
            Progress::Full => step_of(self.cutter.close(Ok(()), before, rows)),
            Progress::Dry => {
                self.begun = Some(Begun { before, rows });
                Step::Dry
            }
            Progress::Ended(end) => step_of(self.cutter.close(Err(end), before, rows)),
        }
    }

    // Goes on with the block that is begun, or begins one.
    fn go_on<F: Feed>(&mut self, feed: &mut F) -> Step
        requires goes { self.old.cutter.ended ≡ None }
        requires cuts { (q : Tree) × (s : Sizes) × (r : Input) × CutsFed q s (F.taken feed.old) (F.waiting feed.old) (F.mark feed.old) self.old r }
        ensures cuts { StepsOn result (F.taken feed.old) (F.waiting feed.old) (F.waiting feed.new) (F.mark feed.old) self.old self.new }
        ensures stands { (F.taken feed.new ≡ F.taken feed.old) × (F.mark feed.new ≡ F.mark feed.old) }
        ensures short { IsShort (F.waiting feed.old) (F.mark feed.old) self.old → IsWaiting result }
        ensures cause { (side : Side) → result ≡ Step.Ended (End.ReadFault side) → Rose (F.faults feed.old) (F.faults feed.new) }
        ensures sound { (b : Block) → result ≡ Step.Block b → (side : Side) → self.new.cutter.ended ≢ Some (End.ReadFault side) }
        ensures good { ((side : Side) → result ≢ Step.Ended (End.ReadFault side)) → F.faults feed.new ≡ F.faults feed.old }
        ensures count { F.faults feed.old ≤ F.faults feed.new }
        ensures none { (b : Block) → result ≡ Step.Block b → self.new.begun ≡ None }
    {
        match self.begin() {
            Ok(begun) => self.fill_begun(begun, feed),
            Err(_) => {
                self.cutter.ended = Some(End::NoMemory);
                Step::Ended(End::NoMemory)
            }
        }
    }

    /// The next block, as `Cutter::next_block` gives it; or, where the rows of the next task aren't
    /// all there and the feed has nothing as yet, that it is dry: what came is kept, and a call
    /// after a refill goes on with it. After an end each later call gives the same answer and asks
    /// nothing.
    pub fn step<F: Feed>(&mut self, feed: &mut F) -> Step
        requires { (q : Tree) × (s : Sizes) × (r : Input) × CutsFed q s (F.taken feed.old) (F.waiting feed.old) (F.mark feed.old) self.old r }

        // Whatever was given before, the block is the next task's, or the end has its cause; what
        // is begun is kept.
        ensures cuts { StepsOn result (F.taken feed.old) (F.waiting feed.old) (F.waiting feed.new) (F.mark feed.old) self.old self.new }

        // Only a refill takes more of the feed.
        ensures stands { (F.taken feed.new ≡ F.taken feed.old) × (F.mark feed.new ≡ F.mark feed.old) }

        // An end is given again.
        ensures again { IfSome (fed_end_of self.old) (λ end. (result ≡ Step.Ended end) × (self.new ≡ self.old) × (feed.new ≡ feed.old)) }

        // All is read only where the feed has ended.
        ensures all { result ≡ Step.Ended End.AllRead → F.mark feed.new ≡ Some marks.End }

        // It is dry only where nothing waits and no mark was taken; and wherever the block isn't
        // whole with all that waits, but for want of memory.
        ensures dry { result ≡ Step.Dry → NothingWaits (F.waiting feed.new) (F.mark feed.new) }
        ensures short { IsShort (F.waiting feed.old) (F.mark feed.old) self.old → IsWaiting result }

        // A fault of reading comes only where the feed was cut, first in a call in which its count
        // rose, and with no block; else the count stays.
        ensures cut { (side : Side) → result ≡ Step.Ended (End.ReadFault side) → IsCutOff (F.waiting feed.new) (F.mark feed.new) }
        ensures cause { fed_end_of self.old ≡ None → (side : Side) → result ≡ Step.Ended (End.ReadFault side) → Rose (F.faults feed.old) (F.faults feed.new) }
        ensures sound { (b : Block) → result ≡ Step.Block b → (side : Side) → fed_end_of self.new ≢ Some (End.ReadFault side) }
        ensures good { ((side : Side) → result ≢ Step.Ended (End.ReadFault side)) → F.faults feed.new ≡ F.faults feed.old }
        ensures count { F.faults feed.old ≤ F.faults feed.new }

        // A block is whole, and behind it none is begun.
        ensures none { (b : Block) → result ≡ Step.Block b → self.new.begun ≡ None }
    {
        match self.cutter.ended {
            Some(end) => step_of(self.cutter.stop_at(end)),
            None => self.go_on(feed),
        }
    }
}
