// The blocks of a feed, as the tasks of a run.
ghost use Rattle.std.specs.Prelude.{◌≡◌, ℕ, [], ◌++◌, length, Some, None, IfOk, IsSome, false};
ghost use Rattle.saber_plan.specs.Sizes.{SizesFit};
ghost use Rattle.saber_plan.specs.Trees.{tree_of};
ghost use Rattle.saber_dispatch.specs.Feeding.{CutsNothingFed, fed_end_of};
ghost use Rattle.saber_dispatch.specs.FedReadings.{NothingWaits};
ghost use Rattle.saber_dispatch.specs.Keeping.{CountsRows};
ghost use Rattle.saber_plan.specs.declared.sizes.Sizes.{Sizes};
ghost use Rattle.saber_engine.specs.FedSupplying.{feed_seen, fed_standing, FedAt, FedSome, FeedsNext, TriesNext, DryOrCame};

use saber_assembly::SaberWork;
use saber_crew::{Supplied, Supply};
use saber_dispatch::{End, FedCutter, Keeper, Step};
use saber_fragment::{Block, Operator};
use saber_io::{Feed, Sink};
use saber_plan::{NoMemory, Plan, Sizes};
use std::alloc::Global;
use std::marker::{Brand, PhantomData};

// So often in a row a feed is refilled for one block, as long as something comes.
const REFILLS: u32 = 64;

/// What there was when a run over a feed began. The caller picks it, for the contracts alone.
pub(crate) trait BeginsFed {
    // the sizes of the run
    ghost sizes: { Sizes };

    // the feed's count of faults
    ghost faults: { ℕ };
}

impl BeginsFed for Brand {
    ghost sizes = { record { task = 1; ring = 1; threads = 0; max_lines = 1; slack = 0; flush = false } };

    ghost faults = { 0 };
}

/// The blocks of a run over a feed that began so, and how they ended, once they did.
pub(crate) struct FedBlocks<F, J> {
    pub(crate) cutter: FedCutter,
    pub(crate) keeper: Keeper,
    pub(crate) end: Option<End>,
    pub(crate) feed: PhantomData<F>,
    pub(crate) begun: PhantomData<J>,
}

impl<F, J> FedBlocks<F, J> {
    /// Those of a feed for a plan of one stream, of which none was given.
    pub(crate) fn new(
        alloc: Global,
        plan: &Plan,
        sizes: &Sizes,
    ) -> Result<FedBlocks<F, J>, NoMemory>
        requires one { length (tree_of plan.now).streams ≡ 1 }
        requires sizes { SizesFit sizes.now }
        ensures cuts { IfOk result (λ b. CutsNothingFed (tree_of plan.now) sizes.now b.cutter) }
        ensures goes { IfOk result (λ b. fed_end_of b.cutter ≡ None) }
        ensures kept { IfOk result (λ b. b.keeper.kept ≡ None) }
        ensures counted { IfOk result (λ b. CountsRows b.keeper (tree_of plan.now) []) }
        ensures end { IfOk result (λ b. b.end ≡ None) }
    {
        let cutter = FedCutter::new(alloc, plan, sizes)?;
        match Keeper::new(alloc, plan, sizes) {
            Ok(keeper) => Ok(FedBlocks {
                cutter,
                keeper,
                end: None,
                feed: PhantomData,
                begun: PhantomData,
            }),
            Err(lacks) => {
                cutter.let_go();
                Err(lacks)
            }
        }
    }

    /// Lets them go, and tells how they ended.
    pub(crate) fn let_go(self) -> Option<End>
        ensures { result ≡ self.end }
    {
        let FedBlocks {
            cutter,
            keeper,
            end,
            feed: _feed,
            begun: _begun,
        } = self;
        cutter.let_go();
        keeper.let_go();
        end
    }
}

// The next block, if it is there; else the feed is refilled. None where that brought something, so
// that the block may be there now.
fn try_next<F: Feed, J: BeginsFed, O: Operator>(
    blocks: &mut FedBlocks<F, J>,
    feed: &mut F,
) -> Option<Supplied<Block>>
    requires given { FedSome O.plan J.sizes J.faults (fed_standing (feed_seen F.taken F.waiting F.mark F.faults feed.old) blocks.old.cutter blocks.old.keeper blocks.old.end) }
    requires goes { blocks.old.end ≡ None }
    ensures gives { TriesNext O.plan J.sizes J.faults
        (fed_standing (feed_seen F.taken F.waiting F.mark F.faults feed.old) blocks.old.cutter blocks.old.keeper blocks.old.end)
        (fed_standing (feed_seen F.taken F.waiting F.mark F.faults feed.new) blocks.new.cutter blocks.new.keeper blocks.new.end) result }
    ensures over { result ≡ Some Supplied.Over → IsSome blocks.new.end }
    ensures goes { result ≡ None → blocks.new.end ≡ None }

    // It is dry only where nothing waits and no mark was taken; and where it is to be tried again,
    // no mark was taken before, and all that waits came now.
    ensures dry { result ≡ Some Supplied.Dry → NothingWaits (F.waiting feed.new) (F.mark feed.new) }
    ensures came { result ≡ None → (F.mark feed.old ≡ None) × (F.taken feed.new ≡ F.taken feed.old ++ F.waiting feed.new) }
{
    match blocks.cutter.step(feed) {
        Step::Block(block) => {
            let number = block.number;
            let ended = block.ended;
            match blocks.keeper.pass_on(block) {
                Ok(block) => Some(Supplied::Rows(block)),
                Err(_) => {
                    blocks.cutter.take_back(number, ended);
                    blocks.end = Some(End::NoMemory);
                    Some(Supplied::Over)
                }
            }
        }
        Step::Ended(end) => {
            blocks.end = Some(end);
            Some(Supplied::Over)
        }
        Step::Dry => {
            if feed.refill() {
                None
            } else {
                Some(Supplied::Dry)
            }
        }
    }
}

impl<F: Feed, J: BeginsFed, O: Operator, K: Sink> Supply<SaberWork<O, K>> for FedBlocks<F, J> {
    type From = F;

    ghost has_given = { λ blocks from told d.
        FedAt O.plan J.sizes J.faults (fed_standing (feed_seen F.taken F.waiting F.mark F.faults from) blocks.cutter blocks.keeper blocks.end) told d };

    ghost is_over = { λ blocks. IsSome blocks.end };

    fn next(&mut self, from: &mut F) -> Supplied<Block>
        requires { FedSome O.plan J.sizes J.faults (fed_standing (feed_seen F.taken F.waiting F.mark F.faults from.old) self.old.cutter self.old.keeper self.old.end) }
        ensures gives { FeedsNext O.plan J.sizes J.faults
            (fed_standing (feed_seen F.taken F.waiting F.mark F.faults from.old) self.old.cutter self.old.keeper self.old.end)
            (fed_standing (feed_seen F.taken F.waiting F.mark F.faults from.new) self.new.cutter self.new.keeper self.new.end) result }
        ensures over { result ≡ Supplied.Over → IsSome self.new.end }

        // It is dry only where nothing waits and no mark was taken, or all that waits came now.
        ensures dry { result ≡ Supplied.Dry → DryOrCame (F.mark from.old) (F.taken from.old) (F.taken from.new) (F.waiting from.new) (F.mark from.new) }
    {
        if self.end.is_some() {
            return Supplied::Over;
        }
        for _ in 0..REFILLS {
            if let Some(supplied) = try_next::<F, J, O>(self, from) {
                return supplied;
            }
        }
        Supplied::Dry
    }
}
