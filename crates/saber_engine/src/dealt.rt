// The blocks of one input, dealt to several queries as the tasks of a run.
ghost use Rattle.std.specs.Prelude.{◌≡◌, ◌≢◌, ℕ, [], length, None, IfOk, IsSome};
ghost use Rattle.std.specs.List.{AllByRecursion, AllZip};
ghost use Rattle.saber_plan.specs.Sizes.{SizesFit};
ghost use Rattle.saber_dispatch.specs.Cutting.{CutsNothing, end_of};
ghost use Rattle.saber_dispatch.specs.Ending.{without_end};
ghost use Rattle.saber_engine.specs.Dealing.{IsLike, CanPass, Passes, DealsEach, dealt_standing, DealtAt, DealtSome, DealsNext};
ghost use Rattle.saber_engine.specs.Jobs.{tree_in, MayShare, KeepsNone};

use crate::blocks::Begins;
use crate::jobs::{Job, keepers_for};
use saber_assembly::SaberWork;
use saber_crew::{Supplied, Supply};
use saber_dispatch::{Cut, Cutter, End, Inputs, Keeper};
use saber_fragment::{Block, Earlier, Operator};
use saber_io::{Sink, Source};
use saber_many::Many;
use saber_plan::{NoMemory, Sizes};
use std::alloc::Global;
use std::collections::VecDeque;
use std::marker::PhantomData;

/// The blocks of a run that began so, of which each query has its own, and how they ended, once
/// they did.
pub(crate) struct Dealt<S, J> {
    pub(crate) alloc: Global,
    pub(crate) cutter: Cutter,
    /// One for each query, in their order.
    pub(crate) keepers: Vec<Keeper>,
    pub(crate) end: Option<End>,
    pub(crate) source: PhantomData<S>,
    pub(crate) begun: PhantomData<J>,
}

// A block like this one, for another query.
fn like(alloc: Global, block: &Block) -> Result<Block, NoMemory>
    ensures { IfOk result (IsLike block.now) }
{
    let rows = block.rows.copy(alloc)?;
    Ok(Block {
        number: block.number,
        first: block.first,
        earlier: Earlier::none(alloc, block.before),
        before: block.before,
        rows,
        places: Vec::new(alloc),
        ended: block.ended,
    })
}

// A block like this one, which the keeper of its query passes on.
fn deal_one(alloc: Global, keeper: &mut Keeper, block: &Block) -> Result<Block, NoMemory>
    requires { CanPass block.now keeper.old }
    ensures { IfOk result (λ own. Passes keeper.old block.now own keeper.new) }
{
    let own = like(alloc, block)?;
    keeper.pass_on(own)
}

// A block for each keeper, in their order.
fn deal_each(
    alloc: Global,
    keepers: &mut [Keeper],
    block: &Block,
) -> Result<VecDeque<Block>, NoMemory>
    requires { AllByRecursion (CanPass block.now) keepers.old }
    ensures deals { IfOk result (λ blocks. DealsEach block.now keepers.old blocks.items keepers.new) }
    ensures many { length keepers.new ≡ length keepers.old }
{
    let Some((keeper, others)) = keepers.split_first_mut() else {
        return Ok(VecDeque::new(alloc));
    };
    let own = deal_one(alloc, keeper, block)?;
    let mut blocks = deal_each(alloc, others, block)?;
    blocks.push_front(own)?;
    Ok(blocks)
}

// The same as rows of a task.
fn deal(alloc: Global, keepers: &mut Vec<Keeper>, block: &Block) -> Result<Vec<Block>, NoMemory>
    requires { AllByRecursion (CanPass block.now) keepers.old.items }
    ensures deals { IfOk result (λ blocks. DealsEach block.now keepers.old.items blocks.items keepers.new.items) }
    ensures many { length keepers.new.items ≡ length keepers.old.items }
{
    let blocks = deal_each(alloc, keepers, block)?;
    Ok(Vec::from(blocks))
}

// The same sizes, where the end of the input is no task.
fn without_end(sizes: &Sizes) -> Sizes
    ensures { result ≡ without_end sizes.now }
{
    Sizes {
        flush: false,
        ..*sizes
    }
}

// The cutter of the first plan, which serves all: the rows are the same for each, and nobody's
// windows look at it. The end of the input is none of its blocks, since it isn't a task of each.
fn cutter_for<K>(alloc: Global, jobs: &[Job<'_, K>], sizes: &Sizes) -> Result<Cutter, NoMemory>
    requires some { jobs.now ≢ [] }
    requires share { (columns : ℕ) × AllByRecursion (λ job. MayShare columns (tree_in job)) jobs.now }
    requires sizes { SizesFit sizes.now }
    ensures cuts { IfOk result (λ c. AllByRecursion (λ job. CutsNothing (tree_in job) (without_end sizes.now) c) jobs.now) }
    ensures goes { IfOk result (λ c. end_of c ≡ None) }
{
    let Some((job, _others)) = jobs.split_first() else {
        unreachable!()
    };
    let still = without_end(sizes);
    Cutter::new(alloc, job.plan, &still)
}

impl<S, J> Dealt<S, J> {
    /// Those of the one input of these queries, of which none was given.
    pub(crate) fn new<K>(
        alloc: Global,
        jobs: &[Job<'_, K>],
        sizes: &Sizes,
    ) -> Result<Dealt<S, J>, NoMemory>
        requires some { jobs.now ≢ [] }
        requires share { (columns : ℕ) × AllByRecursion (λ job. MayShare columns (tree_in job)) jobs.now }
        requires sizes { SizesFit sizes.now }
        ensures cuts { IfOk result (λ b. AllByRecursion (λ job. CutsNothing (tree_in job) (without_end sizes.now) b.cutter) jobs.now) }
        ensures goes { IfOk result (λ b. end_of b.cutter ≡ None) }
        ensures keepers { IfOk result (λ b. AllZip (λ job k. KeepsNone (tree_in job) k) jobs.now b.keepers.items) }
        ensures end { IfOk result (λ b. b.end ≡ None) }
    {
        let cutter = cutter_for(alloc, jobs, sizes)?;
        match keepers_for(alloc, jobs, sizes) {
            Ok(keepers) => Ok(Dealt {
                alloc,
                cutter,
                keepers: Vec::from(keepers),
                end: None,
                source: PhantomData,
                begun: PhantomData,
            }),
            Err(lacks) => {
                cutter.let_go();
                Err(lacks)
            }
        }
    }

    /// Lets them go, and tells how they ended.
    pub(crate) fn let_go(self) -> Option<End>
        ensures { result ≡ self.end }
    {
        let Dealt {
            alloc: _alloc,
            cutter,
            keepers,
            end,
            source: _source,
            begun: _begun,
        } = self;
        cutter.let_go();
        drop(keepers);
        end
    }
}

impl<S: Source, J: Begins, O: Operator, K: Sink> Supply<Many<SaberWork<O, K>>> for Dealt<S, J> {
    type From = Inputs<S>;

    ghost has_given = { λ dealt from told d. DealtAt O.plan J.sizes J.lefts J.faults (dealt_standing S.left S.faults from dealt.cutter dealt.keepers.items dealt.end) told d };

    ghost is_over = { λ dealt. IsSome dealt.end };

    fn next(&mut self, from: &mut Inputs<S>) -> Supplied<Vec<Block>>
        requires { DealtSome O.plan J.sizes J.lefts J.faults (dealt_standing S.left S.faults from.old self.old.cutter self.old.keepers.items self.old.end) }
        ensures gives { DealsNext O.plan J.sizes J.lefts J.faults
            (dealt_standing S.left S.faults from.old self.old.cutter self.old.keepers.items self.old.end)
            (dealt_standing S.left S.faults from.new self.new.cutter self.new.keepers.items self.new.end) result }
        ensures over { result ≡ Supplied.Over → IsSome self.new.end }

        // Files have each block at once, or none any more.
        ensures never { result ≢ Supplied.Dry }
    {
        match self.end {
            Some(_) => Supplied::Over,
            None => match self.cutter.next_block(from) {
                Cut::Block(block) => {
                    let number = block.number;
                    let ended = block.ended;
                    let dealt = deal(self.alloc, &mut self.keepers, &block);
                    drop(block);
                    match dealt {
                        Ok(blocks) => Supplied::Rows(blocks),
                        Err(_) => {
                            self.cutter.take_back(number, ended);
                            self.end = Some(End::NoMemory);
                            Supplied::Over
                        }
                    }
                }
                Cut::Ended(end) => {
                    self.end = Some(end);
                    Supplied::Over
                }
            },
        }
    }
}
