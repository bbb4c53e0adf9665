// The blocks of a query's inputs, as the tasks of a run.
ghost use Rattle.std.specs.Prelude.{◌≡◌, ◌≢◌, ℕ, List, [], None, IfOk, IsSome, false};
ghost use Rattle.saber_plan.specs.Sizes.{SizesFit};
ghost use Rattle.saber_plan.specs.Trees.{tree_of};
ghost use Rattle.saber_plan.specs.declared.sizes.Sizes.{Sizes};
ghost use Rattle.saber_dispatch.specs.Cutting.{CutsNothing, end_of};
ghost use Rattle.saber_dispatch.specs.Keeping.{CountsRows};
ghost use Rattle.saber_dispatch.specs.Sources.{Lefts};
ghost use Rattle.saber_engine.specs.Supplying.{standing_of, GivenAt, GivenSome, GivesNext};

use saber_assembly::SaberWork;
use saber_crew::{Supplied, Supply};
use saber_dispatch::{Cut, Cutter, End, Inputs, Keeper};
use saber_fragment::{Block, Operator};
use saber_io::{Sink, Source};
use saber_plan::{NoMemory, Plan, Sizes};
use std::alloc::Global;
use std::marker::{Brand, PhantomData};

/// What there was when a run began. The caller picks it, for the contracts alone.
pub(crate) trait Begins {
    // the sizes of the run
    ghost sizes: { Sizes };

    // what each input had left
    ghost lefts: { Lefts };

    // the inputs' counts of faults
    ghost faults: { List ℕ };
}

impl Begins for Brand {
    ghost sizes = { record { task = 1; ring = 1; threads = 0; max_lines = 1; slack = 0; flush = false } };

    ghost lefts = { [] };

    ghost faults = { [] };
}

/// The blocks of a run that began so, and how they ended, once they did.
pub(crate) struct Blocks<S, J> {
    pub(crate) cutter: Cutter,
    pub(crate) keeper: Keeper,
    pub(crate) end: Option<End>,
    pub(crate) source: PhantomData<S>,
    pub(crate) begun: PhantomData<J>,
}

impl<S, J> Blocks<S, J> {
    /// Those of a plan's inputs, of which none was given.
    pub(crate) fn new(alloc: Global, plan: &Plan, sizes: &Sizes) -> Result<Blocks<S, J>, NoMemory>
        requires sizes { SizesFit sizes.now }
        ensures cuts { IfOk result (λ b. CutsNothing (tree_of plan.now) sizes.now b.cutter) }
        ensures goes { IfOk result (λ b. end_of b.cutter ≡ None) }
        ensures kept { IfOk result (λ b. b.keeper.kept ≡ None) }
        ensures counted { IfOk result (λ b. CountsRows b.keeper (tree_of plan.now) []) }
        ensures end { IfOk result (λ b. b.end ≡ None) }
    {
        let cutter = Cutter::new(alloc, plan, sizes)?;
        match Keeper::new(alloc, plan, sizes) {
            Ok(keeper) => Ok(Blocks {
                cutter,
                keeper,
                end: None,
                source: PhantomData,
                begun: PhantomData,
            }),
            Err(lacks) => {
                cutter.let_go();
                Err(lacks)
            }
        }
    }

    /// Lets them go, and tells how they ended.
    pub(crate) fn let_go(self) -> Option<End>
        ensures { result ≡ self.end }
    {
        let Blocks {
            cutter,
            keeper,
            end,
            source: _source,
            begun: _begun,
        } = self;
        cutter.let_go();
        keeper.let_go();
        end
    }
}

impl<S: Source, J: Begins, O: Operator, K: Sink> Supply<SaberWork<O, K>> for Blocks<S, J> {
    type From = Inputs<S>;

    ghost has_given = { λ blocks from told d. GivenAt O.plan J.sizes J.lefts J.faults (standing_of S.left S.faults from blocks.cutter blocks.keeper blocks.end) told d };

    ghost is_over = { λ blocks. IsSome blocks.end };

    fn next(&mut self, from: &mut Inputs<S>) -> Supplied<Block>
        requires { GivenSome O.plan J.sizes J.lefts J.faults (standing_of S.left S.faults from.old self.old.cutter self.old.keeper self.old.end) }
        ensures gives { GivesNext O.plan J.sizes J.lefts J.faults
            (standing_of S.left S.faults from.old self.old.cutter self.old.keeper self.old.end)
            (standing_of S.left S.faults from.new self.new.cutter self.new.keeper self.new.end) result }
        ensures over { result ≡ Supplied.Over → IsSome self.new.end }

        // Files have each block at once, or none any more.
        ensures never { result ≢ Supplied.Dry }
    {
        match self.end {
            Some(_) => Supplied::Over,
            None => match self.cutter.next_block(from) {
                Cut::Block(block) => {
                    let number = block.number;
                    let ended = block.ended;
                    match self.keeper.pass_on(block) {
                        Ok(block) => Supplied::Rows(block),
                        Err(_) => {
                            self.cutter.take_back(number, ended);
                            self.end = Some(End::NoMemory);
                            Supplied::Over
                        }
                    }
                }
                Cut::Ended(end) => {
                    self.end = Some(end);
                    Supplied::Over
                }
            },
        }
    }
}
