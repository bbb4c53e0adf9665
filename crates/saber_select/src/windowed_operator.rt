// The operator of selections with a window.
ghost use Rattle.std.specs.Prelude.{◌≡◌, Some};
ghost use Rattle.saber_plan.specs.declared.plans.Shape.TheVariants as shapes;
ghost use Rattle.saber_plan.specs.declared.plans.Word.TheVariants as words;
ghost use Rattle.saber_plan.specs.Trees.{tree_of};
ghost use Rattle.saber_plan.specs.Answers.{by_change, way};
ghost use Rattle.saber_changes.specs.Counts.{change_of};

use crate::picked::Picked;
use crate::windowed::WindowedSelect;
use saber_changes::Change;
use saber_fragment::{Block, Operator, Piece};
use saber_parts::PartStore;
use saber_plan::{NoMemory, Plan};
use std::alloc::Global;
use std::marker::Model;

/// The operator of a checked selection under a stream word: for each window the rows of it that
/// pass WHERE, under RSTREAM all, and under ISTREAM and DSTREAM the change, those that the window
/// before hasn't, or those of the window before that it hasn't. Contracts see it as the plan.
#[derive(Drop)]
pub struct WindowedOperator<'a> {
    select: WindowedSelect<'a>,
    change: Option<Change>,
}

impl<'a> Model for WindowedOperator<'a> {
    ghost use Rattle.std.specs.Prelude.{◌≡◌};
    ghost use Rattle.saber_plan.specs.declared.plans.Plan.{Plan};
    ghost use Rattle.saber_plan.specs.Trees.{tree_of};
    ghost use Rattle.saber_plan.specs.Answers.{way};
    ghost use Rattle.saber_plan.specs.contracts.plans.Plan as e;
    ghost use Rattle.saber_changes.specs.Outputs.{way_by};

    ghost Value = { Plan };

    ghost coded = { e.the_row.coded };

    ghost view = { λ o. o.select };

    ghost invariant = { λ o. way (tree_of o.select) ≡ way_by o.change };
}

impl<'a> WindowedOperator<'a> {
    /// The operator of this plan, with RSTREAM. Takes no memory.
    pub fn new(plan: &'a Plan) -> WindowedOperator<'a>
        requires select { (tree_of plan.now).shape ≡ shapes.Select }
        requires word { (tree_of plan.now).word ≡ Some words.Rstream }
        ensures { result ≡ plan.now }
    {
        WindowedOperator {
            select: WindowedSelect::new(plan),
            change: None,
        }
    }

    /// The operator of this plan, whose stream word asks for this change. Takes no memory.
    pub fn changing(plan: &'a Plan, change: Change) -> WindowedOperator<'a>
        requires select { (tree_of plan.now).shape ≡ shapes.Select }
        requires changes { way (tree_of plan.now) ≡ by_change (change_of change) }
        ensures { result ≡ plan.now }
    {
        WindowedOperator {
            select: WindowedSelect::new(plan),
            change: Some(change),
        }
    }
}

// A task's piece is made of its own block, so nothing of the block is copied.
impl Operator for WindowedOperator<'_> {
    type Draft = Piece<Picked>;

    type Piece = Piece<Picked>;

    type Store = PartStore<Picked>;

    ghost use Rattle.saber_plan.specs.Trees.{tree_of};
    ghost use Rattle.saber_fragment.specs.Shown.{shares_of};
    ghost use Rattle.saber_parts.specs.Stored.{parts_by, parts_from};
    ghost use Rattle.saber_parts.specs.Taking.{kept_by, HasTaken, IsGiven};
    ghost use Rattle.saber_select.specs.Found.{part_of};
    ghost use Rattle.saber_select.specs.Sights.{Gives};

    ghost plan = { tree_of };

    ghost has_seen = { λ o draft s. Gives (tree_of o) (shares_of part_of draft) s };

    ghost contents = { λ s. kept_by (parts_by part_of s.parts.entries) s.output };

    ghost remainder = { λ s. kept_by (parts_from part_of s.closed_below s.parts.entries) s.output };

    ghost has_taken = { λ o s r. HasTaken (tree_of o) s.output r };

    ghost is_of = { λ o piece r x y. IsGiven (tree_of o) (shares_of part_of piece) r x y };

    fn start(&self, alloc: Global, own: &Block) -> Result<Piece<Picked>, NoMemory> {
        self.select.given_of(alloc, own, self.change)
    }

    fn look_back(
        &self,
        _alloc: Global,
        _draft: &mut Piece<Picked>,
        _block: &Block,
    ) -> Result<(), NoMemory> {
        Ok(())
    }

    fn finish(&self, _alloc: Global, draft: Piece<Picked>) -> Result<Piece<Picked>, NoMemory> {
        let _plan = &self.select.plan;
        Ok(draft)
    }

    fn empty_store(&self, alloc: Global) -> PartStore<Picked> {
        self.select.no_parts(alloc, self.change)
    }

    fn take_in(
        &self,
        alloc: Global,
        store: &mut PartStore<Picked>,
        piece: Piece<Picked>,
        out: &mut Vec<u8>,
    ) -> Result<(), NoMemory> {
        store.take_in(alloc, &self.select, piece, out)?;
        Ok(())
    }

    fn drop_closed(&self, store: &mut PartStore<Picked>) {
        store.drop_closed();
    }
}
